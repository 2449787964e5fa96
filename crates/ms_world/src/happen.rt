//! What happens to the services of a world.

ghost use Rattle.std.specs.Prelude.{◌≡◌, ◌≤◌, ◌<◌, ◌↔◌, ◌⊎◌, IsTrue, IfOk, OnOk, OnErr};
ghost use Rattle.ms_world.specs.declared.event.Event.TheVariants as events;
ghost use Rattle.ms_world.specs.Refusals.{MayLackMemory, Tries};
ghost use Rattle.ms_world.specs.States.{IsState};
ghost use Rattle.ms_world.specs.Steps.{IsOpen, IsTurned, vote_list};
ghost use Rattle.ms_world.specs.Worlds.{logged};
ghost use Rattle.ms_record.specs.declared.log.LogEvent.TheVariants as log_events;
ghost use Rattle.ms_record.specs.declared.setting.Setting.{Setting};
ghost use Rattle.ms_record.specs.Records.{record_text};

use crate::service::Log;
use crate::state::State;
use ms_base::limits::LAST_NUMBER;
use ms_base::{Bytes, Name, NoMemory, ServiceId};
use ms_record::{ListId, LogEvent, Record, Setting, Why, write_record};
use sha2::{Digest, Sha256};
use std::alloc::Global;

impl State {
    /// A request reaches its service, or the condition that fails.
    pub(crate) fn deliver(&mut self, alloc: Global, request: u64) -> Result<Option<Why>, NoMemory>
        ensures ok { IfOk result (λ why. (setting : Setting) → Tries setting self.old (events.Deliver request) self.new why) }
        ensures err { OnErr result (self.new ≡ self.old) }
        ensures memory { OnErr result ((setting : Setting) → MayLackMemory setting self.old (events.Deliver request)) }
    {
        let Some(sent) = self.requests.get(request as usize) else {
            return Ok(Some(Why::Request));
        };
        let service = sent.service;
        let event = delivered(alloc, &sent.message)?;
        self.happen(service, event)?;
        Ok(None)
    }

    /// The service keeps an object under its name, or the condition that fails.
    pub(crate) fn place(
        &mut self,
        alloc: Global,
        setting: &Setting,
        service: ServiceId,
        generation: u32,
        text: &[u8],
    ) -> Result<Option<Why>, NoMemory>
        requires { IsState setting.now self.old }
        ensures ok { IfOk result (λ why. Tries setting.now self.old (events.Place service generation text.now) self.new why) }
        ensures err { OnErr result (self.new ≡ self.old) }
        ensures memory { OnErr result (MayLackMemory setting.now self.old (events.Place service generation text.now)) }
    {
        if service.0 >= setting.services {
            return Ok(Some(Why::Service));
        }
        if !is_open(&self.logs[service.0 as usize], generation) {
            return Ok(Some(Why::Generation));
        }
        let text = Bytes::of(alloc, text)?;
        let name = Name(Sha256::digest(text.as_slice()));
        let event = LogEvent::Put {
            generation,
            name,
            text,
        };
        self.happen(service.0, event)?;
        Ok(None)
    }

    /// The service drops the generations below the floor, or the condition that fails; `generation` is the one in force
    /// behind the chain of the logs.
    pub(crate) fn drop_below(
        &mut self,
        setting: &Setting,
        service: ServiceId,
        floor: u32,
        generation: u32,
    ) -> Result<Option<Why>, NoMemory>
        requires state { IsState setting.now self.old }
        requires there { service.0 < setting.now.services }
        requires turned { ((floor ≤ 1) ⊎ (floor ≤ generation)) ↔ IsTurned setting.now self.old floor }
        ensures ok { IfOk result (λ why. Tries setting.now self.old (events.DropBelow service floor) self.new why) }
        ensures err { OnErr result (self.new ≡ self.old) }
        ensures memory { OnErr result (MayLackMemory setting.now self.old (events.DropBelow service floor)) }
    {
        if floor > 1 && floor > generation {
            return Ok(Some(Why::Turned));
        }
        self.happen(service.0, LogEvent::Drop { floor })?;
        Ok(None)
    }

    /// An event happens to a service, if it is there.
    fn happen(&mut self, service: u32, event: LogEvent) -> Result<(), NoMemory>
        ensures ok { OnOk result (self.new ≡ logged self.old service event) }
        ensures err { OnErr result (self.new ≡ self.old) }
    {
        let place = service as usize;
        if place >= self.logs.len() {
            return Ok(());
        }
        self.logs[place].push(event)
    }
}

/// What happens to a service that a record reaches.
fn delivered(alloc: Global, message: &Record) -> Result<LogEvent, NoMemory>
    ensures { IfOk result (λ event. event ≡ log_events.Rec vote_list (record_text message.now)) }
{
    let mut text = Vec::new(alloc);
    write_record(message, &mut text)?;
    Ok(LogEvent::Rec {
        list: ListId(0),
        text: Bytes::from_vec(text),
    })
}

/// Whether a service takes puts of the generation in.
fn is_open(log: &Log, generation: u32) -> bool
    ensures { IsTrue result ↔ IsOpen log.now generation }
{
    generation >= 1 && generation <= LAST_NUMBER && log.floor() <= generation
}
