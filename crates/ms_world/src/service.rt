//! What happened to a service.

ghost use Rattle.std.specs.Prelude.{◌≡◌, ◌++◌, ◌∷◌, [], List, length, option_to_list, take, OnOk, OnErr};
ghost use Rattle.ms_record.specs.Floors.{IsFloor};
ghost use Rattle.ms_record.specs.declared.log.LogEvent.{LogEvent};
ghost use Rattle.ms_record.specs.Logs.{votes_in};

use crate::front::Front;
use ms_base::NoMemory;
use ms_record::{LogEvent, Record, parse_record};
use std::alloc::Global;
use std::marker::Model;

/// The log of a service: its events, in order.
#[derive(Drop)]
pub(crate) struct Log {
    events: Vec<LogEvent>,
    /// The greatest floor below which it dropped, 0 for none.
    floor: u32,
}

impl Model for Log {
    ghost use Rattle.std.specs.Prelude.{List};
    ghost use Rattle.ms_record.specs.declared.log.LogEvent.{LogEvent};

    ghost Value = { List LogEvent };

    ghost view = { λ log. log.events.items };

    ghost use Rattle.ms_record.specs.Floors.{IsFloor};

    ghost invariant = { λ log. IsFloor log.events.items log.floor };
}

impl Log {
    /// The log of a service to which nothing has happened.
    pub(crate) fn new(alloc: Global) -> Log
        ensures { result ≡ [] }
    {
        Log {
            events: Vec::new(alloc),
            floor: 0,
        }
    }

    /// Puts an event at the end.
    pub(crate) fn push(&mut self, event: LogEvent) -> Result<(), NoMemory>
        ensures ok { OnOk result (self.new ≡ self.old ++ event ∷ []) }
        ensures err { OnErr result (self.new ≡ self.old) }
    {
        let floor = floor_behind(self.floor, &event);
        self.events.push(event)?;
        self.floor = floor;
        Ok(())
    }

    pub(crate) fn as_slice(&self) -> &[LogEvent]
        ensures { result.now ≡ self.now }
    {
        self.events.as_slice()
    }

    /// Its first events, so many of them, or all where there are fewer.
    pub(crate) fn front(&self, upto: u64) -> Front<'_>
        ensures { result ≡ take upto self.now }
    {
        let events = self.events.as_slice();
        let upto = (upto as usize).min(events.len());
        Front::new(&events[..upto])
    }

    /// How many events there are.
    pub(crate) fn len(&self) -> u64
        ensures { result ≡ length self.now }
    {
        self.events.len() as u64
    }

    /// The greatest floor below which it dropped, 0 for none.
    pub(crate) fn floor(&self) -> u32
        ensures { IsFloor self.now result }
    {
        self.floor
    }
}

/// The greatest floor, where this was it before the event.
fn floor_behind(floor: u32, event: &LogEvent) -> u32
    ensures { (log : List LogEvent) → IsFloor log floor → IsFloor (log ++ event.now ∷ []) result }
{
    match event {
        LogEvent::Drop { floor: below } => { if *below > floor { *below } else { floor } }
        LogEvent::Rec { .. } => floor,
        LogEvent::Put { .. } => floor,
    }
}

/// The record that the event adds to the votes; a text that is none adds nothing.
pub(crate) fn record_in(event: &LogEvent) -> Option<Record>
    ensures { votes_in (event.now ∷ []) ≡ option_to_list result }
{
    match event {
        LogEvent::Rec { list, text } => {
            if list.0 == 0 {
                parse_record(text.as_slice())
            } else {
                None
            }
        }
        LogEvent::Put { .. } => None,
        LogEvent::Drop { .. } => None,
    }
}
