//! The state of a world, and what each event does to it. What holds in every run is added by `World`.

ghost use Rattle.std.specs.Prelude.{◌≡◌, ◌≤◌, ◌<◌, ◌++◌, length, map, replicate, slice_set, slice_get, [], Some, IfOk, IfErr, OnOk, OnErr};
ghost use Rattle.ms_world.specs.declared.event.Event.TheVariants as events;
ghost use Rattle.ms_world.specs.Refusals.{IsDown, MayLackMemory, Tries};
ghost use Rattle.ms_world.specs.States.{IsState};
ghost use Rattle.ms_world.specs.Steps.{IsUp};
ghost use Rattle.ms_world.specs.Worlds.{RequestView, new_client, services_of, start_world, to_all};
ghost use Rattle.ms_record.specs.declared.setting.Setting.{Setting};

use crate::client::{Client, Request};
use crate::service::Log;
use ms_base::{ClientId, NoMemory, ServiceId};
use ms_record::{PlanRow, Record, Setting, Why};
use std::alloc::Global;
use std::marker::Model;

/// A log per service, all requests ever sent, and the clients.
#[derive(Drop)]
pub(crate) struct State {
    pub(crate) logs: Vec<Log>,
    pub(crate) requests: Vec<Request>,
    pub(crate) clients: Vec<Client>,
}

impl Model for State {
    ghost use Rattle.ms_world.specs.Worlds.{WorldView};

    ghost Value = { WorldView };

    ghost view = { λ s. record { logs = s.logs.items; requests = s.requests.items; clients = s.clients.items } };
}

impl State {
    /// All logs are empty, nothing was sent, and all clients are off.
    pub(crate) fn start(alloc: Global, setting: &Setting) -> Result<State, NoMemory>
        ensures { IfOk result (λ s. s ≡ start_world setting.now) }
    {
        let logs = empty_logs(alloc, setting.services)?;
        let clients = new_clients(alloc, setting.clients)?;
        Ok(State {
            logs,
            requests: Vec::new(alloc),
            clients,
        })
    }

    /// The client, if it is on; else why not.
    pub(crate) fn up(&self, client: ClientId) -> Result<&Client, Why>
        ensures up { IfOk result (λ c. IsUp self.now client.0 c.now) }
        ensures down { IfErr result (IsDown self.now client.0) }
    {
        let Some(c) = self.clients.get(client.0 as usize) else {
            return Err(Why::Client);
        };
        if !c.on {
            return Err(Why::Off);
        }
        Ok(c)
    }

    /// The client goes on with what it kept, or the condition that fails.
    pub(crate) fn start_client(
        &mut self,
        alloc: Global,
        setting: &Setting,
        client: ClientId,
    ) -> Result<Option<Why>, NoMemory>
        ensures ok { IfOk result (λ why. Tries setting.now self.old (events.Start client) self.new why) }
        ensures err { OnErr result (self.new ≡ self.old) }
        ensures memory { OnErr result (MayLackMemory setting.now self.old (events.Start client)) }
    {
        let place = client.0 as usize;
        if place >= self.clients.len() {
            return Ok(Some(Why::Client));
        }
        if self.clients[place].on {
            return Ok(Some(Why::On));
        }
        let known = zeros(alloc, setting.services)?;
        self.clients[place].start(alloc, known);
        Ok(None)
    }

    /// The client stops, or the condition that fails.
    pub(crate) fn stop(&mut self, client: ClientId) -> Option<Why>
        ensures { (setting : Setting) → Tries setting self.old (events.Stop client) self.new result }
    {
        if let Err(why) = self.up(client) {
            return Some(why);
        }
        self.clients[client.0 as usize].stop();
        None
    }

    /// The client reads a log up to so many events, or the condition that fails.
    pub(crate) fn read(
        &mut self,
        setting: &Setting,
        client: ClientId,
        service: ServiceId,
        upto: u64,
    ) -> Option<Why>
        requires { IsState setting.now self.old }
        ensures { Tries setting.now self.old (events.Read client service upto) self.new result }
    {
        let known = match self.up(client) {
            Ok(c) => c.known_of(service.0 as usize),
            Err(why) => return Some(why),
        };
        if service.0 >= setting.services {
            return Some(Why::Service);
        }
        if upto < known || upto > self.logs[service.0 as usize].len() {
            return Some(Why::Prefix);
        }
        self.clients[client.0 as usize].read(service.0 as usize, upto);
        None
    }

    /// Sends a request to each voter; where memory runs out, to none.
    pub(crate) fn send(
        &mut self,
        alloc: Global,
        voters: &[PlanRow],
        message: &Record,
    ) -> Result<(), NoMemory>
        ensures ok { OnOk result (self.new ≡ record self.old { requests = self.old.requests ++ to_all (services_of voters.now) message.now }) }
        ensures err { OnErr result (self.new ≡ self.old) }
    {
        let mut sent = requests_to(alloc, voters, message)?;
        self.requests.append(&mut sent)?;
        Ok(())
    }
}

/// So many logs of services to which nothing has happened.
fn empty_logs(alloc: Global, count: u32) -> Result<Vec<Log>, NoMemory>
    ensures { IfOk result (λ logs. logs.items ≡ replicate count []) }
{
    let mut logs = Vec::new(alloc);
    for _ in 0..count {
        logs.push(Log::new(alloc))?;
    }
    Ok(logs)
}

/// So many clients that never ran.
fn new_clients(alloc: Global, count: u32) -> Result<Vec<Client>, NoMemory>
    ensures { IfOk result (λ clients. clients.items ≡ replicate count new_client) }
{
    let mut clients = Vec::new(alloc);
    for _ in 0..count {
        clients.push(Client::new(alloc))?;
    }
    Ok(clients)
}

/// So many zeros.
fn zeros(alloc: Global, count: u32) -> Result<Vec<u64>, NoMemory>
    ensures { IfOk result (λ v. v.items ≡ replicate count 0) }
{
    let zeros = vec![in alloc; 0; count as usize]?;
    Ok(zeros)
}

/// One request to each voter.
fn requests_to(
    alloc: Global,
    voters: &[PlanRow],
    message: &Record,
) -> Result<Vec<Request>, NoMemory>
    ensures { IfOk result (λ v. v.items ≡ map (λ row. let r : RequestView = record { service = row.service.0; message = message.now } in r) voters.now) }
{
    let sent = voters
        .iter()
        .map(|row| request_to(row, message))
        .collect(alloc)?;
    Ok(sent)
}

fn request_to(row: &PlanRow, message: &Record) -> Request
    ensures { result ≡ record { service = row.now.service.0; message = message.now } }
{
    Request {
        service: row.service.0,
        message: *message,
    }
}

/// The voter at a place.
pub(crate) fn voter(voters: &[PlanRow], i: usize) -> &PlanRow
    requires { i < length voters.now }
    ensures { slice_get voters.now i ≡ Some result.now }
{
    &voters[i]
}
