//! A world that runs.

ghost use Rattle.std.specs.Prelude.{◌≡◌, ◌+◌, ◌<◌, ◌^◌, ℕ, List, Some, IfOk, OnErr, length, slice_get};
ghost use Rattle.ms_world.specs.declared.event.Event.TheVariants as events;
ghost use Rattle.ms_world.specs.Held.{IsReached, StepsTo};
ghost use Rattle.ms_world.specs.Refusals.{MayLackMemory, Tries};
ghost use Rattle.ms_world.specs.Steps.{IsEvent};
ghost use Rattle.ms_world.specs.Worlds.{ClientView, log_of, start_world, votes_of_world};
ghost use Rattle.ms_core.specs.Placing.{StaysPlaced};
ghost use Rattle.ms_core.specs.Valid.{IsLive, Names, plan_at};
ghost use Rattle.ms_record.specs.declared.entry.Entry.{Entry};
ghost use Rattle.ms_record.specs.Chains.{Agrees, Begins, IsChain, IsChosen, IsLinked};
ghost use Rattle.ms_record.specs.Plans.{IsPlan};
ghost use Rattle.ms_record.specs.Settings.{IsSetting, origin_of};

use crate::behind::{genesis_plan, plan_behind};
use crate::chain::follow;
use crate::event::{Event, Push};
use crate::law::every_run;
use crate::reached::{chains_go_on, runs_go_on, states_hold};
use crate::state::State;
use ms_base::{ClientId, Name, NoMemory, ServiceId};
use ms_record::{Entries, Plan, Refusal, Setting, Why};
use std::alloc::Global;
use std::marker::Model;

/// A world of services and clients: what events have made of it since its start, and how many were carried out.
#[derive(Drop)]
pub struct World {
    alloc: Global,
    setting: Setting,
    state: State,
    /// The chain of the logs, as far as it was asked for.
    chain: Entries,
    steps: u64,
}

impl Model for World {
    ghost use Rattle.ms_world.specs.Held.{HeldView};
    ghost use Rattle.ms_world.specs.WorldInside.{IsKept, seen};

    ghost Value = { HeldView };

    ghost view = { seen };

    ghost invariant = { IsKept };
}

impl World {
    /// A world in which nothing has happened.
    pub fn start(alloc: Global, setting: &Setting) -> Result<World, NoMemory>
        requires { IsSetting setting.now }
        ensures { IfOk result (λ w. w ≡ record { setting = setting.now; world = start_world setting.now; steps = 0 }) }
    {
        let state = State::start(alloc, setting)?;
        Ok(World {
            alloc,
            setting: *setting,
            state,
            chain: Entries::new(alloc),
            steps: 0,
        })
    }

    /// Carries an event out. `NotEnabled` tells its number, counted from 1, and the first of its conditions that fails.
    /// `NoMemory` is also the answer where no more events can be counted. After each of them nothing has changed.
    pub fn step(&mut self, event: &Event) -> Result<(), Refusal>
        ensures { StepsTo self.old event.now self.new result }
    {
        runs_go_on();
        event_ranges(event);
        let Some(number) = self.steps.checked_add(1) else {
            return Err(Refusal::NoMemory);
        };
        let state = &mut self.state;
        let chain = &mut self.chain;
        if let Some(why) = carry_out(self.alloc, &self.setting, state, chain, event)? {
            return Err(Refusal::NotEnabled { event: number, why });
        }
        self.steps = number;
        Ok(())
    }

    /// The chain of the logs: the longest list of entries that are chosen at their positions and link on.
    pub fn chain(&self) -> Result<Entries, NoMemory>
        ensures { IfOk result (λ c. IsChain (votes_of_world self.now.world) (origin_of self.now.setting) c) }
    {
        let so_far = Vec::from_slice(self.alloc, self.chain.as_slice())?;
        let mut chain = Entries::from_vec(so_far);
        follow(self.alloc, &self.setting, &self.state, &mut chain)?;
        Ok(chain)
    }

    /// The position of the last entry of a client's chain, 0 for the genesis.
    pub fn known(&self, client: ClientId) -> u32
        requires { client.0 < self.now.setting.clients }
        ensures { (c : ClientView) → slice_get self.now.world.clients client.0 ≡ Some c → result ≡ length c.chain }
    {
        states_hold();
        chain_length(&self.state, client)
    }

    /// Takes nothing and gives nothing; what holds of each world.
    pub fn shows(&self)
        ensures set { IsSetting self.now.setting }
        ensures reached { IsReached self.now.setting self.now.world }
        ensures clients { length self.now.world.clients ≡ self.now.setting.clients }
        // Two entries chosen at one position are one.
        ensures agrees { Agrees (votes_of_world self.now.world) (origin_of self.now.setting) }
        // There is a chain.
        ensures chain { (chain : List Entry) × IsChain (votes_of_world self.now.world) (origin_of self.now.setting) chain }
        // A chosen entry stands in the chain at its position.
        ensures stands { (chain : List Entry) → IsChain (votes_of_world self.now.world) (origin_of self.now.setting) chain
            → (i : ℕ) (e : Entry) → IsChosen (votes_of_world self.now.world) (origin_of self.now.setting) (i + 1) e → slice_get chain i ≡ Some e }
        // Each client's chain begins the chain.
        ensures begins { (chain : List Entry) → IsChain (votes_of_world self.now.world) (origin_of self.now.setting) chain
            → (client : ℕ) (c : ClientView) → slice_get self.now.world.clients client ≡ Some c → Begins c.chain chain }
        // Each member of a client's chain names the SHA-256 of the bytes of the member before it.
        ensures names { (client : ℕ) (c : ClientView) → slice_get self.now.world.clients client ≡ Some c → Names self.now.setting c.chain }
        // A live master stays placed, whatever was dropped.
        ensures live { (chain : List Entry) → IsChain (votes_of_world self.now.world) (origin_of self.now.setting) chain
            → (i : ℕ) (e : Entry) → IsLive self.now.setting chain i e → StaysPlaced (log_of self.now.world) (plan_at self.now.setting chain i) e.version }
    {
        let _ = &self.state;
        states_hold();
        every_run();
    }
}

/// How many entries stand behind the genesis in a client's chain.
fn chain_length(state: &State, client: ClientId) -> u32
    requires there { client.0 < length state.now.clients }
    requires short { (c : ClientView) → slice_get state.now.clients client.0 ≡ Some c → length c.chain < 2 ^ 32 }
    ensures { (c : ClientView) → slice_get state.now.clients client.0 ≡ Some c → result ≡ length c.chain }
{
    state.clients[client.0 as usize].chain.len() as u32
}

/// Does what the event asks of the state, or tells the first of its conditions that fails. The chain is brought up to
/// date where the event asks for it.
fn carry_out(
    alloc: Global,
    setting: &Setting,
    state: &mut State,
    chain: &mut Entries,
    event: &Event,
) -> Result<Option<Why>, NoMemory>
    requires set { IsSetting setting.now }
    requires reached { IsReached setting.now state.old }
    requires linked { IsLinked (votes_of_world state.old) (origin_of setting.now) chain.old }
    ensures ok { IfOk result (λ why. Tries setting.now state.old event.now state.new why) }
    ensures err { OnErr result (state.new ≡ state.old) }
    ensures memory { OnErr result (MayLackMemory setting.now state.old event.now) }
    ensures linked { IsLinked (votes_of_world state.old) (origin_of setting.now) chain.new }
{
    states_hold();
    match event {
        Event::Start { client } => state.start_client(alloc, setting, *client),
        Event::Stop { client } => Ok(state.stop(*client)),
        Event::Bid {
            client,
            round,
            want,
        } => state.bid(alloc, setting, *client, *round, *want),
        Event::Turn {
            client,
            round,
            number,
            plan,
        } => state.turn(alloc, setting, *client, *round, *number, plan),
        Event::Migrate {
            client,
            round,
            number,
            version,
        } => state.migrate(alloc, setting, *client, *round, *number, *version),
        Event::Deliver { request } => state.deliver(alloc, *request),
        Event::Read {
            client,
            service,
            upto,
        } => Ok(state.read(setting, *client, *service, *upto)),
        Event::Offer { client } => state.offer(alloc, setting, *client),
        Event::Learn { client } => state.learn(alloc, setting, *client),
        Event::Place {
            service,
            generation,
            text,
        } => state.place(alloc, setting, *service, *generation, text.as_slice()),
        Event::DropBelow { service, floor } => {
            drop_below(alloc, setting, state, chain, *service, *floor)
        }
    }
}

/// The service drops the generations below the floor, or the condition that fails.
fn drop_below(
    alloc: Global,
    setting: &Setting,
    state: &mut State,
    chain: &mut Entries,
    service: ServiceId,
    floor: u32,
) -> Result<Option<Why>, NoMemory>
    requires set { IsSetting setting.now }
    requires reached { IsReached setting.now state.old }
    requires linked { IsLinked (votes_of_world state.old) (origin_of setting.now) chain.old }
    ensures ok { IfOk result (λ why. Tries setting.now state.old (events.DropBelow service floor) state.new why) }
    ensures err { OnErr result (state.new ≡ state.old) }
    ensures memory { OnErr result (MayLackMemory setting.now state.old (events.DropBelow service floor)) }
    ensures linked { IsLinked (votes_of_world state.old) (origin_of setting.now) chain.new }
{
    states_hold();
    chains_go_on();
    if service.0 >= setting.services {
        return Ok(Some(Why::Service));
    }
    follow(alloc, setting, state, chain)?;
    let plan = plan_behind(genesis_plan(setting), chain.as_slice());
    state.drop_below(setting, service, floor, plan.generation())
}

/// The numbers and names of an event are in the ranges of their types.
pub fn event_ranges(event: &Event)
    ensures { IsEvent event.now }
{
    match event {
        Event::Bid {
            want: Some(push),
            ..
        } => push_ranges(*push),
        Event::Turn { number, plan, .. } => turn_ranges(*number, plan),
        Event::Migrate {
            number,
            version,
            ..
        } => migrate_ranges(*number, *version),
        _ => {}
    }
}

/// The number and the name of a push are in the ranges of their types.
fn push_ranges(push: Push)
    ensures number { push.number < 2 ^ 32 }
    ensures version { length push.version.0 ≡ 32 }
{}

/// A number is in the range of its type, and a plan keeps the plan rules.
fn turn_ranges(number: u32, plan: &Plan)
    ensures number { number < 2 ^ 32 }
    ensures plan { IsPlan plan.now }
{
    let _ = plan.rows();
}

/// A number and a name are in the ranges of their types.
fn migrate_ranges(number: u32, version: Name)
    ensures number { number < 2 ^ 32 }
    ensures version { length version.0 ≡ 32 }
{}
