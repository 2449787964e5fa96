//! Bids of the clients of a world.

ghost use Rattle.std.specs.Prelude.{◌≡◌, ◌↔◌, All, Some, IsTrue, IfOk, OnOk, OnErr, slice_get};
ghost use Rattle.ms_world.specs.declared.event.Event.TheVariants as events;
ghost use Rattle.ms_world.specs.PutTexts.{ArePutsNamed};
ghost use Rattle.ms_world.specs.Refusals.{MayLackMemory, Tries};
ghost use Rattle.ms_world.specs.States.{IsState, MayBid};
ghost use Rattle.ms_world.specs.Steps.{IsNextPosition, WantIsPlaced, bid_made};
ghost use Rattle.ms_world.specs.Worlds.{ClientView};
ghost use Rattle.ms_record.specs.Chains.{LinksBehind};
ghost use Rattle.ms_record.specs.Settings.{IsSetting, origin_of};

use crate::behind::in_format;
use crate::client::Client;
use crate::event::Push;
use crate::placing::is_placed;
use crate::state::State;
use ms_base::limits::LAST_NUMBER;
use ms_base::{ClientId, Name, NoMemory};
use ms_record::plan::LAST_FORMAT;
use ms_record::{Ballot, Entry, Plan, Record, Setting, Why, links_on};
use std::alloc::Global;

/// The format before a migration, which goes to the last one.
const FIRST_FORMAT: u32 = 1;

impl State {
    /// The client bids for the position behind its chain, or the condition that fails.
    pub(crate) fn bid(
        &mut self,
        alloc: Global,
        setting: &Setting,
        client: ClientId,
        round: u32,
        want: Option<Push>,
    ) -> Result<Option<Why>, NoMemory>
        requires { IsState setting.now self.old }
        ensures ok { IfOk result (λ why. Tries setting.now self.old (events.Bid client round want) self.new why) }
        ensures err { OnErr result (self.new ≡ self.old) }
        ensures memory { OnErr result (MayLackMemory setting.now self.old (events.Bid client round want)) }
    {
        let c = match self.up(client) {
            Ok(c) => c,
            Err(why) => return Ok(Some(why)),
        };
        if let Some(why) = c.may_bid(round) {
            return Ok(Some(why));
        }
        if !self.is_want_placed(alloc, setting, c, want)? {
            return Ok(Some(Why::Placed));
        }
        let entry = c.pushed(setting, client, want);
        self.make_bid(alloc, setting, client, round, entry)?;
        Ok(None)
    }

    /// The client bids for the position behind its chain with a plan, or the condition that fails.
    pub(crate) fn turn(
        &mut self,
        alloc: Global,
        setting: &Setting,
        client: ClientId,
        round: u32,
        number: u32,
        plan: &Plan,
    ) -> Result<Option<Why>, NoMemory>
        requires { IsState setting.now self.old }
        ensures ok { IfOk result (λ why. Tries setting.now self.old (events.Turn client round number plan.now) self.new why) }
        ensures err { OnErr result (self.new ≡ self.old) }
        ensures memory { OnErr result (MayLackMemory setting.now self.old (events.Turn client round number plan.now)) }
    {
        let c = match self.up(client) {
            Ok(c) => c,
            Err(why) => return Ok(Some(why)),
        };
        if let Some(why) = c.may_bid(round) {
            return Ok(Some(why));
        }
        let plan = c.turn_plan(setting, plan);
        let entry = c.planned(setting, client, number, c.version(setting), &plan);
        if !c.links(setting, &entry) {
            return Ok(Some(Why::Plan));
        }
        if !is_placed(alloc, &self.logs, &plan, &entry.version)? {
            return Ok(Some(Why::Placed));
        }
        self.make_bid(alloc, setting, client, round, Some(entry))?;
        Ok(None)
    }

    /// The client bids for the position behind its chain with format 2, or the condition that fails.
    pub(crate) fn migrate(
        &mut self,
        alloc: Global,
        setting: &Setting,
        client: ClientId,
        round: u32,
        number: u32,
        version: Name,
    ) -> Result<Option<Why>, NoMemory>
        requires { IsState setting.now self.old }
        ensures ok { IfOk result (λ why. Tries setting.now self.old (events.Migrate client round number version) self.new why) }
        ensures err { OnErr result (self.new ≡ self.old) }
        ensures memory { OnErr result (MayLackMemory setting.now self.old (events.Migrate client round number version)) }
    {
        let c = match self.up(client) {
            Ok(c) => c,
            Err(why) => return Ok(Some(why)),
        };
        if let Some(why) = c.may_bid(round) {
            return Ok(Some(why));
        }
        let now = c.plan(setting);
        if now.format() != FIRST_FORMAT {
            return Ok(Some(Why::Plan));
        }
        let plan = in_format(&now, LAST_FORMAT);
        if !is_placed(alloc, &self.logs, &plan, &version)? {
            return Ok(Some(Why::Placed));
        }
        let entry = c.planned(setting, client, number, version, &plan);
        self.make_bid(alloc, setting, client, round, Some(entry))?;
        Ok(None)
    }

    /// Whether the version of a push is placed under the plan in force behind the client's chain.
    fn is_want_placed(
        &self,
        alloc: Global,
        setting: &Setting,
        c: &Client,
        want: Option<Push>,
    ) -> Result<bool, NoMemory>
        requires set { IsSetting setting.now }
        requires named { All ArePutsNamed self.now.logs }
        ensures { IfOk result (λ is. IsTrue is ↔ WantIsPlaced setting.now self.now c.now want) }
    {
        let Some(push) = want else {
            return Ok(true);
        };
        let plan = c.plan(setting);
        is_placed(alloc, &self.logs, &plan, &push.version)
    }

    /// Makes a bid: its round is kept, and each voter is asked to promise.
    fn make_bid(
        &mut self,
        alloc: Global,
        setting: &Setting,
        client: ClientId,
        round: u32,
        want: Option<Entry>,
    ) -> Result<(), NoMemory>
        requires set { IsSetting setting.now }
        requires there { (c : ClientView) × (slice_get self.old.clients client.0 ≡ Some c) × IsNextPosition c }
        ensures ok { (c : ClientView) → slice_get self.old.clients client.0 ≡ Some c
            → OnOk result (self.new ≡ bid_made setting.now self.old client.0 c round want) }
        ensures err { OnErr result (self.new ≡ self.old) }
    {
        let place = client.0 as usize;
        let position = self.clients[place].next_position();
        let ballot = Ballot { round, client };
        let plan = self.clients[place].plan(setting);
        self.send(alloc, plan.rows(), &Record::Prepare { position, ballot })?;
        self.clients[place].begin_bid(round, want);
        Ok(())
    }
}

impl Client {
    /// Whether it may bid in that round; or the condition that fails.
    fn may_bid(&self, round: u32) -> Option<Why>
        ensures { MayBid self.now round result }
    {
        if self.chain.len() >= LAST_NUMBER as usize {
            return Some(Why::Position);
        }
        if round <= self.kept || round > LAST_NUMBER {
            return Some(Why::Round);
        }
        None
    }

    /// Whether the entry links on to its chain.
    pub(crate) fn links(&self, setting: &Setting, entry: &Entry) -> bool
        requires { IsSetting setting.now }
        ensures { IsTrue result ↔ LinksBehind (origin_of setting.now) self.now.chain entry.now }
    {
        let now = self.plan(setting);
        links_on(
            &self.last_name(setting),
            now.generation(),
            now.format(),
            setting.services,
            entry,
        )
    }
}
