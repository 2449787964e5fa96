//! What a client does with what it has read of the logs: it offers, and it learns.

ghost use Rattle.std.specs.Prelude.{◌≡◌, ◌^◌, ◌<◌, Some, None, IfOk, IfSome, OnOk, OnErr, length, slice_get, slice_index_or, take};
ghost use Rattle.ms_world.specs.declared.event.Event.TheVariants as events;
ghost use Rattle.ms_world.specs.Refusals.{MayLackMemory, Tries};
ghost use Rattle.ms_world.specs.Rulings.{AreFronts, IsRuling};
ghost use Rattle.ms_world.specs.States.{IsState, KnowsOne};
ghost use Rattle.ms_world.specs.Steps.{offer_made};
ghost use Rattle.ms_world.specs.Worlds.{ClientView, ballot_of_round, known_votes, log_of, next_of, services_of, voters_of_client, votes_of_world};
ghost use Rattle.ms_record.specs.declared.entry.Entry.{Entry};
ghost use Rattle.ms_record.specs.Chains.{voters_of};
ghost use Rattle.ms_record.specs.Settings.{IsSetting};
ghost use Rattle.ms_record.specs.Votes.{ChosenBy};

use crate::chosen::chosen_at;
use crate::client::{Bidding, Client};
use crate::front::Front;
use crate::rule::{Ruling, rule};
use crate::state::{State, voter};
use ms_base::{ClientId, NoMemory};
use ms_record::{Ballot, Entry, Plan, PlanRow, Record, Setting, Why};
use std::alloc::Global;

impl State {
    /// The client offers what the promises that it read allow, or the condition that fails.
    pub(crate) fn offer(
        &mut self,
        alloc: Global,
        setting: &Setting,
        client: ClientId,
    ) -> Result<Option<Why>, NoMemory>
        requires { IsState setting.now self.old }
        ensures ok { IfOk result (λ why. Tries setting.now self.old (events.Offer client) self.new why) }
        ensures err { OnErr result (self.new ≡ self.old) }
        ensures memory { OnErr result (MayLackMemory setting.now self.old (events.Offer client)) }
    {
        let c = match self.up(client) {
            Ok(c) => c,
            Err(why) => return Ok(Some(why)),
        };
        let Some(bid) = c.open_bid() else {
            return Ok(Some(Why::Bid));
        };
        let ruling = self.ruling(alloc, setting, client, c, &bid)?;
        match ruling {
            Ruling::Unpromised => Ok(Some(Why::Promises)),
            Ruling::Nothing => Ok(Some(Why::Nothing)),
            Ruling::Offer { entry } => {
                self.make_offer(alloc, setting, client, &bid, &entry)?;
                Ok(None)
            }
        }
    }

    /// The chain of the client gains the entry that it read to be chosen, or the condition that fails.
    pub(crate) fn learn(
        &mut self,
        alloc: Global,
        setting: &Setting,
        client: ClientId,
    ) -> Result<Option<Why>, NoMemory>
        requires state { IsState setting.now self.old }
        requires one { KnowsOne setting.now self.old }
        ensures ok { IfOk result (λ why. Tries setting.now self.old (events.Learn client) self.new why) }
        ensures err { OnErr result (self.new ≡ self.old) }
        ensures memory { OnErr result (MayLackMemory setting.now self.old (events.Learn client)) }
    {
        let c = match self.up(client) {
            Ok(c) => c,
            Err(why) => return Ok(Some(why)),
        };
        let Some(entry) = self.chosen_next(alloc, setting, c)? else {
            return Ok(Some(Why::Chosen));
        };
        if !c.links(setting, &entry) {
            return Ok(Some(Why::Chosen));
        }
        self.clients[client.0 as usize].learn(entry)?;
        Ok(None)
    }

    /// What the client may offer for its bid, by what it has read of its voters.
    fn ruling(
        &self,
        alloc: Global,
        setting: &Setting,
        client: ClientId,
        c: &Client,
        bid: &Bidding,
    ) -> Result<Ruling, NoMemory>
        requires { IsSetting setting.now }
        ensures { IfOk result (IsRuling (known_votes self.now c.now) (voters_of_client setting.now c.now) bid.now.position (ballot_of_round client.0 bid.now.round) bid.now.want) }
    {
        let plan = c.plan(setting);
        let fronts = self.known_fronts(alloc, c, plan.rows())?;
        let ballot = Ballot {
            round: bid.round,
            client,
        };
        Ok(rule(&fronts, bid.position, ballot, &bid.want))
    }

    /// The entry that is chosen behind the client's chain, by what it has read of its voters.
    fn chosen_next(
        &self,
        alloc: Global,
        setting: &Setting,
        c: &Client,
    ) -> Result<Option<Entry>, NoMemory>
        requires set { IsSetting setting.now }
        requires position { next_of c.now < 2 ^ 32 }
        ensures some { IfOk result (λ o. IfSome o (ChosenBy (known_votes self.now c.now) (voters_of_client setting.now c.now) (next_of c.now))) }
        ensures none { IfOk result (λ o. o ≡ None → (e : Entry) → ChosenBy (known_votes self.now c.now) (voters_of_client setting.now c.now) (next_of c.now) e → ⊥) }
    {
        let plan = c.plan(setting);
        let fronts = self.known_fronts(alloc, c, plan.rows())?;
        chosen_at(alloc, &fronts, c.next_position())
    }

    /// The entry that is chosen at the position by the services of the plan, by their whole logs.
    pub(crate) fn chosen_under(
        &self,
        alloc: Global,
        plan: &Plan,
        position: u32,
    ) -> Result<Option<Entry>, NoMemory>
        ensures some { IfOk result (λ o. IfSome o (ChosenBy (votes_of_world self.now) (voters_of plan.now) position)) }
        ensures none { IfOk result (λ o. o ≡ None → (e : Entry) → ChosenBy (votes_of_world self.now) (voters_of plan.now) position e → ⊥) }
    {
        let fronts = self.whole_fronts(alloc, plan.rows())?;
        chosen_at(alloc, &fronts, position)
    }

    /// Of each voter's log, the front that the client knows.
    fn known_fronts(
        &self,
        alloc: Global,
        c: &Client,
        voters: &[PlanRow],
    ) -> Result<Vec<Front<'_>>, NoMemory>
        ensures { IfOk result (λ fronts. AreFronts (known_votes self.now c.now) (services_of voters.now) fronts.items) }
    {
        let mut fronts = Vec::new(alloc);
        for i in 0..voters.len() {
            let row = voter(voters, i);
            fronts.push(self.known_front(c, row))?;
        }
        Ok(fronts)
    }

    /// The whole log of each voter.
    fn whole_fronts(&self, alloc: Global, voters: &[PlanRow]) -> Result<Vec<Front<'_>>, NoMemory>
        ensures { IfOk result (λ fronts. AreFronts (votes_of_world self.now) (services_of voters.now) fronts.items) }
    {
        let mut fronts = Vec::new(alloc);
        for i in 0..voters.len() {
            let row = voter(voters, i);
            fronts.push(self.whole_front(row))?;
        }
        Ok(fronts)
    }

    /// The front of a voter's log that the client knows; empty where there is no such service.
    fn known_front(&self, c: &Client, row: &PlanRow) -> Front<'_>
        ensures { result ≡ take (slice_index_or c.now.known row.now.service.0 0) (log_of self.now row.now.service.0) }
    {
        let service = row.service.0 as usize;
        match self.logs.get(service) {
            Some(log) => log.front(c.known_of(service)),
            None => Front::new(&[]),
        }
    }

    /// The log of a voter; empty where there is no such service.
    fn whole_front(&self, row: &PlanRow) -> Front<'_>
        ensures { result ≡ log_of self.now row.now.service.0 }
    {
        match self.logs.get(row.service.0 as usize) {
            Some(log) => Front::new(log.as_slice()),
            None => Front::new(&[]),
        }
    }

    /// Makes an offer: it is declared, and each voter is asked to accept it.
    fn make_offer(
        &mut self,
        alloc: Global,
        setting: &Setting,
        client: ClientId,
        bid: &Bidding,
        entry: &Entry,
    ) -> Result<(), NoMemory>
        requires set { IsSetting setting.now }
        requires there { client.0 < length self.old.clients }
        ensures ok { (c : ClientView) → slice_get self.old.clients client.0 ≡ Some c
            → OnOk result (self.new ≡ offer_made setting.now self.old client.0 c bid.now entry.now) }
        ensures err { OnErr result (self.new ≡ self.old) }
    {
        let before = self.requests.len();
        let offer = Record::Accept {
            position: bid.position,
            ballot: Ballot {
                round: bid.round,
                client,
            },
            entry: *entry,
        };
        let place = client.0 as usize;
        let plan = self.clients[place].plan(setting);
        self.send(alloc, plan.rows(), &offer)?;
        match self.clients[place].declare(bid, &offer) {
            Ok(()) => Ok(()),
            Err(error) => {
                self.requests.truncate(before);
                Err(error)
            }
        }
    }
}
