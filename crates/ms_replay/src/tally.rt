//! The tally of the vote lists of all services.

ghost use Rattle.std.specs.Prelude.{◌≡◌, ◌≤◌, ◌<◌, ℕ, List, [], Contains, IfOk, OnOk, OnErr, length};
ghost use Rattle.ms_record.specs.declared.record.Record.{Record};
ghost use Rattle.ms_record.specs.Reading.{record_at, votes_of, with_record};
ghost use Rattle.ms_record.specs.Votes.{services_below};
ghost use Rattle.ms_replay.specs.Standings.{IsStanding};
ghost use Rattle.ms_replay.specs.Winners.{AreHere, StandsBeside};

use crate::place::Filing;
use crate::places::{Places, voted_at};
use crate::standing::{Standing, first_chosen, greatest_vote};
use crate::voted::Voted;
use ms_base::{Bytes, Items, NoMemory, ServiceId};
use ms_record::{Entry, ServiceSet};
use std::alloc::Global;
use std::marker::Model;

/// What the vote lists of some services show, by the positions.
#[derive(Drop)]
pub struct Tally {
    alloc: Global,
    /// Their votes are in order.
    places: Places,
}

impl Model for Tally {
    ghost use Rattle.ms_replay.specs.Tallies.{TallyView};

    ghost Value = { TallyView };

    ghost use Rattle.ms_replay.specs.TallyInside.{view_of, IsKept};

    ghost view = { view_of };

    ghost invariant = { IsKept };
}

impl Tally {
    ghost use Rattle.ms_replay.specs.Tallies.{IsTallyOf, IsVotedAt, goes_on};
    ghost use Rattle.ms_replay.specs.Audits.{lists_of};

    /// The tally of so many services, of whose lists nothing was read.
    pub fn new(alloc: Global, services: u32) -> Result<Tally, NoMemory>
        ensures services { IfOk result (λ t. t.services ≡ services) }
        ensures start { IfOk result (IsTallyOf (λ s. [])) }
    {
        Ok(Tally {
            alloc,
            places: Places::new(alloc, services),
        })
    }

    /// The tally of these lists, of services by their numbers.
    pub fn of_lists(alloc: Global, services: u32, lists: &[Items<Bytes>]) -> Result<Tally, NoMemory>
        requires { length lists.now ≡ services }
        ensures services { IfOk result (λ t. t.services ≡ services) }
        ensures read { IfOk result (IsTallyOf (lists_of lists.now)) }
    {
        let mut places = Places::new(alloc, services);
        for service in 0..services {
            places.put_behind(service, lists[service as usize].as_slice())?;
        }
        places.sort();
        Ok(Tally { alloc, places })
    }

    /// How many services there are.
    pub fn services(&self) -> u32
        ensures { result ≡ self.now.services }
    {
        self.places.services()
    }

    /// The list of that service goes on by a text; one that is no record is skipped. Answers the position at which an
    /// Accept was taken by it, if one was. Refused, it changes nothing.
    pub fn add(&mut self, service: ServiceId, text: &[u8]) -> Result<Option<u32>, NoMemory>
        requires { service.0 < self.old.services }
        // What has read these lists has then read those, with the record of the text behind this one.
        ensures ok { (lists : ℕ → List Record) → IsTallyOf lists self.old
            → OnOk result (IsTallyOf (goes_on lists service.0 (with_record (record_at text.now) [])) self.new) }
        ensures voted { (lists : ℕ → List Record) → IsTallyOf lists self.old
            → IfOk result (IsVotedAt (lists service.0) (record_at text.now)) }
        ensures services { self.new.services ≡ self.old.services }
        ensures err { OnErr result (self.new ≡ self.old) }
    {
        let put = self.places.put(service.0, text, Filing::InOrder)?;
        Ok(voted_at(&put))
    }

    /// The list of that service goes on by these texts. Refused, it changes nothing.
    pub fn add_list(&mut self, service: ServiceId, more: &[Bytes]) -> Result<(), NoMemory>
        requires { service.0 < self.old.services }
        // What has read these lists has then read those, with more of this one.
        ensures ok { (lists : ℕ → List Record) → IsTallyOf lists self.old → OnOk result (IsTallyOf (goes_on lists service.0 (votes_of more.now)) self.new) }
        ensures services { self.new.services ≡ self.old.services }
        ensures err { OnErr result (self.new ≡ self.old) }
    {
        let mut done = Vec::with_capacity(self.alloc, more.len())?;
        if self.places.put_all(service.0, more, &mut done).is_err() {
            self.places.take_all_back(service.0, done);
            return Err(NoMemory);
        }
        Ok(())
    }

    /// What the lists that were read show at the position, where these services vote there.
    pub fn chosen(&self, position: u32, voters: &ServiceSet) -> Standing
        requires some { 1 ≤ length voters.now }
        requires known { (s : ℕ) → Contains voters.now s → s < self.now.services }
        ensures { (lists : ℕ → List Record) → IsTallyOf lists self.now → IsStanding lists (services_below self.now.services) voters.now position result }
    {
        let here = self.places.votes_at(position);
        match first_chosen(here, voters, position, &None) {
            Some(first) => chosen_beside(here, voters, position, &first),
            None => match greatest_vote(here, position) {
                Some(vote) => Standing::Seen { vote },
                None => Standing::Unseen,
            },
        }
    }
}

/// Whether another entry is chosen beside the first.
fn chosen_beside(here: &[Voted], voters: &ServiceSet, position: u32, first: &Entry) -> Standing
    requires { AreHere position here.now }
    ensures { StandsBeside here.now voters.now position first.now result }
{
    let given = Some(*first);
    match first_chosen(here, voters, position, &given) {
        Some(second) => Standing::Split {
            first: *first,
            second,
        },
        None => Standing::Chosen { entry: *first },
    }
}
