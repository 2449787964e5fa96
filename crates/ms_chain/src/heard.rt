//! What was read of the vote lists.

ghost use Rattle.std.specs.Prelude.{◌≡◌, ◌<◌, ◌≤◌, [], ℕ, Contains, IfOk, OnOk, OnErr, Some, length, map, replicate, slice_get, slice_index_or};
ghost use Rattle.ms_chain.specs.Heard.{IsGreatestSeen, heard_more};
ghost use Rattle.ms_record.specs.declared.record.Record.{Record};
ghost use Rattle.ms_record.specs.Reading.{record_at};
ghost use Rattle.ms_record.specs.Records.{IsPosition};
ghost use Rattle.ms_record.specs.Votes.{position_of, services_below};
ghost use Rattle.ms_replay.specs.Audits.{lists_of};
ghost use Rattle.ms_replay.specs.Standings.{IsStanding};
ghost use Rattle.ms_replay.specs.Tallies.{IsVotedAt};

use ms_base::{Bytes, NoMemory, ServiceId};
use ms_record::ServiceSet;
use ms_replay::{Standing, Tally};
use std::alloc::Global;
use std::marker::Model;

/// The texts that were read of each vote list, by the numbers of the services, and what they show.
#[derive(Drop)]
pub struct Heard {
    lists: Vec<Vec<Bytes>>,
    tally: Tally,
    /// The greatest position with a taken Accept, 0 without one.
    seen: u32,
}

impl Model for Heard {
    ghost use Rattle.std.specs.Prelude.{ℕ, List};

    ghost Value = { List (List (List ℕ)) };

    ghost use Rattle.ms_chain.specs.HeardInside.{view_of, IsKept};

    ghost view = { view_of };

    ghost invariant = { IsKept };
}

impl Heard {
    /// Nothing of the lists of so many services.
    pub fn new(alloc: Global, services: u32) -> Result<Heard, NoMemory>
        ensures { IfOk result (λ h. h ≡ replicate services []) }
    {
        Ok(Heard {
            lists: no_texts(alloc, services)?,
            tally: Tally::new(alloc, services)?,
            seen: 0,
        })
    }

    /// How many texts were read of the service's list.
    pub fn count(&self, service: ServiceId) -> u64
        requires { service.0 < length self.now }
        ensures { result ≡ length (slice_index_or self.now service.0 []) }
    {
        self.lists[service.0 as usize].len() as u64
    }

    /// The service's list goes on by a text. Answers the position at which an Accept was taken by it, if one was. Refused, it
    /// changes nothing.
    pub fn take(&mut self, service: ServiceId, text: Bytes) -> Result<Option<u32>, NoMemory>
        requires { service.0 < length self.old }
        ensures ok { OnOk result (self.new ≡ heard_more self.old service.0 text) }
        ensures voted { IfOk result (IsVotedAt (lists_of self.old service.0) (record_at text)) }
        ensures err { OnErr result (self.new ≡ self.old) }
    {
        let list = &mut self.lists[service.0 as usize];
        list.reserve(1)?;
        let voted = self.tally.add(service, text.as_slice())?;
        list.push_reserved(text);
        self.seen = self.seen.max(voted.unwrap_or(0));
        Ok(voted)
    }

    /// What the lists show at the position, where these services vote there.
    pub fn standing(&self, position: u32, voters: &ServiceSet) -> Standing
        requires some { 1 ≤ length voters.now }
        requires below { (s : ℕ) → Contains voters.now s → s < length self.now }
        ensures { IsStanding (lists_of self.now) (services_below (length self.now)) voters.now position result }
    {
        self.tally.chosen(position, voters)
    }

    /// Each record that was read has a position in its range. It does nothing.
    pub fn shows_positions(&self)
        ensures { (s place : ℕ) (r : Record) → slice_get (lists_of self.now s) place ≡ Some r → IsPosition (position_of r) }
    {
        let _seen = self.seen;
    }

    /// The greatest position with a taken Accept, 0 without one.
    pub fn seen(&self) -> u32
        ensures { IsGreatestSeen (lists_of self.now) result }
    {
        self.seen
    }
}

/// So many lists without a text.
fn no_texts(alloc: Global, services: u32) -> Result<Vec<Vec<Bytes>>, NoMemory>
    ensures { IfOk result (λ lists. map (λ list. list.items) lists.items ≡ replicate services []) }
{
    let mut lists = Vec::new(alloc);
    for _service in 0..services {
        lists.push(Vec::new(alloc))?;
    }
    Ok(lists)
}
