//! What the vote lists of some services show at one position.

ghost use Rattle.std.specs.Prelude.{◌≡◌, ◌≤◌, ◌<◌, Some, set, length, IfOk, OnOk, OnErr};
ghost use Rattle.std.specs.List.{insert};
ghost use Rattle.std.specs.List.Sorted.{IsPermutation};
ghost use Rattle.ms_replay.specs.Tallies.{AreSorted, top_of};
ghost use Rattle.ms_replay.specs.Places.{IsPutIn, blank, lowered, without_vote};
ghost use Rattle.ms_replay.specs.declared.place.Filing.TheVariants.{InOrder};

use crate::voted::Voted;
use ms_base::NoMemory;
use ms_record::Ballot;
use std::alloc::Global;
use std::marker::Model;

/// What the lists show at one position: of each service the greatest ballot, and the votes that were taken.
#[derive(Drop)]
pub(crate) struct Place {
    tops: Vec<Option<Ballot>>,
    votes: Vec<Voted>,
}

impl Model for Place {
    ghost use Rattle.ms_replay.specs.Tallies.{PlaceView};

    ghost Value = { PlaceView };

    ghost view = { λ p. record { tops = p.tops.items; votes = p.votes.items } };
}

/// Where a vote goes among those of its position.
#[derive(Clone, Copy)]
pub(crate) enum Filing {
    /// To its place in the order.
    InOrder,
    /// Behind the others, until all are sorted.
    Behind,
}

/// What a record put at a position.
#[derive(Clone, Copy)]
pub(crate) struct Put {
    pub position: u32,
    /// It was the first record of the position.
    pub begun: bool,
    /// The greatest ballot of the service before.
    pub before: Option<Ballot>,
    /// Where its vote stands, if it has one.
    pub vote: Option<usize>,
}

impl Place {
    /// Of so many services nothing was read.
    pub(crate) fn new(alloc: Global, services: u32) -> Result<Place, NoMemory>
        ensures { IfOk result (λ p. p ≡ blank services) }
    {
        let mut tops = Vec::new(alloc);
        tops.resize(services as usize, None)?;
        Ok(Place {
            tops,
            votes: Vec::new(alloc),
        })
    }

    pub(crate) fn votes(&self) -> &[Voted]
        ensures { result.now ≡ self.now.votes }
    {
        self.votes.as_slice()
    }

    /// The greatest ballot of a service.
    pub(crate) fn top(&self, service: u32) -> Option<Ballot>
        requires { service < length self.now.tops }
        ensures { result ≡ top_of self.now service }
    {
        self.tops[service as usize]
    }

    /// Raises the ballot of a service and puts in the vote, where there is one. Refused, it changes nothing.
    pub(crate) fn put(
        &mut self,
        service: u32,
        ballot: Ballot,
        vote: Option<Voted>,
        filing: Filing,
    ) -> Result<Option<usize>, NoMemory>
        requires { service < length self.old.tops }
        ensures tops { OnOk result (self.new.tops ≡ set self.old.tops service (Some ballot)) }
        ensures votes { IfOk result (λ at. IsPutIn vote at self.old.votes self.new.votes) }
        ensures sorted { filing ≡ InOrder → AreSorted self.old.votes → AreSorted self.new.votes }
        ensures err { OnErr result (self.new ≡ self.old) }
    {
        let at = put_in(&mut self.votes, vote, filing)?;
        self.tops[service as usize] = Some(ballot);
        Ok(at)
    }

    /// Takes back what was put last.
    pub(crate) fn take_back(&mut self, service: u32, put: &Put)
        ensures { self.new ≡ lowered service put.now self.old }
    {
        take_out(&mut self.votes, put.vote);
        if let Some(top) = self.tops.get_mut(service as usize) {
            *top = put.before;
        }
    }

    /// Brings the votes in order.
    pub(crate) fn sort(&mut self)
        ensures tops { self.new.tops ≡ self.old.tops }
        ensures votes { IsPermutation self.old.votes self.new.votes }
        ensures sorted { AreSorted self.new.votes }
    {
        self.votes.sort_unstable_by(|v, w| v.order(w));
    }
}

/// Puts in a vote, where there is one, and answers where.
fn put_in(
    votes: &mut Vec<Voted>,
    vote: Option<Voted>,
    filing: Filing,
) -> Result<Option<usize>, NoMemory>
    ensures ok { IfOk result (λ at. IsPutIn vote at votes.old.items votes.new.items) }
    ensures sorted { filing ≡ InOrder → AreSorted votes.old.items → AreSorted votes.new.items }
    ensures err { OnErr result (votes.new.items ≡ votes.old.items) }
{
    let Some(vote) = vote else {
        return Ok(None);
    };
    let at = place_of(votes.as_slice(), &vote, filing);
    votes.insert(at, vote)?;
    Ok(Some(at))
}

/// Where a vote goes among these.
fn place_of(votes: &[Voted], vote: &Voted, filing: Filing) -> usize
    ensures within { result ≤ length votes.now }
    ensures sorted { filing ≡ InOrder → AreSorted votes.now → AreSorted (insert votes.now result vote.now) }
{
    match filing {
        Filing::InOrder => votes.partition_point(|v| v.order(vote).is_lt()),
        Filing::Behind => votes.len(),
    }
}

/// Takes out the vote that stands there.
fn take_out(votes: &mut Vec<Voted>, at: Option<usize>)
    ensures { votes.new.items ≡ without_vote at votes.old.items }
{
    if let Some(at) = at {
        if at < votes.len() {
            votes.remove(at);
        }
    }
}
