//! What the vote lists of some services show, position by position.

ghost use Rattle.std.specs.Prelude.{◌≡◌, ◌<◌, ℕ, List, ◌∷◌, [], Some, None, IfOk, OnOk, OnErr, IsSome};
ghost use Rattle.ms_record.specs.declared.record.Record.{Record};
ghost use Rattle.ms_record.specs.Reading.{record_at, votes_of, with_record};
ghost use Rattle.ms_record.specs.Records.{IsRecord, record_text};
ghost use Rattle.ms_replay.specs.Tallies.{IsTallyOf, IsVotedAt, found_at, goes_on, place_at, top_of};
ghost use Rattle.ms_replay.specs.Places.{AreInOrder, AreKept, IsPutAt, IsVoteAt, IsVoteOf, maybe_taken_back, taken_back, voted_of};
ghost use Rattle.ms_replay.specs.declared.place.Filing.TheVariants.{InOrder};

use crate::place::{Filing, Place, Put};
use crate::voted::Voted;
use ms_base::{Bytes, NoMemory};
use ms_record::{Ballot, Record, is_outbid, parse_record};
use std::alloc::Global;
use std::collections::BTreeMap;
use std::marker::Model;

/// What the lists show at each position of which they have records.
#[derive(Drop)]
pub(crate) struct Places {
    alloc: Global,
    services: u32,
    places: BTreeMap<u32, Place>,
}

impl Model for Places {
    ghost use Rattle.ms_replay.specs.Tallies.{TallyView};

    ghost Value = { TallyView };

    ghost view = { λ t. record { services = t.services; places = t.places.entries } };
}

impl Places {
    /// Of so many services nothing was read.
    pub(crate) fn new(alloc: Global, services: u32) -> Places
        ensures services { result.services ≡ services }
        ensures empty { result.places ≡ [] }
    {
        Places {
            alloc,
            services,
            places: BTreeMap::new(alloc),
        }
    }

    /// How many services there are.
    pub(crate) fn services(&self) -> u32
        ensures { result ≡ self.now.services }
    {
        self.services
    }

    /// The votes of a position.
    pub(crate) fn votes_at(&self, position: u32) -> &[Voted]
        ensures { result.now ≡ (place_at self.now.places position).votes }
    {
        match self.places.get(&position) {
            Some(place) => place.votes(),
            None => &[],
        }
    }

    /// The greatest ballot of a service at a position.
    fn top(&self, position: u32, service: u32) -> Option<Ballot>
        requires kept { AreKept self.now }
        requires within { service < self.now.services }
        ensures { result ≡ top_of (place_at self.now.places position) service }
    {
        self.places.get(&position)?.top(service)
    }

    /// The list of a service goes on by a text; one that is no record is skipped. Refused, it changes nothing.
    pub(crate) fn put(
        &mut self,
        service: u32,
        text: &[u8],
        filing: Filing,
    ) -> Result<Option<Put>, NoMemory>
        requires kept { AreKept self.old }
        requires within { service < self.old.services }
        ensures read { (lists : ℕ → List Record) → IsTallyOf lists self.old
            → OnOk result (IsTallyOf (goes_on lists service (with_record (record_at text.now) [])) self.new) }
        ensures voted { (lists : ℕ → List Record) → IsTallyOf lists self.old
            → IfOk result (λ put. IsVotedAt (lists service) (record_at text.now) (voted_of put)) }
        ensures back { IfOk result (λ put. maybe_taken_back service put self.new.places ≡ self.old.places) }
        ensures services { self.new.services ≡ self.old.services }
        ensures keeps { AreKept self.new }
        ensures order { filing ≡ InOrder → AreInOrder self.old → AreInOrder self.new }
        ensures err { OnErr result (self.new ≡ self.old) }
    {
        match parse_record(text) {
            Some(message) => self.put_record(service, &message, text, filing),
            None => Ok(None),
        }
    }

    /// Goes on by a record of a service: raises its greatest ballot at the position, and takes an Accept that counts.
    fn put_record(
        &mut self,
        service: u32,
        message: &Record,
        text: &[u8],
        filing: Filing,
    ) -> Result<Option<Put>, NoMemory>
        requires kept { AreKept self.old }
        requires within { service < self.old.services }
        requires ranges { IsRecord message.now }
        requires spells { text.now ≡ record_text message.now }
        requires reads { record_at text.now ≡ Some message.now }
        ensures read { (lists : ℕ → List Record) → IsTallyOf lists self.old → OnOk result (IsTallyOf (goes_on lists service (message.now ∷ [])) self.new) }
        ensures voted { (lists : ℕ → List Record) → IsTallyOf lists self.old
            → IfOk result (λ put. IsVotedAt (lists service) (Some message.now) (voted_of put)) }
        ensures back { IfOk result (λ put. maybe_taken_back service put self.new.places ≡ self.old.places) }
        ensures services { self.new.services ≡ self.old.services }
        ensures keeps { AreKept self.new }
        ensures order { filing ≡ InOrder → AreInOrder self.old → AreInOrder self.new }
        ensures err { OnErr result (self.new ≡ self.old) }
    {
        let position = message.position();
        let ballot = message.ballot();
        if is_outbid(ballot, self.top(position, service)) {
            return Ok(None);
        }
        let vote = vote_of(self.alloc, service, message, text)?;
        let put = self.write(service, position, ballot, vote, filing)?;
        Ok(Some(put))
    }

    /// Raises the ballot of a service at a position, and puts in the vote, where there is one. Refused, it changes nothing.
    fn write(
        &mut self,
        service: u32,
        position: u32,
        ballot: Ballot,
        vote: Option<Voted>,
        filing: Filing,
    ) -> Result<Put, NoMemory>
        requires kept { AreKept self.old }
        requires within { service < self.old.services }
        requires vote { IsVoteAt self.old.services position vote }
        ensures writes { IfOk result (λ put. IsPutAt service position ballot vote put.vote self.old.places self.new.places) }
        ensures position { IfOk result (λ put. put.position ≡ position) }
        ensures back { IfOk result (λ put. taken_back service put self.new.places ≡ self.old.places) }
        ensures services { self.new.services ≡ self.old.services }
        ensures keeps { AreKept self.new }
        ensures order { filing ≡ InOrder → AreInOrder self.old → AreInOrder self.new }
        ensures err { OnErr result (self.new ≡ self.old) }
    {
        if self.places.contains_key(&position) {
            self.raise(service, position, ballot, vote, filing)
        } else {
            self.begin(service, position, ballot, vote)
        }
    }

    /// The first record of a position. Its place is made whole before it is put there.
    fn begin(
        &mut self,
        service: u32,
        position: u32,
        ballot: Ballot,
        vote: Option<Voted>,
    ) -> Result<Put, NoMemory>
        requires kept { AreKept self.old }
        requires within { service < self.old.services }
        requires vote { IsVoteAt self.old.services position vote }
        requires absent { found_at self.old.places position ≡ None }
        ensures writes { IfOk result (λ put. IsPutAt service position ballot vote put.vote self.old.places self.new.places) }
        ensures position { IfOk result (λ put. put.position ≡ position) }
        ensures back { IfOk result (λ put. taken_back service put self.new.places ≡ self.old.places) }
        ensures services { self.new.services ≡ self.old.services }
        ensures keeps { AreKept self.new }
        ensures order { AreInOrder self.old → AreInOrder self.new }
        ensures err { OnErr result (self.new ≡ self.old) }
    {
        let mut place = Place::new(self.alloc, self.services)?;
        let vote = place.put(service, ballot, vote, Filing::InOrder)?;
        self.places.insert(position, place)?;
        Ok(Put {
            position,
            begun: true,
            before: None,
            vote,
        })
    }

    /// A later record of a position.
    fn raise(
        &mut self,
        service: u32,
        position: u32,
        ballot: Ballot,
        vote: Option<Voted>,
        filing: Filing,
    ) -> Result<Put, NoMemory>
        requires kept { AreKept self.old }
        requires within { service < self.old.services }
        requires vote { IsVoteAt self.old.services position vote }
        requires present { IsSome (found_at self.old.places position) }
        ensures writes { IfOk result (λ put. IsPutAt service position ballot vote put.vote self.old.places self.new.places) }
        ensures position { IfOk result (λ put. put.position ≡ position) }
        ensures back { IfOk result (λ put. taken_back service put self.new.places ≡ self.old.places) }
        ensures services { self.new.services ≡ self.old.services }
        ensures keeps { AreKept self.new }
        ensures order { filing ≡ InOrder → AreInOrder self.old → AreInOrder self.new }
        ensures err { OnErr result (self.new ≡ self.old) }
    {
        let Some(place) = self.places.get_mut(&position) else {
            unreachable!()
        };
        let before = place.top(service);
        let vote = place.put(service, ballot, vote, filing)?;
        Ok(Put {
            position,
            begun: false,
            before,
            vote,
        })
    }

    /// Brings the votes of each position in order.
    pub(crate) fn sort(&mut self)
        ensures services { self.new.services ≡ self.old.services }
        ensures read { (lists : ℕ → List Record) → IsTallyOf lists self.old → IsTallyOf lists self.new }
        ensures keeps { AreKept self.old → AreKept self.new }
        ensures order { AreInOrder self.new }
    {
        self.places.retain(|_position, place| {
            place.sort();
            true
        });
    }

    /// Takes back what was put last.
    pub(crate) fn take_back(&mut self, service: u32, put: &Option<Put>)
        ensures places { self.new.places ≡ maybe_taken_back service put.now self.old.places }
        ensures services { self.new.services ≡ self.old.services }
    {
        let Some(put) = put else {
            return;
        };
        if put.begun {
            self.places.remove(&put.position);
        } else if let Some(place) = self.places.get_mut(&put.position) {
            place.take_back(service, put);
        }
    }
}

/// The vote of an Accept; none of a Prepare.
fn vote_of(
    alloc: Global,
    service: u32,
    message: &Record,
    text: &[u8],
) -> Result<Option<Voted>, NoMemory>
    ensures { IfOk result (IsVoteOf service text.now message.now) }
{
    match message {
        Record::Prepare { .. } => Ok(None),
        Record::Accept {
            position,
            ballot,
            ..
        } => Ok(Some(Voted {
            position: *position,
            ballot: *ballot,
            text: Bytes::of(alloc, text)?,
            service,
        })),
    }
}

/// Where a vote was taken, if one was.
pub(crate) fn voted_at(put: &Option<Put>) -> Option<u32>
    ensures { result ≡ voted_of put.now }
{
    let put = put.as_ref()?;
    put.vote?;
    Some(put.position)
}
