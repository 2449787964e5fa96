//! One bid as a machine.

ghost use Rattle.std.specs.Prelude.{◌≡◌, ℕ, ◌<◌, ◌≤◌, ◌↔◌, Some, Contains, IsTrue, IsOk, OnOk, OnErr, length};
ghost use Rattle.ms_record.specs.declared.entry.Entry.{Entry};
ghost use Rattle.ms_record.specs.Records.{IsPosition};
ghost use Rattle.ms_record.specs.Settings.{IsSetting};
ghost use Rattle.ms_bid.specs.Bids.{IsBid, IsFresh, fits, noted, MayFault, acts_left, ballot_of_round};
ghost use Rattle.ms_bid.specs.Truths.{IsOfferJustified, IsDecidedTaken};

use crate::act::{Act, Answer, WrongAnswer};
use crate::bid::Bid;
use crate::flags::Flags;
use crate::sight::Sights;
use ms_base::ClientId;
use ms_record::{Ballot, Entry, ServiceSet, Setting};
use std::marker::Model;

/// One bid for a position, as a machine: `next` says what is to be done, and `take` takes what came of it.
///
/// It keeps the round, sends its Prepare to each voter, looks at each voter's list, declares its offer, sends the Accept
/// to each voter and looks again; to a contract it is its `Bid`.
#[derive(Drop)]
pub struct Proposer {
    bid: Bid,
}

impl Model for Proposer {
    ghost use Rattle.ms_bid.specs.declared.bid.Bid.{Bid};
    ghost use Rattle.ms_bid.specs.Bids.{IsBid};

    ghost Value = { Bid };

    ghost view = { λ p. p.bid };

    ghost invariant = { λ p. IsBid p.bid };
}

impl Proposer {
    /// A bid of the client in this round, for the position at which these vote. Without an entry of its own it settles
    /// what others left.
    pub fn new(
        setting: &Setting,
        voters: &ServiceSet,
        client: ClientId,
        position: u32,
        round: u32,
        want: Option<Entry>,
    ) -> Proposer
        requires setting { IsSetting setting.now }
        requires some_voters { 1 ≤ length voters.now }
        requires voters_below { (s : ℕ) → Contains voters.now s → s < setting.now.services }
        requires client_below { client.0 < setting.now.clients }
        requires position { IsPosition position }
        requires some_round { 1 ≤ round }
        requires last_round { round ≤ 4294967294 }
        requires own { (e : Entry) → want ≡ Some e → e.client ≡ client }
        ensures fresh { IsFresh voters.now position (ballot_of_round round client) want result }
    {
        let bid = Bid {
            ballot: Ballot { round, client },
            position,
            voters: *voters,
            want,
            act: Act::Keep { round },
            offer: None,
            sent: Flags::none(),
            failed: Flags::none(),
            first_looks: Sights::none(),
            second_looks: Sights::none(),
        };
        Proposer { bid }
    }

    /// What is to be done next.
    pub fn next(&self) -> Act
        ensures act { result ≡ self.now.act }
        ensures bid { IsBid self.now }
        // By all lists of which the answers are the sights.
        ensures justified { IsOfferJustified self.now }
        ensures decided { IsDecidedTaken self.now }
    {
        let bid = &self.bid;
        bid.act
    }

    /// Takes the answer to what is pending.
    pub fn take(&mut self, answer: Answer) -> Result<(), WrongAnswer>
        // An answer to another act changes nothing.
        ensures ok { IsOk result ↔ IsTrue (fits self.old.act answer) }
        ensures err { OnErr result (self.new ≡ self.old) }
        ensures noted { OnOk result (self.new ≡ record (noted self.old self.old.act answer) { act = self.new.act }) }
        ensures bid { IsBid self.new }
        // The bid comes to its end.
        ensures left { OnOk result (acts_left self.new < acts_left self.old) }
        ensures fault { OnOk result (MayFault self.old.act answer self.new.act) }
    {
        self.bid.take(answer)
    }
}
