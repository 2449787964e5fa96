//! What a world keeps of a client and of a request.

ghost use Rattle.std.specs.Prelude.{◌≡◌, ◌^◌, ◌<◌, ◌++◌, ◌∷◌, [], slice_index_or, slice_set, true, false, Some, None, IfSome, IfNone, OnOk, OnErr};
ghost use Rattle.ms_world.specs.declared.client.Bidding.{Bidding};
ghost use Rattle.ms_world.specs.Steps.{with_bid};
ghost use Rattle.ms_world.specs.Worlds.{new_client, next_of};

use ms_base::NoMemory;
use ms_record::{Entry, Record};
use std::alloc::Global;
use std::marker::Model;

/// A bid for a position, under the ballot of this round.
#[derive(Clone, Copy, Debug, PartialEq, Eq)]
pub struct Bidding {
    pub position: u32,
    pub round: u32,
    /// The bidder's own entry; a settling bid has none.
    pub want: Option<Entry>,
    pub offered: bool,
}

/// A record on its way to a service. It stays for ever, so that it can come late, again or never.
#[derive(Clone, Copy, Debug, PartialEq, Eq)]
pub struct Request {
    pub service: u32,
    pub message: Record,
}

/// A client: on or off, the round that it kept, its declared offers, how much of each log it knows, its chain behind
/// the genesis, and its bid.
#[derive(Drop)]
pub(crate) struct Client {
    pub(crate) on: bool,
    pub(crate) kept: u32,
    pub(crate) offers: Vec<Record>,
    pub(crate) known: Vec<u64>,
    pub(crate) chain: Vec<Entry>,
    pub(crate) bid: Option<Bidding>,
}

impl Model for Client {
    ghost use Rattle.ms_world.specs.Worlds.{ClientView};

    ghost Value = { ClientView };

    ghost view = { λ c. record { on = c.on; kept = c.kept; offers = c.offers.items; known = c.known.items; chain = c.chain.items; bid = c.bid } };
}

impl Client {
    /// A client that never ran.
    pub(crate) fn new(alloc: Global) -> Client
        ensures { result ≡ new_client }
    {
        Client {
            on: false,
            kept: 0,
            offers: Vec::new(alloc),
            known: Vec::new(alloc),
            chain: Vec::new(alloc),
            bid: None,
        }
    }

    /// Goes on with what it kept; `known` is how much of each log it knows.
    pub(crate) fn start(&mut self, alloc: Global, known: Vec<u64>)
        ensures { self.new ≡ record { on = true; kept = self.old.kept; offers = self.old.offers; known = known.items; chain = []; bid = None } }
    {
        self.on = true;
        self.known = known;
        self.chain = Vec::new(alloc);
        self.bid = None;
    }

    pub(crate) fn stop(&mut self)
        ensures { self.new ≡ record self.old { on = false } }
    {
        self.on = false;
    }

    /// How many events of the log of this service it knows.
    pub(crate) fn known_of(&self, service: usize) -> u64
        ensures { result ≡ slice_index_or self.now.known service 0 }
    {
        match self.known.get(service) {
            Some(known) => *known,
            None => 0,
        }
    }

    /// Knows so many events of the log of this service.
    pub(crate) fn read(&mut self, service: usize, upto: u64)
        ensures { self.new ≡ record self.old { known = slice_set self.old.known service upto } }
    {
        if service < self.known.len() {
            self.known[service] = upto;
        }
    }

    /// The position behind its chain.
    pub(crate) fn next_position(&self) -> u32
        requires { next_of self.now < 2 ^ 32 }
        ensures { result ≡ next_of self.now }
    {
        (self.chain.len() + 1) as u32
    }

    /// Bids for the position behind its chain.
    pub(crate) fn begin_bid(&mut self, round: u32, want: Option<Entry>)
        requires { next_of self.old < 2 ^ 32 }
        ensures { self.new ≡ with_bid self.old round want }
    {
        let position = self.next_position();
        self.kept = round;
        self.bid = Some(Bidding {
            position,
            round,
            want,
            offered: false,
        });
    }

    /// Its bid, if it has one that it has not offered for yet.
    pub(crate) fn open_bid(&self) -> Option<Bidding>
        ensures found { IfSome result (λ bid. (self.now.bid ≡ Some bid) × (bid.offered ≡ false)) }
        ensures none { IfNone result ((bid : Bidding) → self.now.bid ≡ Some bid → bid.offered ≡ false → ⊥) }
    {
        let bid = self.bid?;
        if bid.offered {
            return None;
        }
        Some(bid)
    }

    /// Declares the offer of its bid.
    pub(crate) fn declare(&mut self, bid: &Bidding, offer: &Record) -> Result<(), NoMemory>
        ensures ok { OnOk result (self.new ≡ record self.old { offers = self.old.offers ++ offer.now ∷ []; bid = Some (record bid.now { offered = true }) }) }
        ensures err { OnErr result (self.new ≡ self.old) }
    {
        self.offers.push(*offer)?;
        self.bid = Some(Bidding {
            offered: true,
            ..*bid
        });
        Ok(())
    }

    /// The entry is the next member of its chain, and its bid is over.
    pub(crate) fn learn(&mut self, entry: Entry) -> Result<(), NoMemory>
        ensures ok { OnOk result (self.new ≡ record self.old { chain = self.old.chain ++ entry ∷ []; bid = None }) }
        ensures err { OnErr result (self.new ≡ self.old) }
    {
        let plan = entry.plan;
        self.chain.push(Entry { plan, ..entry })?;
        self.bid = None;
        Ok(())
    }
}
