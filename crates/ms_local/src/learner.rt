//! What a bid needs of a chain.

ghost use Rattle.std.specs.Prelude.{◌≡◌, ◌<◌, ◌≤◌, ℕ, Contains, length};
ghost use Rattle.ms_base.specs.declared.limits.TheConstants.{LAST_NUMBER};
ghost use Rattle.ms_record.specs.Chains.{voters_behind};
ghost use Rattle.ms_record.specs.Settings.{origin_of};
ghost use Rattle.ms_local.specs.Desks.{IsDesk, desk_view};
ghost use Rattle.ms_local.specs.Learning.{ChainView, Adds, ChainGrows, DeskLearns, IsOfDesk, Learns, ReadsSome};

use crate::desk::Desk;
use crate::outside::{Keeper, Work};
use ms_base::NoMemory;
use ms_core::FoldClosed;
use ms_link::Link;
use ms_record::{Entry, Refusal, ServiceSet};
use std::alloc::Global;

/// What was learnt: the end of the chain, and the greatest position with a taken Accept in the lists that the chain has read, 0
/// without one.
#[derive(Clone, Copy)]
pub struct Learnt {
    pub end: u32,
    pub seen: u32,
}

/// A chain that can be learnt on from a desk, and takes what was decided.
pub trait Learner<W: Work, K: Keeper, L: Link<FoldClosed>> {
    ghost sees: { Self → ChainView };

    /// Reads each vote list once from where it left off, in the order of the services, by the links of the first lane; the chain
    /// gains each entry that is chosen at its next position, by what it has read, and links on.
    ///
    /// `NoMajority` has all services that failed: at a position up to the one behind the end they are half of its voters or more.
    /// `Split`, judged after it, names two entries that are chosen at one position, by the lists that were read.
    fn learn(&mut self, alloc: Global, desk: &mut Desk<W, K, L>) -> Result<Learnt, Refusal>
        requires desk { IsDesk (desk_view W.sees K.sees L.sees desk.old) }
        requires chain { IsOfDesk (sees self.old) (desk_view W.sees K.sees L.sees desk.old) }
        ensures learns { Learns (sees self.old) (sees self.new) (desk_view W.sees K.sees L.sees desk.old) (desk_view W.sees K.sees L.sees desk.new) result }
        ensures reads { ReadsSome (sees self.old) (sees self.new) (desk_view W.sees K.sees L.sees desk.old) (desk_view W.sees K.sees L.sees desk.new) }
        ensures grows { ChainGrows (sees self.old) (sees self.new) }
        ensures effect { DeskLearns (desk_view W.sees K.sees L.sees desk.old) (desk_view W.sees K.sees L.sees desk.new) }
        ensures desk { IsDesk (desk_view W.sees K.sees L.sees desk.new) }
        ensures chain { IsOfDesk (sees self.new) (desk_view W.sees K.sees L.sees desk.new) };

    /// Puts an entry that was decided behind the end at the end of the chain, where it links on; whether it does.
    fn add(&mut self, decided: &Entry) -> Result<bool, NoMemory>
        requires room { length (sees self.old).members < LAST_NUMBER }
        ensures { Adds (sees self.old) (sees self.new) decided.now result };

    /// The position of the last member; 0 is the genesis.
    fn end(&self) -> u32
        ensures { result ≡ length (sees self.now).members };

    /// The voters of the position behind the end.
    fn voters(&self) -> ServiceSet
        ensures are { result ≡ voters_behind (origin_of (sees self.now).setting) (sees self.now).members }
        ensures some { 1 ≤ length result }
        ensures below { (s : ℕ) → Contains result s → s < (sees self.now).setting.services };
}
