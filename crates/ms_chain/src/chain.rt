//! A chain, what it has read of the vote lists, and what it gains by that.

ghost use Rattle.std.specs.Prelude.{◌≡◌, ◌<◌, ◌≤◌, ◌++◌, ◌∷◌, [], ℕ, Contains, IfNone, IfOk, IfSome, OnOk, OnErr, length, option_copied, replicate, slice_get, take};
ghost use Rattle.ms_base.specs.declared.limits.TheConstants.{LAST_NUMBER};
ghost use Rattle.ms_chain.specs.Heard.{heard_more};
ghost use Rattle.ms_chain.specs.Splits.{AnswersOf, BehindIs, IsNextOf};
ghost use Rattle.ms_chain.specs.declared.split.Next.TheVariants.{Member};
ghost use Rattle.ms_local.specs.Learning.{Adds, ChainGrows, IsWhole, texts_read};
ghost use Rattle.ms_record.specs.Chains.{plan_in, voters_behind};
ghost use Rattle.ms_record.specs.Settings.{IsSetting, genesis_plan, origin_of};

use crate::heard::Heard;
use crate::line::Line;
use crate::split::{Next, Split, judged, next_of, split_at};
use ms_base::{Bytes, NoMemory, ServiceId};
use ms_local::Learnt;
use ms_record::{Entry, Plan, Refusal, ServiceSet, Setting};
use std::alloc::Global;
use std::marker::Model;

/// The members of a chain, and the texts that it has read of each vote list. It judges its positions as it reads: a split that it
/// once found stays known.
#[derive(Drop)]
pub struct Chain {
    line: Line,
    heard: Heard,
    split: Option<Split>,
}

impl Model for Chain {
    ghost use Rattle.ms_local.specs.Learning.{ChainView};

    ghost Value = { ChainView };

    ghost use Rattle.ms_chain.specs.ChainInside.{view_of, IsKept};

    ghost view = { view_of };

    ghost invariant = { IsKept };
}

impl Chain {
    /// The genesis alone; nothing was read.
    pub fn new(alloc: Global, setting: &Setting) -> Result<Chain, NoMemory>
        requires { IsSetting setting.now }
        ensures { IfOk result (λ c. c ≡ record { setting = setting.now; members = []; lists = replicate setting.now.services [] }) }
    {
        Ok(Chain {
            line: Line::new(alloc, setting)?,
            heard: Heard::new(alloc, setting.services)?,
            split: None,
        })
    }

    /// The position of the last member; 0 is the genesis.
    pub fn end(&self) -> u32
        ensures count { result ≡ length self.now.members }
        ensures few { result ≤ LAST_NUMBER }
    {
        self.line.end()
    }

    /// The voters of the position behind the end.
    pub fn voters(&self) -> ServiceSet
        ensures are { result ≡ voters_behind (origin_of self.now.setting) self.now.members }
        ensures some { 1 ≤ length result }
        ensures below { (s : ℕ) → Contains result s → s < self.now.setting.services }
    {
        self.line.voters_behind(self.line.end())
    }

    /// The member at the position, 0 for the genesis; none exactly past the end.
    pub fn entry_at(&self, position: u32) -> Option<&Entry>
        ensures { option_copied result ≡ slice_get (self.now.setting.genesis ∷ self.now.members) position }
    {
        match position {
            0 => Some(&self.line.setting().genesis),
            _ => self.line.member(position - 1),
        }
    }

    /// The plan in force at the position; none exactly past the end.
    pub fn plan_at(&self, position: u32) -> Option<&Plan>
        ensures some { IfSome result (λ p. (position ≤ length self.now.members) × (p.now ≡ plan_in (genesis_plan self.now.setting) (take position self.now.members))) }
        ensures none { IfNone result (length self.now.members < position) }
    {
        if position > self.line.end() {
            return None;
        }
        Some(self.line.plan_behind(position))
    }

    /// Puts an entry that was decided behind the end at the end, where it links on; whether it does. Refused, it changes nothing.
    pub fn add(&mut self, decided: &Entry) -> Result<bool, NoMemory>
        requires { length self.old.members < LAST_NUMBER }
        ensures { Adds self.old self.new decided.now result }
    {
        if !self.line.links(decided) {
            return Ok(false);
        }
        self.line.push(decided)?;
        self.split = match self.split {
            Some(split) => Some(split),
            None => split_at(&self.line, &self.heard, self.line.end()),
        };
        Ok(true)
    }

    /// How many texts were read of the service's vote list.
    pub(crate) fn count(&self, service: ServiceId) -> u64
        requires { service.0 < self.now.setting.services }
        ensures count { result ≡ length (texts_read self.now service.0) }
        ensures many { length self.now.lists ≡ self.now.setting.services }
    {
        self.heard.count(service)
    }

    /// The service's vote list goes on by a text. Refused, it changes nothing.
    pub(crate) fn take_text(&mut self, service: ServiceId, text: Bytes) -> Result<(), NoMemory>
        requires { service.0 < length self.old.lists }
        ensures ok { OnOk result (self.new ≡ record self.old { lists = heard_more self.old.lists service.0 text }) }
        ensures err { OnErr result (self.new ≡ self.old) }
    {
        let voted = self.heard.take(service, text)?;
        self.split = judged(self.split, &self.line, &self.heard, voted);
        Ok(())
    }

    /// What stands behind the end, by what was read.
    fn next(&self) -> Next
        ensures { IsNextOf self.now result }
    {
        next_of(&self.line, &self.heard)
    }

    /// Gains the one entry that is chosen behind the end. Refused, it changes nothing.
    fn gain(&mut self, entry: &Entry) -> Result<(), NoMemory>
        requires { IsNextOf self.old (Member entry.now) }
        ensures ok { OnOk result (self.new ≡ record self.old { members = self.old.members ++ entry.now ∷ [] }) }
        ensures err { OnErr result (self.new ≡ self.old) }
    {
        self.line.push(entry)?;
        Ok(())
    }

    /// Gains each entry that is chosen at the next position, by what was read, and links on. Answers the split behind the end, if
    /// two are chosen there.
    pub(crate) fn extend(&mut self) -> Result<Option<Split>, NoMemory>
        ensures grows { ChainGrows self.old self.new }
        ensures lists { self.new.lists ≡ self.old.lists }
        ensures whole { IfOk result (λ behind. IsWhole self.new × BehindIs self.new behind) }
    {
        'members: loop {
            match self.next() {
                Next::Member { entry } => self.gain(&entry)?,
                Next::Two { split } => return Ok(Some(split)),
                Next::End => return Ok(None),
            }
        }
    }

    /// What was learnt, where these services failed: what half of the voters of a position failed comes first, then the split that
    /// is known or stands behind the end.
    pub(crate) fn answer(
        &self,
        failed: &ServiceSet,
        behind: Option<Split>,
    ) -> Result<Learnt, Refusal>
        requires { BehindIs self.now behind }
        ensures { AnswersOf self.now failed.now result }
    {
        if self.line.lacks(failed) {
            return Err(Refusal::NoMajority { failed: *failed });
        }
        match self.split.or(behind) {
            Some(split) => Err(Refusal::Split {
                position: split.position,
                first: split.first,
                second: split.second,
            }),
            None => Ok(Learnt {
                end: self.line.end(),
                seen: self.heard.seen(),
            }),
        }
    }
}
