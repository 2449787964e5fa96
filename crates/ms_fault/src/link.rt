//! A link whose calls meet the faults of a script.

ghost use Rattle.std.specs.Prelude.{◌≡◌, ◌≤◌, ◌⊎◌, ◌++◌, ◌∷◌, [], OnOk, OnErr, length};
ghost use Rattle.ms_base.specs.Counts.{one_more};
ghost use Rattle.ms_core.specs.Views.{IsClosed};
ghost use Rattle.ms_fault.specs.Changes.{event_of, size_of, Changes};
ghost use Rattle.ms_fault.specs.Faults.{due, link_of, still_late, faults_after, IsActed, IsCalled, IsIdle, IsNext, ChangesBy, LateBy};
ghost use Rattle.ms_fault.specs.Late.{sent_late};
ghost use Rattle.ms_link.specs.declared.fault.LinkError.TheVariants as errors;
ghost use Rattle.ms_link.specs.Links.{IsOnBoard, MayAdd, Learns};

use crate::change::{Change, kept, send};
use crate::fault::Fault;
use crate::late::{LateChange, catch_up};
use ms_base::NoMemory;
use ms_base::limits::OBJECT_BYTES;
use ms_core::{Common, FoldClosed, Know};
use ms_link::{Link, LinkError};
use std::alloc::Global;
use std::marker::Model;

/// A link that passes its calls on to another one, but for the faults of a script.
#[derive(Drop)]
pub struct FaultLink<L: Link<FoldClosed>> {
    pub(crate) inner: L,
    script: Vec<Fault>,
    at: usize,
    rest: Fault,
    late: Vec<LateChange>,
    /// How many calls were made.
    calls: u64,
    pub(crate) faults: u64,
}

impl<L: Link<FoldClosed>> Model for FaultLink<L> {
    ghost use Rattle.std.specs.Prelude.{◌≤◌, All, length};
    ghost use Rattle.ms_fault.specs.Faults.{FaultView};
    ghost use Rattle.ms_fault.specs.Late.{IsDue};

    ghost Value = { FaultView };

    ghost view = { λ f. record { inner = L.sees f.inner; script = f.script.items; at = f.at; rest = f.rest; late = f.late.items; calls = f.calls; faults = f.faults } };

    ghost invariant = { λ f. All (IsDue (L.sees f.inner)) f.late.items × (f.at ≤ length f.script.items) };
}

impl<L: Link<FoldClosed>> FaultLink<L> {
    /// The i-th call meets the i-th fault of the script, and later calls meet `rest`.
    pub fn new(alloc: Global, inner: L, script: Vec<Fault>, rest: Fault) -> FaultLink<L>
        ensures { result ≡ record { inner = L.sees inner; script = script.items; at = 0; rest = rest; late = []; calls = 0; faults = 0 } }
    {
        FaultLink {
            inner,
            script,
            at: 0,
            rest,
            late: Vec::new(alloc),
            calls: 0,
            faults: 0,
        }
    }

    /// The fault of this call, before which the changes are done whose time has come.
    pub(crate) fn meet(&mut self, alloc: Global, board: &Common) -> Fault
        requires { board.now ≡ self.old.inner.board }
        ensures fault { result ≡ due self.old }
        ensures next { IsNext self.old self.new }
        ensures late { self.new.late ≡ still_late self.old }
        ensures idle { IsIdle self.old self.new }
        ensures faults { self.new.faults ≡ self.old.faults }
    {
        self.calls = self.calls.saturating_add(1);
        catch_up(&mut self.inner, &mut self.late, self.calls, alloc, board);
        if self.at < self.script.len() {
            let fault = self.script[self.at];
            self.at += 1;
            fault
        } else {
            self.rest
        }
    }

    /// One call more that failed.
    pub(crate) fn fail(&mut self) -> LinkError
        ensures fault { result ≡ errors.Failed }
        ensures same { self.new ≡ record self.old { faults = self.new.faults } }
        ensures count { self.new.faults ≡ one_more self.old.faults }
        ensures later { self.old.faults ≤ self.new.faults }
    {
        self.faults = self.faults.saturating_add(1);
        LinkError::Failed
    }

    /// The answer, counted where it is a fault.
    pub(crate) fn counted<T>(&mut self, answer: Result<T, LinkError>) -> Result<T, LinkError>
        ensures answer { result ≡ answer }
        ensures same { self.new ≡ record self.old { faults = self.new.faults } }
        ensures count { self.new.faults ≡ faults_after self.old.faults answer }
        ensures later { self.old.faults ≤ self.new.faults }
    {
        if let Err(LinkError::Failed) = answer {
            self.faults = self.faults.saturating_add(1);
        }
        answer
    }

    /// The change is done, and its answer is not looked at.
    fn act(&mut self, alloc: Global, board: &Common, pass: &mut Know, change: Change)
        requires board { IsOnBoard self.old.inner board.now pass.old }
        requires short { size_of (event_of change) ≤ OBJECT_BYTES }
        requires closed { MayAdd IsClosed self.old.inner pass.old (event_of change) }
        ensures acted { IsActed self.old self.new }
        ensures pass { Learns pass.old pass.new }
    {
        let _ = send(&mut self.inner, alloc, board, pass, change);
    }

    /// The change is passed on.
    fn pass_on(
        &mut self,
        alloc: Global,
        board: &Common,
        pass: &mut Know,
        change: Change,
    ) -> Result<(), LinkError>
        requires board { IsOnBoard self.old.inner board.now pass.old }
        requires short { size_of (event_of change) ≤ OBJECT_BYTES }
        requires closed { MayAdd IsClosed self.old.inner pass.old (event_of change) }
        ensures changes { Changes self.old.inner self.new.inner pass.old pass.new (event_of change.entry) result }
        ensures counts { self.new.faults ≡ faults_after self.old.faults result }
        ensures call { IsCalled self.old self.new }
        ensures pass { Learns pass.old pass.new }
    {
        let answer = send(&mut self.inner, alloc, board, pass, change);
        self.counted(answer)
    }

    /// The change is kept with what the caller knows, to be done later, and the answer is lost.
    fn delay(
        &mut self,
        alloc: Global,
        board: &Common,
        pass: &mut Know,
        change: Change,
        after: u32,
    ) -> LinkError
        requires board { IsOnBoard self.old.inner board.now pass.old }
        requires short { size_of (event_of change) ≤ OBJECT_BYTES }
        requires closed { MayAdd IsClosed self.old.inner pass.old (event_of change) }
        ensures fault { (result ≡ errors.Failed) ⊎ (result ≡ errors.NoMemory) }
        ensures waits { result ≡ errors.Failed → self.new ≡ record self.old { late = self.old.late ++ sent_late self.old.calls pass.old (event_of change.entry) after ∷ []; faults = one_more self.old.faults } }
        ensures lost { result ≡ errors.NoMemory → self.new ≡ self.old }
        ensures idle { self.new.inner ≡ self.old.inner }
        ensures later { self.old.faults ≤ self.new.faults }
        ensures pass { pass.new ≡ pass.old }
    {
        match self.keep_late(alloc, board, pass, change, after) {
            Ok(()) => self.fail(),
            Err(NoMemory) => LinkError::NoMemory,
        }
    }

    /// Keeps the change with what the caller knows.
    fn keep_late(
        &mut self,
        alloc: Global,
        board: &Common,
        pass: &mut Know,
        change: Change,
        after: u32,
    ) -> Result<(), NoMemory>
        requires board { IsOnBoard self.old.inner board.now pass.old }
        requires short { size_of (event_of change) ≤ OBJECT_BYTES }
        requires closed { MayAdd IsClosed self.old.inner pass.old (event_of change) }
        ensures waits { OnOk result (self.new ≡ record self.old { late = self.old.late ++ sent_late self.old.calls pass.old (event_of change.entry) after ∷ [] }) }
        ensures lost { OnErr result (self.new ≡ self.old) }
        ensures pass { pass.new ≡ pass.old }
    {
        let event = kept(alloc, change)?;
        self.late.push(LateChange {
            note: board.note(pass),
            event,
            before: self.calls.saturating_add(u64::from(after.max(1))),
        })?;
        Ok(())
    }

    /// A change, under the fault of this call.
    pub(crate) fn change(
        &mut self,
        alloc: Global,
        board: &Common,
        pass: &mut Know,
        change: Change,
    ) -> Result<(), LinkError>
        requires board { IsOnBoard (link_of self.old) board.now pass.old }
        requires short { size_of (event_of change) ≤ OBJECT_BYTES }
        requires closed { MayAdd IsClosed (link_of self.old) pass.old (event_of change) }
        ensures script { ChangesBy (due self.old) self.old self.new pass.old pass.new (event_of change.entry) result }
        ensures counts { self.new.faults ≡ faults_after self.old.faults result }
        ensures later { self.old.faults ≤ self.new.faults }
        ensures late { LateBy (due self.old) self.old self.new pass.old (event_of change.entry) result }
        ensures next { IsNext self.old self.new }
        ensures pass { Learns pass.old pass.new }
    {
        match self.meet(alloc, board) {
            Fault::Lose => Err(self.fail()),
            Fault::ActThenFail => {
                self.act(alloc, board, pass, change);
                Err(self.fail())
            }
            Fault::Late { after } => Err(self.delay(alloc, board, pass, change, after)),
            Fault::Repeat => {
                self.act(alloc, board, pass, change);
                self.pass_on(alloc, board, pass, change)
            }
            Fault::Pass | Fault::Alter | Fault::Gone => self.pass_on(alloc, board, pass, change),
        }
    }
}
