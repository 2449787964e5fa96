//! The calls of a link, each under the fault of its turn.

ghost use Rattle.std.specs.Prelude.{◌≡◌, ◌≤◌, length};
ghost use Rattle.ms_core.specs.Views.{IsClosed};
ghost use Rattle.ms_fault.specs.Faults.{due, link_of, still_late, faults_after, ChangesBy, LateBy, ListsBy, HasBy, GetsBy, IsNext};
ghost use Rattle.ms_link.specs.Links.{IsOnBoard, MayAdd, Stays, Learns, Tells, Puts, Lists, Has, Gets};
ghost use Rattle.ms_record.specs.declared.log.LogEvent.TheVariants.{Rec, Put as Stored, Drop as Dropped};

use crate::altering::altered;
use crate::change::Change;
use crate::fault::Fault;
use crate::link::FaultLink;
use ms_base::limits::OBJECT_BYTES;
use ms_base::{Bytes, Name, ServiceId};
use ms_core::{Common, FoldClosed, Know};
use ms_link::{Link, LinkError, Texts};
use ms_record::ListId;
use std::alloc::Global;

impl<L: Link<FoldClosed>> Link<FoldClosed> for FaultLink<L> {
    ghost sees = { link_of };

    fn service(&self) -> ServiceId {
        self.inner.service()
    }

    fn faults(&self) -> u64 {
        self.faults
    }

    fn append(
        &mut self,
        alloc: Global,
        board: &Common,
        pass: &mut Know,
        list: ListId,
        text: &[u8],
    ) -> Result<(), LinkError>
        requires board { IsOnBoard (link_of self.old) board.now pass.old }
        requires short { length text.now ≤ OBJECT_BYTES }
        requires closed { MayAdd IsClosed (link_of self.old) pass.old (Rec list text.now) }
        ensures tells { Tells (link_of self.old) (link_of self.new) pass.old pass.new (Rec list text.now) result }
        ensures link { Stays (link_of self.old) (link_of self.new) }
        ensures pass { Learns pass.old pass.new }
        ensures script { ChangesBy (due self.old) self.old self.new pass.old pass.new (Rec list text.now) result }
        ensures counts { self.new.faults ≡ faults_after self.old.faults result }
        ensures late { LateBy (due self.old) self.old self.new pass.old (Rec list text.now) result }
        ensures next { IsNext self.old self.new }
    {
        self.change(alloc, board, pass, Change::Append { list, text })
    }

    fn list(
        &mut self,
        alloc: Global,
        board: &Common,
        pass: &mut Know,
        list: ListId,
        from: u64,
    ) -> Result<Texts, LinkError>
        requires board { IsOnBoard (link_of self.old) board.now pass.old }
        ensures lists { Lists (link_of self.old) (link_of self.new) pass.new list.0 from result }
        ensures link { Stays (link_of self.old) (link_of self.new) }
        ensures pass { Learns pass.old pass.new }
        ensures script { ListsBy (due self.old) self.old self.new pass.old pass.new list.0 from result }
        ensures counts { self.new.faults ≡ faults_after self.old.faults result }
        ensures late { self.new.late ≡ still_late self.old }
        ensures next { IsNext self.old self.new }
    {
        match self.meet(alloc, board) {
            Fault::Lose => Err(self.fail()),
            Fault::ActThenFail => {
                let _ = self.inner.list(alloc, board, pass, list, from);
                Err(self.fail())
            }
            _ => {
                let answer = self.inner.list(alloc, board, pass, list, from);
                self.counted(answer)
            }
        }
    }

    fn put(
        &mut self,
        alloc: Global,
        board: &Common,
        pass: &mut Know,
        generation: u32,
        name: &Name,
        text: &[u8],
    ) -> Result<(), LinkError>
        requires board { IsOnBoard (link_of self.old) board.now pass.old }
        requires short { length text.now ≤ OBJECT_BYTES }
        requires closed { MayAdd IsClosed (link_of self.old) pass.old (Stored generation name.now text.now) }
        ensures puts { Puts (link_of self.old) (link_of self.new) pass.old pass.new generation (Stored generation name.now text.now) result }
        ensures link { Stays (link_of self.old) (link_of self.new) }
        ensures pass { Learns pass.old pass.new }
        ensures script { ChangesBy (due self.old) self.old self.new pass.old pass.new (Stored generation name.now text.now) result }
        ensures counts { self.new.faults ≡ faults_after self.old.faults result }
        ensures late { LateBy (due self.old) self.old self.new pass.old (Stored generation name.now text.now) result }
        ensures next { IsNext self.old self.new }
    {
        let change = Change::Put {
            generation,
            name,
            text,
        };
        self.change(alloc, board, pass, change)
    }

    fn has(
        &mut self,
        alloc: Global,
        board: &Common,
        pass: &mut Know,
        generation: u32,
        name: &Name,
    ) -> Result<bool, LinkError>
        requires board { IsOnBoard (link_of self.old) board.now pass.old }
        ensures has { Has (link_of self.old) (link_of self.new) pass.new generation name.now result }
        ensures link { Stays (link_of self.old) (link_of self.new) }
        ensures pass { Learns pass.old pass.new }
        ensures script { HasBy (due self.old) self.old self.new pass.old pass.new generation name.now result }
        ensures counts { self.new.faults ≡ faults_after self.old.faults result }
        ensures late { self.new.late ≡ still_late self.old }
        ensures next { IsNext self.old self.new }
    {
        match self.meet(alloc, board) {
            Fault::Lose => Err(self.fail()),
            Fault::ActThenFail => {
                let _ = self.inner.has(alloc, board, pass, generation, name);
                Err(self.fail())
            }
            Fault::Gone => Ok(false),
            _ => {
                let answer = self.inner.has(alloc, board, pass, generation, name);
                self.counted(answer)
            }
        }
    }

    fn get(
        &mut self,
        alloc: Global,
        board: &Common,
        pass: &mut Know,
        generation: u32,
        name: &Name,
    ) -> Result<Option<Bytes>, LinkError>
        requires board { IsOnBoard (link_of self.old) board.now pass.old }
        ensures gets { Gets (link_of self.old) (link_of self.new) pass.new generation name.now result }
        ensures link { Stays (link_of self.old) (link_of self.new) }
        ensures pass { Learns pass.old pass.new }
        ensures script { GetsBy (due self.old) self.old self.new pass.old pass.new generation name.now result }
        ensures counts { self.new.faults ≡ faults_after self.old.faults result }
        ensures late { self.new.late ≡ still_late self.old }
        ensures next { IsNext self.old self.new }
    {
        match self.meet(alloc, board) {
            Fault::Lose => Err(self.fail()),
            Fault::ActThenFail => {
                let _ = self.inner.get(alloc, board, pass, generation, name);
                Err(self.fail())
            }
            Fault::Gone => Ok(None),
            Fault::Alter => {
                let answer = self.inner.get(alloc, board, pass, generation, name);
                match self.counted(answer) {
                    Ok(Some(text)) => Ok(Some(altered(text)?)),
                    Ok(None) => Ok(None),
                    Err(error) => Err(error),
                }
            }
            _ => {
                let answer = self.inner.get(alloc, board, pass, generation, name);
                self.counted(answer)
            }
        }
    }

    fn drop_below(
        &mut self,
        alloc: Global,
        board: &Common,
        pass: &mut Know,
        generation: u32,
    ) -> Result<(), LinkError>
        requires board { IsOnBoard (link_of self.old) board.now pass.old }
        requires closed { MayAdd IsClosed (link_of self.old) pass.old (Dropped generation) }
        ensures tells { Tells (link_of self.old) (link_of self.new) pass.old pass.new (Dropped generation) result }
        ensures link { Stays (link_of self.old) (link_of self.new) }
        ensures pass { Learns pass.old pass.new }
        ensures script { ChangesBy (due self.old) self.old self.new pass.old pass.new (Dropped generation) result }
        ensures counts { self.new.faults ≡ faults_after self.old.faults result }
        ensures late { LateBy (due self.old) self.old self.new pass.old (Dropped generation) result }
        ensures next { IsNext self.old self.new }
    {
        self.change(alloc, board, pass, Change::DropBelow { generation })
    }
}
