//! Whole lists that go on, and taking back what was put.

ghost use Rattle.std.specs.Prelude.{◌≡◌, ◌≤◌, ◌<◌, ℕ, List, [], OnOk, length};
ghost use Rattle.std.specs.Vec.{vec_capacity};
ghost use Rattle.ms_record.specs.declared.record.Record.{Record};
ghost use Rattle.ms_record.specs.Reading.{votes_of};
ghost use Rattle.ms_replay.specs.Tallies.{IsTallyOf, goes_on};
ghost use Rattle.ms_replay.specs.Places.{AreInOrder, AreKept, all_taken_back};

use crate::place::{Filing, Put};
use crate::places::Places;
use ms_base::{Bytes, NoMemory};

impl Places {
    /// The list of a service goes on by these texts, whose votes go behind the others.
    pub(crate) fn put_behind(&mut self, service: u32, more: &[Bytes]) -> Result<(), NoMemory>
        requires kept { AreKept self.old }
        requires within { service < self.old.services }
        ensures read { (lists : ℕ → List Record) → IsTallyOf lists self.old → OnOk result (IsTallyOf (goes_on lists service (votes_of more.now)) self.new) }
        ensures services { self.new.services ≡ self.old.services }
        ensures keeps { AreKept self.new }
    {
        for text in more {
            self.put(service, text.as_slice(), Filing::Behind)?;
        }
        Ok(())
    }

    /// The list of a service goes on by these texts, and what each put is noted.
    pub(crate) fn put_all(
        &mut self,
        service: u32,
        more: &[Bytes],
        done: &mut Vec<Option<Put>>,
    ) -> Result<(), NoMemory>
        requires kept { AreKept self.old }
        requires within { service < self.old.services }
        requires order { AreInOrder self.old }
        requires none_yet { done.old.items ≡ [] }
        requires room { length more.now ≤ vec_capacity done.old }
        ensures read { (lists : ℕ → List Record) → IsTallyOf lists self.old → OnOk result (IsTallyOf (goes_on lists service (votes_of more.now)) self.new) }
        ensures back { all_taken_back service done.new.items self.new.places ≡ self.old.places }
        ensures services { self.new.services ≡ self.old.services }
        ensures keeps { AreKept self.new }
        ensures order { AreInOrder self.new }
    {
        for text in more {
            let one = self.put(service, text.as_slice(), Filing::InOrder)?;
            done.push_reserved(one);
        }
        Ok(())
    }

    /// Takes back all that was put, the last first, without taking memory.
    pub(crate) fn take_all_back(&mut self, service: u32, mut done: Vec<Option<Put>>)
        ensures places { self.new.places ≡ all_taken_back service done.items self.old.places }
        ensures services { self.new.services ≡ self.old.services }
    {
        while let Some(put) = done.pop() {
            self.take_back(service, &put);
        }
    }
}
