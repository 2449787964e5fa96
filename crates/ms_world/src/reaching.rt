//! The names that are reached from a version.

ghost use Rattle.std.specs.Prelude.{◌≡◌, ◌∷◌, [], ◌<◌, Some, OnOk, OnErr, Contains, length, slice_get};
ghost use Rattle.ms_world.specs.Reaching.{Meets};

use ms_base::NoMemory;
use ms_core::Want;
use std::alloc::Global;
use std::collections::BTreeSet;
use std::marker::Model;

/// What was met, each once, in the order of the first time.
#[derive(Drop)]
pub(crate) struct Met {
    wants: Vec<Want>,
    known: BTreeSet<Want>,
}

impl Model for Met {
    ghost use Rattle.std.specs.Prelude.{List};
    ghost use Rattle.ms_core.specs.declared.want.Want.{Want};
    ghost use Rattle.ms_world.specs.Reaching.{HaveSame};

    ghost Value = { List Want };

    ghost view = { λ met. met.wants.items };

    ghost invariant = { λ met. HaveSame met.known.keys met.wants.items };
}

impl Met {
    pub(crate) fn new(alloc: Global) -> Met
        ensures { result ≡ [] }
    {
        Met {
            wants: Vec::new(alloc),
            known: BTreeSet::new(alloc),
        }
    }

    /// Puts this at the end, if it was not met before.
    pub(crate) fn meet(&mut self, want: Want) -> Result<(), NoMemory>
        ensures meets { OnOk result (Meets (want ∷ []) self.old self.new) }
        ensures once { Contains self.old want → self.new ≡ self.old }
        ensures err { OnErr result (self.new ≡ self.old) }
    {
        if self.known.contains(&want) {
            return Ok(());
        }
        self.wants.reserve(1)?;
        self.known.insert(want)?;
        self.wants.push_reserved(want);
        Ok(())
    }

    pub(crate) fn len(&self) -> usize
        ensures { result ≡ length self.now }
    {
        self.wants.len()
    }

    /// What was met at this place, counted from 0.
    pub(crate) fn at(&self, place: usize) -> Want
        requires { place < length self.now }
        ensures { slice_get self.now place ≡ Some result }
    {
        self.wants[place]
    }
}
