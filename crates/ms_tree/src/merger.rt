//! Merges of files, for those who are handed one.

ghost use Rattle.ms_text.specs.Labels.{IsClientLabel};
ghost use Rattle.ms_tree.specs.Merging.{Merges};
ghost use Rattle.ms_tree.specs.MergeLaws.{MergeLaws};

use crate::files::Files;
use ms_record::Refusal;
use std::alloc::Global;

/// Merges files by their paths: `docs/PROTOCOL.md`, merge.
pub trait Merger {
    /// What base, ours and theirs give together. The tag is the label of a client.
    ///
    /// `Limit` comes where the merged files pass a limit, the first in this order: their number,
    /// their bytes, the length of a tagged name, the length of a part of one.
    fn merge(
        &self,
        alloc: Global,
        base: &Files,
        ours: &Files,
        theirs: &Files,
        tag: &str,
    ) -> Result<Files, Refusal>
        requires { IsClientLabel tag.now }
        ensures { Merges base.now ours.now theirs.now tag.now result };
}

/// What is true of every merge.
pub fn merge_laws()
    ensures { MergeLaws }
{}
