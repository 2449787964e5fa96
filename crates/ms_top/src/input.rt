//! The answer on an input.

ghost use Rattle.std.specs.Prelude.{◌≡◌, ◌≤◌, length};
ghost use Rattle.ms_base.specs.Outside.{outside};
ghost use Rattle.ms_base.specs.declared.limits.TheConstants.{INPUT_BYTES};
ghost use Rattle.ms_top.specs.Inputs.{OnInput, ReadsInput};
ghost use Rattle.ms_top.specs.Verbs.{VerbSays};

use crate::audits::audit_text;
use crate::drills::drill_text;
use crate::hashes::hash_text;
use ms_base::{Bytes, Inputs, Quantity, ReadError};
use ms_record::{Place, Refusal};
use ms_words::{Report, Verb};
use std::alloc::Global;

/// The answer on the input of that name.
pub(crate) fn on_input<I: Inputs>(
    alloc: Global,
    verb: Verb,
    name: &str,
    inputs: &mut I,
) -> Result<Report, Refusal>
    ensures { OnInput (VerbSays verb) name.now (outside I.seen inputs.old) (outside I.seen inputs.new) result }
{
    match read_input(alloc, name, inputs) {
        Ok(text) => on_text(alloc, verb, text.as_slice()),
        Err(refusal) => Err(refusal),
    }
}

/// The answer on a text.
fn on_text(alloc: Global, verb: Verb, text: &[u8]) -> Result<Report, Refusal>
    requires { length text.now ≤ INPUT_BYTES }
    ensures { VerbSays verb text.now result }
{
    match verb {
        Verb::Audit => audit_text(alloc, text),
        Verb::Drill => drill_text(alloc, text),
        Verb::Hash => hash_text(alloc, text),
    }
}

/// The text of that name, read to its end.
fn read_input<I: Inputs>(alloc: Global, name: &str, inputs: &mut I) -> Result<Bytes, Refusal>
    ensures { ReadsInput name.now (outside I.seen inputs.old) (outside I.seen inputs.new) result }
{
    match inputs.input(alloc, name) {
        Ok(text) => Ok(text),
        Err(ReadError::Failed) => Err(Refusal::OutsideFault {
            place: Place::Input,
        }),
        Err(ReadError::TooLong { bytes }) => Err(Refusal::Limit {
            what: Quantity::Input,
            value: bytes,
        }),
        Err(ReadError::NoMemory) => Err(Refusal::NoMemory),
    }
}
