//! The command `audit`.

ghost use Rattle.std.specs.Prelude.{◌≡◌, ◌≤◌, length};
ghost use Rattle.ms_base.specs.declared.limits.TheConstants.{INPUT_BYTES};
ghost use Rattle.ms_top.specs.Audits.{AuditSays, DumpSays};
ghost use Rattle.ms_top.specs.Steps.{OrNoMemory};

use ms_record::Refusal;
use ms_replay::{Audit, Dump, audit_dump, read_dump};
use ms_words::Report;
use std::alloc::Global;

/// The answer on the text of a dump.
pub(crate) fn audit_text(alloc: Global, text: &[u8]) -> Result<Report, Refusal>
    requires { length text.now ≤ INPUT_BYTES }
    ensures { AuditSays text.now result }
{
    match read_dump(alloc, text) {
        Ok(dump) => on_dump(alloc, &dump),
        Err(refusal) => Err(refusal),
    }
}

/// The answer on a dump.
fn on_dump(alloc: Global, dump: &Dump) -> Result<Report, Refusal>
    requires lists { length dump.now.lists ≡ dump.now.services }
    requires some { 1 ≤ dump.now.services }
    requires few { dump.now.services ≤ 16 }
    ensures { OrNoMemory result (DumpSays dump.now result) }
{
    match audit_dump(alloc, dump) {
        Ok(Audit::Linked { entries }) => Ok(Report::Audit {
            genesis: dump.genesis,
            entries,
        }),
        Ok(
            Audit::Split {
                position,
                first,
                second,
            },
        ) => Err(Refusal::Split {
            position,
            first,
            second,
        }),
        Err(_) => Err(Refusal::NoMemory),
    }
}
