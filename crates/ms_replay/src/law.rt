//! Laws: what lists show is one thing.

ghost use Rattle.std.specs.Prelude.{◌≡◌, ◌≤◌, ◌↔◌, ℕ, List, Ok, Some};
ghost use Rattle.ms_record.specs.declared.record.Record.{Record};
ghost use Rattle.ms_record.specs.Reading.{votes_of};
ghost use Rattle.ms_replay.specs.declared.audit.Audit.{Audit};
ghost use Rattle.ms_replay.specs.declared.dump.Dump.{Dump};
ghost use Rattle.ms_replay.specs.declared.standing.Standing.{Standing};
ghost use Rattle.ms_replay.specs.Audits.{IsAudit};
ghost use Rattle.ms_replay.specs.DumpLines.{SpellsDump, SpellsHead, SpellsRow};
ghost use Rattle.ms_replay.specs.Dumps.{dump_at, head_at, row_at};
ghost use Rattle.ms_replay.specs.Laws.{AreAmong, AreInRange, AreOfBytes};
ghost use Rattle.ms_replay.specs.Standings.{IsStanding};

use ms_record::entry::one_spelling as entries_have_one_spelling;
use ms_record::law::one_chain;
use ms_record::record::one_spelling;
use ms_text::words::one_spelling as numbers_have_one_spelling;
use ms_text::words_are_joined;

/// What lists show at a position, where some of their services vote, is one thing.
pub fn one_standing()
    ensures one { (lists : ℕ → List Record) (services voters : List ℕ) (position : ℕ) (a b : Standing) → AreInRange lists → AreAmong services voters
        → IsStanding lists services voters position a → IsStanding lists services voters position b → a ≡ b }
    // What is read of bytes is in its ranges.
    ensures read { (texts : ℕ → List (List ℕ)) → AreOfBytes texts → AreInRange (λ s. votes_of (texts s)) }
{
    entries_have_one_spelling();
    one_spelling();
}

/// A dump has one audit.
pub fn one_audit()
    ensures { (dump : Dump) (a b : Audit) → IsAudit dump a → IsAudit dump b → a ≡ b }
{
    one_chain();
}

/// A dump, and each of its lines, is read exactly where it is spelled so: `docs/FORMATS.md`, dump.
pub fn lines_are_spelled()
    ensures whole { (text : List ℕ) (dump : Dump) → dump_at text ≡ Ok dump ↔ SpellsDump text dump }
    ensures head { (line : List ℕ) (services : ℕ) (genesis : List ℕ) → head_at line ≡ Some (services, genesis) ↔ SpellsHead line services genesis }
    ensures row { (services : ℕ) (line : List ℕ) (service : ℕ) (text : List ℕ) → services ≤ 16
        → row_at services line ≡ Some (service, text) ↔ SpellsRow services line service text }
{
    words_are_joined();
    numbers_have_one_spelling();
}
