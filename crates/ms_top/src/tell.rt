//! Telling an answer: its lines go to a sink.

ghost use Rattle.std.specs.Prelude.{◌≡◌, IfSome, IfNone};
ghost use Rattle.ms_top.specs.Telling.{NeedsMemory, SinkGoesOn, Tells, PrintsOrNoMemory, TellsOrNoMemory, report_of};
ghost use Rattle.ms_words.specs.Texts.{text_of};

use ms_base::{Sink, write_all};
use ms_record::Refusal;
use ms_words::{Line, Report, print_report, refusal_line, status};
use std::alloc::Global;

/// Writes the lines of an answer, or that memory ran out for them, and answers the status.
///
/// A refusal of one line is told without memory.
pub(crate) fn tell<S: Sink>(alloc: Global, answer: Result<Report, Refusal>, out: &mut S) -> u8
    ensures told { TellsOrNoMemory (report_of answer) (S.seen out.old) (S.seen out.new) result }
    ensures sink { SinkGoesOn (S.seen out.old) (S.seen out.new) }
{
    let report = report_of(answer);
    match line_of(&report) {
        Some(line) => write(&report, line.as_bytes(), out),
        None => print(alloc, &report, out),
    }
}

/// The report that tells an answer.
fn report_of(answer: Result<Report, Refusal>) -> Report
    ensures { result ≡ report_of answer }
{
    match answer {
        Ok(report) => report,
        Err(refusal) => Report::Refused { refusal },
    }
}

/// The line of a report that is told without memory.
fn line_of(report: &Report) -> Option<Line>
    ensures some { IfSome result (λ line. line ≡ text_of report.now) }
    ensures none { IfNone result (NeedsMemory report.now) }
{
    match report {
        Report::Refused { refusal } => refusal_line(refusal),
        Report::Audit { .. } => None,
        Report::Drill { .. } => None,
        Report::Hash { .. } => None,
    }
}

/// Writes the lines of a report, or that memory ran out for them, and answers the status.
fn print<S: Sink>(alloc: Global, report: &Report, out: &mut S) -> u8
    ensures told { PrintsOrNoMemory report.now (S.seen out.old) (S.seen out.new) result }
    ensures sink { SinkGoesOn (S.seen out.old) (S.seen out.new) }
{
    let mut text = Vec::new(alloc);
    match print_report(report, &mut text) {
        Ok(()) => write(report, &text, out),
        Err(_) => write(
            &Report::Refused {
                refusal: Refusal::NoMemory,
            },
            b"no memory\n",
            out,
        ),
    }
}

/// Writes the lines of a report, and answers its status.
fn write<S: Sink>(report: &Report, text: &[u8], out: &mut S) -> u8
    requires { text.now ≡ text_of report.now }
    ensures told { Tells report.now (S.seen out.old) (S.seen out.new) result }
    ensures sink { SinkGoesOn (S.seen out.old) (S.seen out.new) }
{
    match write_all(out, text) {
        Ok(()) => status(report),
        Err(_) => 3,
    }
}
