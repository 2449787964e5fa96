//! The calls of the program.

ghost use Rattle.std.specs.Prelude.{◌≡◌, Some};
ghost use Rattle.ms_base.specs.Outside.{outside};
ghost use Rattle.ms_top.specs.Answers.{ByCommand, Carries};
ghost use Rattle.ms_top.specs.Runs.{Runs};
ghost use Rattle.ms_words.specs.Commands.{command_of, command_with, word_texts};
ghost use Rattle.ms_words.specs.declared.command.Command.TheVariants as commands;

use crate::input::on_input;
use crate::tell::tell;
use ms_base::{Gate, Inputs, Sink};
use ms_record::Refusal;
use ms_words::{Command, Report, Verb, WordsError, read_words};
use std::alloc::Global;

/// Carries out the command of the words, writes its report to `out`, and answers the status:
/// `docs/FORMATS.md`, reports.
///
/// The report is made whole and then written; where the sink fails, a front of it was written.
pub fn run<H: Inputs, S: Sink, G: Gate>(
    alloc: Global,
    words: &[String],
    house: &mut H,
    out: &mut S,
    _gate: &G,
) -> u8
    ensures { Runs (command_of (word_texts words.now)) (outside H.seen house.old) (outside H.seen house.new) (S.seen out.old) (S.seen out.new) result }
{
    let given = answer(alloc, words, house);
    tell(alloc, given, out)
}

/// The agreed chain of the dump of that name, or its split, is written to `out`; answers the status.
///
/// Waits for nobody.
pub fn audit<I: Inputs, S: Sink>(alloc: Global, name: &str, inputs: &mut I, out: &mut S) -> u8
    ensures { Runs (Some (commands.Audit name.now)) (outside I.seen inputs.old) (outside I.seen inputs.new) (S.seen out.old) (S.seen out.new) result }
{
    judge(alloc, Verb::Audit, name, inputs, out)
}

/// The schedule of that name is run; the agreed chain and what each client knows are written to `out`; answers the status.
///
/// Waits for nobody.
pub fn drill<I: Inputs, S: Sink>(alloc: Global, name: &str, inputs: &mut I, out: &mut S) -> u8
    ensures { Runs (Some (commands.Drill name.now)) (outside I.seen inputs.old) (outside I.seen inputs.new) (S.seen out.old) (S.seen out.new) result }
{
    judge(alloc, Verb::Drill, name, inputs, out)
}

/// The number of files and of objects of the listing of that name, and the root of its tree, are written to `out`;
/// answers the status.
///
/// Waits for nobody.
pub fn hash_listing<I: Inputs, S: Sink>(
    alloc: Global,
    name: &str,
    inputs: &mut I,
    out: &mut S,
) -> u8
    ensures { Runs (Some (commands.Hash name.now)) (outside I.seen inputs.old) (outside I.seen inputs.new) (S.seen out.old) (S.seen out.new) result }
{
    judge(alloc, Verb::Hash, name, inputs, out)
}

/// The answer on the input of that name is told; answers the status.
fn judge<I: Inputs, S: Sink>(
    alloc: Global,
    verb: Verb,
    name: &str,
    inputs: &mut I,
    out: &mut S,
) -> u8
    ensures { Runs (Some (command_with verb name.now)) (outside I.seen inputs.old) (outside I.seen inputs.new) (S.seen out.old) (S.seen out.new) result }
{
    let given = on_input(alloc, verb, name, inputs);
    tell(alloc, given, out)
}

/// What the words are answered with.
fn answer<H: Inputs>(alloc: Global, words: &[String], house: &mut H) -> Result<Report, Refusal>
    ensures { Carries (command_of (word_texts words.now)) (outside H.seen house.old) (outside H.seen house.new) result }
{
    match read_words(alloc, words) {
        Ok(command) => carry_out(alloc, &command, house),
        Err(WordsError::Usage) => Err(Refusal::Usage),
        Err(WordsError::NoMemory) => Err(Refusal::NoMemory),
    }
}

/// What a command answers.
fn carry_out<H: Inputs>(alloc: Global, command: &Command, house: &mut H) -> Result<Report, Refusal>
    ensures { ByCommand (Some command.now) (outside H.seen house.old) (outside H.seen house.new) result }
{
    match command {
        Command::Audit { file } => on_input(alloc, Verb::Audit, file.as_str(), house),
        Command::Drill { file } => on_input(alloc, Verb::Drill, file.as_str(), house),
        Command::Hash { file } => on_input(alloc, Verb::Hash, file.as_str(), house),
    }
}
