//! What the program is asked to do.

ghost use Rattle.std.specs.Prelude.{◌≡◌};
ghost use Rattle.std.specs.Option.{option_map};
ghost use Rattle.ms_words.specs.Commands.{ReadsWords, command_of, command_with, word_texts, one_file, verb_of};
ghost use Rattle.ms_words.specs.declared.command.WordsError.TheVariants as errors;

use ms_base::{NoMemory, Text};
use std::alloc::Global;

/// What the program is asked to do: the words after its name, `docs/FORMATS.md`, commands.
#[derive(Drop)]
pub enum Command {
    Audit { file: Text },
    Drill { file: Text },
    Hash { file: Text },
}

/// Why words are no command.
#[derive(Clone, Copy, Debug, PartialEq, Eq)]
pub enum WordsError {
    /// They are outside the grammar.
    Usage,
    NoMemory,
}

impl From<NoMemory> for WordsError {
    ghost from_gives = { λ _ e. e ≡ errors.NoMemory };

    fn from(_error: NoMemory) -> WordsError {
        WordsError::NoMemory
    }
}

/// What the first word asks for.
#[derive(Clone, Copy, Debug, PartialEq, Eq)]
pub enum Verb {
    Audit,
    Drill,
    Hash,
}

/// The command of the words. Memory is taken only for a command.
#[tactic(auto, unfolding(crate::specs::Commands::command_of))]
pub fn read_words(alloc: Global, words: &[String]) -> Result<Command, WordsError>
    ensures { ReadsWords result (command_of (word_texts words.now)) }
{
    let [word, rest @ ..] = words else {
        return Err(WordsError::Usage);
    };
    let Some(verb) = verb_of(word.as_str()) else {
        return Err(WordsError::Usage);
    };
    let Some(file) = one_file(rest) else {
        return Err(WordsError::Usage);
    };
    let file = Text::of(alloc, file)?;
    Ok(command_with(verb, file))
}

fn verb_of(word: &str) -> Option<Verb>
    ensures { result ≡ verb_of word.now }
{
    if word == "audit" {
        Some(Verb::Audit)
    } else if word == "drill" {
        Some(Verb::Drill)
    } else if word == "hash" {
        Some(Verb::Hash)
    } else {
        None
    }
}

fn command_with(verb: Verb, file: Text) -> Command
    ensures { result ≡ command_with verb file }
{
    match verb {
        Verb::Audit => Command::Audit { file },
        Verb::Drill => Command::Drill { file },
        Verb::Hash => Command::Hash { file },
    }
}

/// The one file of these words, whose name does not begin with `-`.
fn one_file(words: &[String]) -> Option<&str>
    ensures { option_map (λ file. file.now) result ≡ one_file (word_texts words.now) }
{
    let [file] = words else {
        return None;
    };
    let file = file.as_str();
    if file.starts_with('-') {
        return None;
    }
    Some(file)
}
