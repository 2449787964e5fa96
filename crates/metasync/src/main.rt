//! The program: `metasync WORDS` on the current folder.
#![tactic(auto)]

ghost use Rattle.metasync.specs.Endings.{Ends, EndsOnWords};
ghost use Rattle.ms_words.specs.Commands.{word_texts};

use ms_base::{FreeGate, StdSink};
use ms_top::{FolderHouse, run};
use std::alloc::AllocError;
use std::process::ExitCode;
use std::{env, io};

/// The words after the program's name. Words that are not UTF-8 are no command, and neither is no word.
fn words(rt: &HostRuntime) -> Result<Vec<String>, AllocError> {
    let mut words = Vec::new(rt.alloc());
    match env::args(rt) {
        Ok(args) => {
            for word in args.skip(1) {
                words.push(word)?;
            }
            Ok(words)
        }
        Err(error) if error.kind() == io::ErrorKind::OutOfMemory => Err(AllocError),
        Err(_) => Ok(words),
    }
}

/// Carries out the command of the words on the current folder and standard output.
fn exit_code(rt: &HostRuntime, words: &[String]) -> ExitCode
    ensures { EndsOnWords (word_texts words.now) result }
{
    let mut house = FolderHouse::new(rt, ".");
    let mut out = StdSink::new(io::writer(rt));
    ExitCode::from(run(rt.alloc(), words, &mut house, &mut out, &FreeGate))
}

/// Carries out the command of the words after the program's name.
fn ends(rt: &HostRuntime) -> ExitCode
    ensures { Ends result }
{
    match words(rt) {
        Ok(words) => exit_code(rt, &words),
        Err(_) => ExitCode::from(8),
    }
}

fn main(rt: HostRuntime) -> ExitCode {
    ends(&rt)
}
