//! The program `dfu`. It parses its command line, opens files, and prints the results of the library crates. It doesn't access USB devices.
#![tactic(auto)]

ghost use Rattle.std.specs.Prelude.{◌≡◌, IfSome, codes};
ghost use Rattle.std.specs.Fmt.{decimal};
ghost use Rattle.std.specs.String.{string_bytes};
ghost use Rattle.dfu_output.specs.ReasonLines.{reason_line};

mod buffering;
mod captures;
mod changing;
mod dfusing;
mod eventful;
mod foreign;
mod hexing;
mod identifiers;
mod judging;
mod line;
mod line_ends;
mod nearest;
mod numbering;
mod passes;
mod performing;
mod plan_words;
mod planning;
mod prefixing;
mod running;
mod scripts;
mod sharing;
mod shown;
mod tips;
mod watching;
mod words;

pub use buffering::run_buffered;
use dfu_output::{Exit, bad_words, fault_text, reason_line};
use dfu_suffix::SuffixFault;
pub use performing::{run_explained, run_words};
pub use running::run_text;
use std::alloc::Global;
use std::env::{Env, FillError};
use std::io::{self, ErrorKind, IsTerminal};
use std::process::ExitCode;

/// Largest size in bytes of an argument that is examined.
const WORD_BYTES: usize = 4096;

/// Returns the arguments of the command line, including the program's name.
fn words_of(rt: &HostRuntime) -> io::Result<Vec<String>> {
    let mut words = Vec::new(rt.alloc());
    for word in std::env::args(rt)? {
        words.push(word)?;
    }
    Ok(words)
}

/// Returns the position of the first argument that isn't UTF-8, or 0 if there is none, and true if `--explain` is given. Arguments over
/// 4,096 bytes are not examined.
fn looked_at(rt: &HostRuntime) -> (usize, bool) {
    let mut wrong = 0;
    let mut explain = false;
    let mut buffer = [0u8; WORD_BYTES];
    for place in 1..u16::MAX {
        let place = usize::from(place);
        match rt.arg(place, &mut buffer) {
            Ok(count) => {
                let word = &buffer[..count];
                explain = explain || word == b"--explain".as_slice();
                if wrong == 0 && std::str::from_utf8(word).is_err() {
                    wrong = place;
                }
            }
            Err(FillError::TooLong) => {}
            Err(FillError::NotPresent) => break,
        }
    }
    (wrong, explain)
}

/// Returns the reason for refusing an argument that isn't UTF-8, such as a file name in another encoding, or None if memory runs out.
/// `place` is the argument's position after the program's name, counted from 1.
fn non_utf8_reason(alloc: Global, place: usize) -> Option<String>
    ensures { IfSome result (λ t. string_bytes t ≡ reason_line (codes "word ") (decimal place)
        (codes "it has to be UTF-8 text; a file with another name can be given as standard input")) }
{
    let Ok(place) = place.to_string(alloc) else {
        return None;
    };
    let why = "it has to be UTF-8 text; a file with another name can be given as standard input";
    match reason_line(alloc, "word ", &place, why) {
        Ok(line) => Some(line),
        Err(_) => None,
    }
}

/// Refuses a command line with an argument that isn't UTF-8. Prints the reason if `is_wanted` is set or `--explain` is given.
fn refuse_word(rt: &HostRuntime, is_wanted: bool) -> Exit {
    let exit = bad_words(&mut io::writer(rt));
    let (place, explain) = looked_at(rt);
    if is_wanted || explain {
        if let Some(line) = &non_utf8_reason(rt.alloc(), place) {
            let _ = rt.eprint(line.as_str());
        }
    }
    exit
}

/// Refuses a command line that can't be read, because an argument isn't UTF-8 or memory runs out.
fn refuse_words(rt: &HostRuntime, error: &io::Error, is_wanted: bool) -> Exit {
    match error.kind() {
        ErrorKind::InvalidData => refuse_word(rt, is_wanted),
        _ => fault_text(SuffixFault::NoMemory, &mut io::writer(rt)),
    }
}

fn main(rt: HostRuntime) -> ExitCode {
    let is_wanted = rt.stderr().is_terminal();
    let status = match words_of(&rt) {
        Ok(words) => run_explained(&rt, &words, is_wanted),
        Err(error) => refuse_words(&rt, &error, is_wanted).status(),
    };
    ExitCode::from(status)
}
