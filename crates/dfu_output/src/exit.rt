//! Exits of commands, and the lines for their faults.

ghost use Rattle.std.specs.Prelude.{◌≡◌, max};
ghost use Rattle.dfu_output.specs.AnswerLines.{bad_words_line, fault_line, fault_exit};
ghost use Rattle.dfu_output.specs.Exits.{exit_status};
ghost use Rattle.dfu_output.specs.Output.{TextIsOut};

use dfu_suffix::{SuffixFault, write_whole};
use std::alloc::Global;
use std::io::Write;

/// Exit of a command, which determines the exit status of the program.
#[derive(Clone, Copy)]
pub enum Exit {
    /// The command succeeded: status 0.
    Done,
    /// The input was refused, and the printed line names the reason: status 1.
    Refused,
    /// The command line is invalid: status 2.
    BadWords,
    /// A file, standard input or standard output failed: status 3.
    Fault,
}

impl Exit {
    /// Returns the exit status of the program, from 0 to 3.
    pub fn status(self) -> u8
        ensures { result ≡ exit_status self }
    {
        match self {
            Exit::Done => 0,
            Exit::Refused => 1,
            Exit::BadWords => 2,
            Exit::Fault => 3,
        }
    }

    /// Returns the worse of two exits: the one with the higher status.
    pub fn worse(self, other: Exit) -> Exit
        ensures { exit_status result ≡ max (exit_status self) (exit_status other) }
    {
        if self.status() < other.status() {
            other
        } else {
            self
        }
    }
}

/// Exit of a command, and the reason for standard error if there is one.
#[derive(Drop)]
pub struct Outcome {
    /// Exit of the command; for several files, the worst one.
    pub exit: Exit,
    /// Line with the reason. It is None if no reason is requested, if the printed line already gives the reason, or if memory ran out.
    pub reason: Option<String>,
}

/// Returns the lines of `first` followed by those of `second`, or None if both are None. Lines for which there is no memory are left out.
fn joined_lines(alloc: Global, first: Option<String>, second: Option<String>) -> Option<String> {
    match (first, second) {
        (Some(first), Some(second)) => {
            let mut lines = String::new(alloc);
            let _ = lines.push_str(&first);
            let _ = lines.push_str(&second);
            Some(lines)
        }
        (Some(only), None) | (None, Some(only)) => Some(only),
        (None, None) => None,
    }
}

impl Outcome {
    /// Returns the outcome of two files, this one and `next`: the worse exit and both reasons. A reason for which there is no memory is
    /// left out.
    pub fn and(self, alloc: Global, next: Outcome) -> Outcome
        ensures { exit_status result.exit ≡ max (exit_status self.exit) (exit_status next.exit) }
    {
        let Outcome { exit, reason } = self;
        Outcome {
            exit: exit.worse(next.exit),
            reason: joined_lines(alloc, reason, next.reason),
        }
    }
}

/// Writes all of `text` and returns `exit`, or returns Fault if the writer fails.
// Many commands call this, and a single copy keeps the program small.
#[inline(never)]
pub fn write_out<W: Write>(writer: &mut W, text: &[u8], exit: Exit) -> Exit
    ensures { TextIsOut (W.contents writer.old) (W.contents writer.new) text.now exit result }
{
    match write_whole(writer, text) {
        Ok(()) => exit,
        Err(_) => Exit::Fault,
    }
}

/// Returns the line for `fault`: `fault NAME` for Read and Write, and `refused NAME` for any other fault.
#[tactic(auto, unfolding(crate::specs::AnswerLines::fault_line))]
pub(crate) fn fault_line(fault: SuffixFault) -> &'static str
    ensures { result.now ≡ fault_line fault }
{
    refused!(fault, SuffixFault,
        TooShort NoSignature BadLength DfuSe BadCrc AlreadySuffixed TooLarge NoMemory,
        Read "fault Read\n", Write "fault Write\n"
    )
}

/// Returns the exit for `fault`: Fault for Read and Write, and Refused for any other fault.
fn fault_exit(fault: SuffixFault) -> Exit
    ensures { result ≡ fault_exit fault }
{
    match fault {
        SuffixFault::Read | SuffixFault::Write => Exit::Fault,
        _ => Exit::Refused,
    }
}

/// Writes the line for a fault: `fault NAME` for Read and Write, and `refused NAME` for any other fault.
///
/// Returns Fault for Read and Write, and Refused for any other fault. If the writer fails, it returns Fault, and only a proper prefix of
/// the line is written.
pub fn fault_text<W: Write>(fault: SuffixFault, writer: &mut W) -> Exit
    ensures { TextIsOut (W.contents writer.old) (W.contents writer.new) (fault_line fault) (fault_exit fault) result }
{
    write_out(writer, fault_line(fault).as_bytes(), fault_exit(fault))
}

/// Writes the line `bad words` for an invalid command line. Returns BadWords, or Fault if the writer fails.
pub fn bad_words<W: Write>(writer: &mut W) -> Exit
    ensures { TextIsOut (W.contents writer.old) (W.contents writer.new) bad_words_line Exit.BadWords result }
{
    write_out(writer, b"bad words\n", Exit::BadWords)
}
