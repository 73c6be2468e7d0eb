//! Lines that end with a number, and arguments that are numbers.

ghost use Rattle.std.specs.Prelude.{◌≡◌, ◌++◌, ◌∷◌, IfOk, [], codes};
ghost use Rattle.std.specs.Fmt.{decimal};
ghost use Rattle.std.specs.String.{string_bytes};
ghost use Rattle.dfu_cmd.specs.NumberText.{NumberedLineIsOut};

use dfu_output::{Exit, fault_text, write_out};
use dfu_places::Areas;
use dfu_suffix::SuffixFault;
use std::alloc::{AllocError, Global};
use std::io::Write;

/// Returns a line that consists of `text` and `number`.
///
/// # Errors
///
/// AllocError if there is no memory for the line.
fn numbered_line(alloc: Global, text: &str, number: u32) -> Result<String, AllocError>
    ensures { IfOk result (λ t. string_bytes t ≡ text.now ++ decimal number ++ 10 ∷ []) }
{
    format!(in alloc; "{text}{number}\n")
}

/// Writes a line of `text` and `number`, the number of a script's line, to `writer`.
pub(crate) fn number_text<W: Write>(alloc: Global, text: &str, number: u32, writer: &mut W) -> Exit
    ensures { NumberedLineIsOut text.now number (W.contents writer.old) (W.contents writer.new) result }
{
    match numbered_line(alloc, text, number) {
        Ok(line) => write_out(writer, line.as_bytes(), Exit::Refused),
        Err(_) => fault_text(SuffixFault::NoMemory, writer),
    }
}

/// Returns the number in `word`, 1 to 10 decimal digits up to 4,294,967,295, or None for any other text.
pub(crate) fn number_of(word: &str) -> Option<u32> {
    let digits = word.as_bytes();
    if digits.len() > 10 || !digits.iter().all(|digit| digit.is_ascii_digit()) {
        return None;
    }
    match word.parse::<u32>() {
        Ok(number) => Some(number),
        Err(_) => None,
    }
}

/// Returns the number of areas in `word`, which must be `2` or `3`, or None for any other text.
pub(crate) fn areas_in(word: &str) -> Option<Areas> {
    match word {
        "2" => Some(Areas::Two),
        "3" => Some(Areas::Three),
        _ => None,
    }
}
