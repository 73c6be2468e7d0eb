//! Writes texts, and bytes as hexadecimal text.

ghost use Rattle.std.specs.Prelude.{◌++◌, ◌≤◌, ◌∷◌, [], length};
ghost use Rattle.dfu_link.specs.inside.Expected.{WriteEnds};
ghost use Rattle.hex.specs.Hex.{encode_lower};
ghost use Rattle.dfu_link.specs.Texts.{hex_text};

use crate::scripting::fault::ScriptFault;
use dfu_suffix::write_whole;
use std::io::Write;

/// Writes a whole text. Returns Write at the first error of the writer, or if it accepts none of the remaining bytes.
pub(crate) fn write_out<W: Write>(writer: &mut W, text: &[u8]) -> Result<(), ScriptFault>
    ensures { WriteEnds text.now (W.contents writer.old) (W.contents writer.new) result }
{
    match write_whole(writer, text) {
        Ok(()) => Ok(()),
        Err(_) => Err(ScriptFault::Write),
    }
}

/// Writes two texts, one after the other.
pub(crate) fn write_two<W: Write>(
    writer: &mut W,
    first: &str,
    last: &str,
) -> Result<(), ScriptFault>
    ensures { WriteEnds (first.now ++ last.now) (W.contents writer.old) (W.contents writer.new) result }
{
    write_out(writer, first.as_bytes())?;
    write_out(writer, last.as_bytes())
}

/// Writes three texts, one after the other.
pub(crate) fn write_three<W: Write>(
    writer: &mut W,
    first: &str,
    middle: &str,
    last: &str,
) -> Result<(), ScriptFault>
    ensures { WriteEnds (first.now ++ middle.now ++ last.now) (W.contents writer.old) (W.contents writer.new) result }
{
    write_two(writer, first, middle)?;
    write_out(writer, last.as_bytes())
}

/// Largest number of bytes that one write prints as digits.
pub(crate) const SHOWN_BYTES: usize = 256;

/// Writes at most 256 bytes as hexadecimal digits in lower case.
pub(crate) fn write_digits<W: Write>(writer: &mut W, bytes: &[u8]) -> Result<(), ScriptFault>
    requires { length bytes.now ≤ 256 }
    ensures { WriteEnds (encode_lower bytes.now) (W.contents writer.old) (W.contents writer.new) result }
{
    let len = bytes.len();
    let mut digits = [0; 2 * SHOWN_BYTES];
    let Ok(()) = hex::encode_to_slice(bytes, &mut digits[..2 * len]) else {
        unreachable!()
    };
    write_out(writer, &digits[..2 * len])
}

/// Writes bytes as hexadecimal digits in lower case, in pieces of at most 256 bytes.
fn write_all_digits<W: Write>(writer: &mut W, bytes: &[u8]) -> Result<(), ScriptFault>
    ensures { WriteEnds (encode_lower bytes.now) (W.contents writer.old) (W.contents writer.new) result }
{
    let all = bytes.len();
    let mut at = 0;
    while at < all {
        let len = SHOWN_BYTES.min(all - at);
        write_digits(writer, &bytes[at..at + len])?;
        at += len;
    }
    Ok(())
}

/// Writes bytes as hexadecimal digits, or `-` for none, and a line feed.
pub(crate) fn write_bytes<W: Write>(writer: &mut W, bytes: &[u8]) -> Result<(), ScriptFault>
    ensures { WriteEnds (hex_text bytes.now ++ 10 ∷ []) (W.contents writer.old) (W.contents writer.new) result }
{
    if bytes.is_empty() {
        return write_two(writer, "-", "\n");
    }
    write_all_digits(writer, bytes)?;
    write_out(writer, b"\n")
}
