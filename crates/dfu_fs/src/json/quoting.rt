//! Strings of JSON (RFC 8259, section 7).

ghost use Rattle.std.specs.Prelude.{◌≡◌, ◌<◌, ◌++◌, OnOk};
ghost use Rattle.std.specs.List.{flat_map};
ghost use Rattle.dfu_fs.specs.Quoted.{lower_hex_digit, escaped_byte, quoted_string};

use std::alloc::AllocError;

/// Returns the lower-case hexadecimal digit of `number`, 0 to 15.
fn lower_hex_digit(number: u8) -> u8
    requires { number < 16 }
    ensures { result ≡ lower_hex_digit number }
{
    if number < 10 {
        b'0' + number
    } else {
        b'a' + (number - 10)
    }
}

/// Adds `byte` to `out`, escaped if a JSON string can't contain it directly.
#[tactic(auto, unfolding(crate::specs::Quoted::escaped_byte))]
pub(crate) fn push_escaped(out: &mut Vec<u8>, byte: u8) -> Result<(), AllocError>
    ensures { OnOk result (out.new.items ≡ out.old.items ++ escaped_byte byte) }
{
    if byte == b'"' || byte == b'\\' {
        return out.extend_from_slice(&[b'\\', byte]);
    }
    if byte < b' ' {
        return out.extend_from_slice(&[
            b'\\',
            b'u',
            b'0',
            b'0',
            lower_hex_digit(byte / 16),
            lower_hex_digit(byte % 16),
        ]);
    }
    out.extend_from_slice(&[byte])
}

/// Adds the bytes of `text` to `out`, each escaped if a JSON string can't contain it directly.
fn push_string_bytes(out: &mut Vec<u8>, text: &[u8]) -> Result<(), AllocError>
    ensures { OnOk result (out.new.items ≡ out.old.items ++ flat_map escaped_byte text.now) }
{
    for byte in text {
        push_escaped(out, *byte)?;
    }
    Ok(())
}

/// Adds `text` to `out` as a string with its quotes.
#[tactic(auto, unfolding(crate::specs::Quoted::quoted_string))]
#[inline(never)]
pub(crate) fn push_quoted(out: &mut Vec<u8>, text: &[u8]) -> Result<(), AllocError>
    ensures { OnOk result (out.new.items ≡ out.old.items ++ quoted_string text.now) }
{
    out.extend_from_slice(b"\"")?;
    push_string_bytes(out, text)?;
    out.extend_from_slice(b"\"")
}
