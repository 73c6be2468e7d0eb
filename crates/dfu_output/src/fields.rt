//! Lines of fields and the digits of numbers; each field has a label and a value. Functions with many callers aren't inlined, to keep the
//! program small.

ghost use Rattle.std.specs.Prelude.{◌≡◌, ◌++◌, ◌∷◌, [], IfOk, OnOk};
ghost use Rattle.std.specs.String.{string_bytes};
ghost use Rattle.dfu_output.specs.AnswerLines.{hex_padded};
ghost use Rattle.dfu_output.specs.Fields.{value_text, text_with_fields};

use std::alloc::{AllocError, Global};

/// Value of a field, with the form in which it is written.
#[derive(Clone, Copy)]
pub(crate) enum Value<'v> {
    /// A text, unchanged.
    Text(&'v str),
    /// `yes` or `no`.
    Flag(bool),
    /// A number in decimal digits.
    Number(u64),
    /// A number in two lower-case hexadecimal digits.
    Hex2(u8),
    /// A number in four lower-case hexadecimal digits.
    Hex4(u16),
    /// A number in eight lower-case hexadecimal digits, or in nine if it is 2^32.
    Hex8(u64),
}

/// A label and the value after it.
pub(crate) type Field<'v> = (&'v str, Value<'v>);

/// Returns `n` in two lower-case hexadecimal digits.
pub(crate) fn hex2(alloc: Global, n: u8) -> Result<String, AllocError>
    ensures { IfOk result (λ t. string_bytes t ≡ hex_padded 2 n) }
{
    format!(in alloc; "{n:02x}")
}

/// Returns `n` in four lower-case hexadecimal digits.
pub(crate) fn hex4(alloc: Global, n: u16) -> Result<String, AllocError>
    ensures { IfOk result (λ t. string_bytes t ≡ hex_padded 4 n) }
{
    format!(in alloc; "{n:04x}")
}

/// Returns `n` in eight lower-case hexadecimal digits, or in nine for 2^32.
pub(crate) fn hex8(alloc: Global, n: u64) -> Result<String, AllocError>
    ensures { IfOk result (λ t. string_bytes t ≡ hex_padded 8 n) }
{
    format!(in alloc; "{n:08x}")
}

/// Adds a text to a line.
#[inline(never)]
pub fn push(line: &mut String, text: &str) -> Result<(), AllocError>
    ensures { OnOk result (string_bytes line.new ≡ string_bytes line.old ++ text.now) }
{
    line.push_str(text)
}

/// Adds a label and a value to a line.
#[inline(never)]
pub fn field(line: &mut String, label: &str, value: &str) -> Result<(), AllocError>
    ensures { OnOk result (string_bytes line.new ≡ string_bytes line.old ++ (label.now ++ value.now)) }
{
    push(line, label)?;
    push(line, value)
}

/// Adds a label and an owned value to a line.
#[inline(never)]
pub fn made_field(line: &mut String, label: &str, value: String) -> Result<(), AllocError>
    ensures { OnOk result (string_bytes line.new ≡ string_bytes line.old ++ (label.now ++ string_bytes value)) }
{
    field(line, label, &value)
}

fn push_field(
    alloc: Global,
    line: &mut String,
    label: &str,
    value: Value<'_>,
) -> Result<(), AllocError>
    ensures { OnOk result (string_bytes line.new ≡ string_bytes line.old ++ (label.now ++ value_text value.entry)) }
{
    match value {
        Value::Text(text) => field(line, label, text),
        Value::Flag(true) => field(line, label, "yes"),
        Value::Flag(false) => field(line, label, "no"),
        Value::Number(number) => made_field(line, label, number.to_string(alloc)?),
        Value::Hex2(number) => made_field(line, label, hex2(alloc, number)?),
        Value::Hex4(number) => made_field(line, label, hex4(alloc, number)?),
        Value::Hex8(number) => made_field(line, label, hex8(alloc, number)?),
    }
}

/// Adds the labels and values of `fields` to a line, in their order.
pub(crate) fn push_fields(
    alloc: Global,
    line: &mut String,
    fields: &[Field<'_>],
) -> Result<(), AllocError>
    ensures { OnOk result (string_bytes line.new ≡ text_with_fields (string_bytes line.old) fields.now) }
{
    for (label, value) in fields {
        push_field(alloc, line, label, *value)?;
    }
    Ok(())
}

/// Returns the texts of `fields`, one after the other.
///
/// # Errors
///
/// AllocError if there is no memory for the text.
pub(crate) fn text_of(alloc: Global, fields: &[Field<'_>]) -> Result<String, AllocError>
    ensures { IfOk result (λ t. string_bytes t ≡ text_with_fields [] fields.now) }
{
    let mut text = String::new(alloc);
    push_fields(alloc, &mut text, fields)?;
    Ok(text)
}

/// Returns a line that consists of `first`, `fields` and a line feed.
///
/// # Errors
///
/// AllocError if there is no memory for the line.
pub(crate) fn line_of(
    alloc: Global,
    first: &str,
    fields: &[Field<'_>],
) -> Result<String, AllocError>
    ensures { IfOk result (λ t. string_bytes t ≡ text_with_fields first.now fields.now ++ 10 ∷ []) }
{
    let mut line = String::from_str(alloc, first)?;
    push_fields(alloc, &mut line, fields)?;
    push(&mut line, "\n")?;
    Ok(line)
}
