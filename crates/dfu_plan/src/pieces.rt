//! Texts that consist of pieces: words, decimal numbers and hexadecimal numbers.

ghost use Rattle.std.specs.Prelude.{◌≡◌, ◌++◌, IfOk, OnOk};
ghost use Rattle.std.specs.List.{flat_map};
ghost use Rattle.std.specs.String.{string_bytes};
ghost use Rattle.dfu_plan.specs.Pieces.{hexadecimal, piece_text};

use std::alloc::{AllocError, Global};

/// Piece of a text.
#[derive(Clone, Copy)]
pub(crate) enum Piece<'t> {
    /// Text that is added without a change.
    Word(&'t str),
    /// Number in decimal digits.
    Number(u32),
    /// Number in lower-case hexadecimal digits, at least eight of them.
    Hex(u64),
}

/// Returns a number in lower-case hexadecimal digits, at least eight of them.
fn hexadecimal(alloc: Global, number: u64) -> Result<String, AllocError>
    ensures { IfOk result (λ t. string_bytes t ≡ hexadecimal number) }
{
    format!(in alloc; "{number:08x}")
}

/// Appends a piece to a text.
fn push_piece(alloc: Global, text: &mut String, piece: Piece<'_>) -> Result<(), AllocError>
    ensures { OnOk result (string_bytes text.new ≡ string_bytes text.old ++ piece_text piece.entry) }
{
    match piece {
        Piece::Word(word) => text.push_str(word),
        Piece::Number(number) => {
            let digits = number.to_string(alloc)?;
            text.push_str(&digits)
        }
        Piece::Hex(number) => {
            let digits = hexadecimal(alloc, number)?;
            text.push_str(&digits)
        }
    }
}

/// Appends pieces to a text.
pub(crate) fn push_pieces(
    alloc: Global,
    text: &mut String,
    pieces: &[Piece<'_>],
) -> Result<(), AllocError>
    ensures { OnOk result (string_bytes text.new ≡ string_bytes text.old ++ flat_map piece_text pieces.now) }
{
    for piece in pieces {
        push_piece(alloc, text, *piece)?;
    }
    Ok(())
}
