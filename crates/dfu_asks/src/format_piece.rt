//! The next piece of a format.
ghost use Rattle.std.specs.Prelude.{◌≡◌, ◌+◌, ◌^◌, ◌<◌, ◌≤◌, [], not, length, IsTrue};
ghost use Rattle.dfu_slots.specs.Units.{fill_size};
ghost use Rattle.dfu_slots.specs.Layout.{header};
ghost use Rattle.dfu_slots.specs.declared.sequence.Sequence.TheVariants.{Commit};
ghost use Rattle.dfu_slots.specs.Operations.{operations};
ghost use Rattle.dfu_asks.specs.Steps.{step_writes};
ghost use Rattle.dfu_asks.specs.OpSteps.{op_steps_at};
ghost use Rattle.dfu_asks.specs.Carried.{total, IsStepPiece};
ghost use Rattle.dfu_asks.specs.Jobs.{input_grain};
ghost use Rattle.dfu_asks.specs.Cuts.{step_of_cut, IsFoundPiece};
ghost use Rattle.dfu_asks.specs.Phases.{steps_of_part};

use crate::cut::Cut;
use crate::next_piece::{numbered_piece, sequence_piece};
use crate::pending_writes::WriteInputs;
use crate::{FormatStep, Formatting};
use dfu_slots::{Sequence, Unit, VERSION, make_header};

/// Returns the length of an image of `len` bytes after it is filled up to whole units of `unit`.
pub(crate) fn filled_len(unit: Unit, len: usize) -> usize
    requires { len ≤ 2 ^ 24 }
    ensures value { result ≡ len + fill_size unit len }
    ensures at_most_len_and_256 { result ≤ len + 256 }
{
    let size = unit.size() as usize;
    len + (size - len % size) % size
}

/// Returns the inputs from which the writes of a format are computed, with the image as the block.
pub(crate) fn inputs_for<'a>(formatting: &Formatting, image: &'a [u8]) -> WriteInputs<'a>
    ensures unit { result.unit ≡ formatting.now.unit }
    ensures sector { result.sector ≡ formatting.now.sector }
    ensures held { result.held.now ≡ [] }
    ensures block { result.block.now ≡ image.now }
{
    WriteInputs {
        unit: formatting.unit,
        sector: formatting.sector,
        put_end: 0,
        held: &[],
        block: image,
    }
}

// Returns true if the next piece belongs to the header of the first slot (`index` 1), or to the open gate that is written after the header
// (`index` 2). `cut` then contains that piece.
fn open_piece(index: usize, register: u32, cut: &mut Cut<'_>) -> bool
    requires { length cut.old.inputs.block.now ≤ 2 ^ 24 }
    ensures found { let s = cut.old.inputs in IsTrue result →
        IsStepPiece (op_steps_at s (header 2 0 (length s.block.now) register) (operations (input_grain s) (Commit 0 0 0)) index)
        cut.old.rest (step_of_cut cut.new) }
    ensures behind { let s = cut.old.inputs in IsTrue (not result) →
        total (step_writes (op_steps_at s (header 2 0 (length s.block.now) register) (operations (input_grain s) (Commit 0 0 0)) index))
        + cut.new.rest ≡ cut.old.rest }
    ensures same_inputs { cut.new.inputs ≡ cut.old.inputs }
    ensures found_piece { IsTrue result → IsFoundPiece cut.old.inputs.sector.size cut.new }
    ensures end { IsTrue result → cut.old.rest + cut.new.piece.len ≤ 2 ^ 19 }
{
    cut.front = make_header(VERSION, 0, cut.inputs.block.len() as u32, register);
    let sequence = Sequence::Commit {
        slot: 0,
        end: 0,
        held: 0,
    };
    numbered_piece(sequence, index, cut)
}

/// Returns true if a piece of the current part of a format is left, on a flash of `size` bytes. `cut` then contains the next piece.
pub(crate) fn part_piece(formatting: &Formatting, size: usize, cut: &mut Cut<'_>) -> bool
    requires flash { size < 2 ^ 32 }
    requires held { cut.old.inputs.held.now ≡ [] }
    requires image { length cut.old.inputs.block.now ≤ 2 ^ 24 }
    requires unit { cut.old.inputs.unit ≡ formatting.now.unit }
    requires sector { cut.old.inputs.sector ≡ formatting.now.sector }
    ensures found { IsTrue result →
        IsStepPiece (steps_of_part formatting.now size cut.old.inputs.block.now) cut.old.rest (step_of_cut cut.new) }
    ensures same_inputs { cut.new.inputs ≡ cut.old.inputs }
    ensures found_piece { IsTrue result → IsFoundPiece cut.old.inputs.sector.size cut.new }
    ensures end { IsTrue result → cut.old.rest + cut.new.piece.len ≤ 2 ^ 21 }
    ensures none { IsTrue (not result) → total (step_writes (steps_of_part formatting.now size cut.old.inputs.block.now)) ≤ cut.old.rest }
{
    match formatting.phase {
        FormatStep::CloseSecond => sequence_piece(
            Sequence::Close {
                slot: (size / 2) as u32,
            },
            cut,
        ),
        FormatStep::CloseFirst => sequence_piece(Sequence::Close { slot: 0 }, cut),
        FormatStep::Image { from } => {
            let image = cut.inputs.block.len() as u32;
            sequence_piece(Sequence::Image { from, image }, cut)
        }
        FormatStep::Header => open_piece(1, formatting.register, cut),
        FormatStep::Gate => open_piece(2, formatting.register, cut),
        FormatStep::Ended => false,
    }
}
