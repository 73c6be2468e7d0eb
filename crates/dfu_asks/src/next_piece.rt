//! The next piece of the writes of a job. The operations of dfu_slots are cut into erases of a sector and programs of at most 256 bytes.
ghost use Rattle.std.specs.Prelude.{◌≡◌, ◌+◌, ◌*◌, ◌^◌, ◌<◌, ◌≤◌, ◌∷◌, [], length, not, true, if◌then◌else◌, IsTrue};
ghost use Rattle.dfu_slots.specs.Operations.{operations};
ghost use Rattle.dfu_asks.specs.Steps.{step_writes, write_some_steps, erase_step, close_step};
ghost use Rattle.dfu_asks.specs.Carried.{total, IsStepPiece};
ghost use Rattle.dfu_asks.specs.Jobs.{input_grain, steps_of_job};
ghost use Rattle.dfu_asks.specs.Cuts.{source_bytes, range_of_source, step_of_cut, IsFoundPiece};
ghost use Rattle.dfu_asks.specs.OpSteps.{ops_steps, op_steps_at, OpsHaveFewBytes};

use crate::cut::Cut;
use crate::sector::{Position, locate};
use crate::{FlashOp, SlotWrite};
use dfu_slots::{MAX_OPERATIONS, Op, Sequence, Source, VERSION, make_header};

/// Largest number of bytes that are programmed at a time.
pub const MAX_PROGRAM: usize = 256;

// Sets the piece of `cut` to an erase of `len` bytes at offset `at`.
fn find_erase(at: u64, len: usize, cut: &mut Cut<'_>)
    ensures piece { (cut.new.piece.erases ≡ true) × (cut.new.piece.at ≡ at) × (cut.new.piece.len ≡ len) }
    ensures rest { (cut.new.inputs ≡ cut.old.inputs) × (cut.new.rest ≡ cut.old.rest) × (cut.new.front ≡ cut.old.front) }
{
    cut.piece = FlashOp {
        erases: true,
        at,
        len,
    };
}

// Returns true if the next piece belongs to the erase of the sector at `at`. `cut` then contains the piece; else the search continues after
// the erase.
fn erase_piece(at: u64, cut: &mut Cut<'_>) -> bool
    requires { at < 2 ^ 41 }
    ensures found { IsTrue result → IsStepPiece (erase_step at cut.old.inputs.sector.size ∷ []) cut.old.rest (step_of_cut cut.new) }
    ensures same_inputs { (cut.new.inputs ≡ cut.old.inputs) × (cut.new.front ≡ cut.old.front) }
    ensures found_piece { IsTrue result → IsFoundPiece cut.old.inputs.sector.size cut.new }
    ensures end { IsTrue result → cut.old.rest + cut.new.piece.len ≤ 2 ^ 19 }
    ensures behind { IsTrue (not result) →
        total (step_writes (erase_step at cut.old.inputs.sector.size ∷ [])) + cut.new.rest ≡ cut.old.rest }
    ensures past { IsTrue (not result) → cut.old.rest ≤ cut.new.rest + 2 ^ 19 }
{
    let sector = cut.inputs.sector.size() as usize;
    if cut.rest < sector {
        find_erase(at + cut.rest as u64, sector - cut.rest, cut);
        return true;
    }
    cut.rest -= sector;
    false
}

// Returns true if the next piece belongs to a write of `len` bytes at `at`, or to its erases. The write's bytes are those of `source` after
// its first `skip` bytes. `cut` then contains the piece; else the search continues after the write.
fn write_piece(at: u64, source: Source, skip: usize, len: usize, cut: &mut Cut<'_>) -> bool
    requires small { at < 2 ^ 41 }
    requires short { len ≤ 4608 }
    requires within { skip + len ≤ length (source_bytes source cut.old.inputs cut.old.front) + 256 }
    requires skipped { skip ≤ 2 ^ 32 }
    ensures found { IsTrue result → IsStepPiece (write_some_steps cut.old.inputs.sector.size at
        (range_of_source source cut.old.inputs cut.old.front skip len))
        cut.old.rest (step_of_cut cut.new) }
    ensures same_inputs { (cut.new.inputs ≡ cut.old.inputs) × (cut.new.front ≡ cut.old.front) }
    ensures found_piece { IsTrue result → IsFoundPiece cut.old.inputs.sector.size cut.new }
    ensures end { IsTrue result → cut.old.rest + cut.new.piece.len ≤ 2 ^ 19 }
    ensures behind { IsTrue (not result) →
        total (step_writes (write_some_steps cut.old.inputs.sector.size at (range_of_source source cut.old.inputs
        cut.old.front skip len))) +
        cut.new.rest
        ≡ cut.old.rest }
    ensures past { IsTrue (not result) → cut.old.rest ≤ cut.new.rest + 2 ^ 19 }
{
    match locate(cut.inputs.sector, at, len, cut.rest) {
        Position::Erase { place, len } => {
            find_erase(place, len, cut);
            true
        }
        Position::Program { from } => {
            cut.piece = FlashOp {
                erases: false,
                at: at + from as u64,
                len: (len - from).min(MAX_PROGRAM),
            };
            cut.source = source;
            cut.from = skip + from;
            true
        }
        Position::Behind { rest } => {
            cut.rest = rest;
            false
        }
    }
}

/// Returns true if the next piece belongs to operation number `index` of `sequence`. `cut` then contains the piece; else the search
/// continues after that operation, if there is one.
pub(crate) fn numbered_piece(sequence: Sequence, index: usize, cut: &mut Cut<'_>) -> bool
    requires { OpsHaveFewBytes cut.old.inputs cut.old.front (operations (input_grain cut.old.inputs) sequence) }
    ensures found { let s = cut.old.inputs in IsTrue result →
        IsStepPiece (op_steps_at s cut.old.front (operations (input_grain s) sequence) index) cut.old.rest (step_of_cut cut.new) }
    ensures same_inputs { (cut.new.inputs ≡ cut.old.inputs) × (cut.new.front ≡ cut.old.front) }
    ensures found_piece { IsTrue result → IsFoundPiece cut.old.inputs.sector.size cut.new }
    ensures end { IsTrue result → cut.old.rest + cut.new.piece.len ≤ 2 ^ 19 }
    ensures behind { let s = cut.old.inputs in IsTrue (not result) →
        total (step_writes (op_steps_at s cut.old.front (operations (input_grain s) sequence) index)) + cut.new.rest ≡ cut.old.rest }
    ensures past { IsTrue (not result) → cut.old.rest ≤ cut.new.rest + 2 ^ 19 }
{
    match sequence.operation(cut.inputs.unit, cut.inputs.sector.size(), index) {
        None => false,
        Some(Op::Erase { at }) => erase_piece(at, cut),
        Some(
            Op::Program {
                at,
                source,
                skip,
                len,
            },
        ) => write_piece(at, source, skip as usize, len as usize, cut),
    }
}

/// Returns true if the next piece belongs to an operation of `sequence`. `cut` then contains the piece; else the search continues after the
/// operations.
pub(crate) fn sequence_piece(sequence: Sequence, cut: &mut Cut<'_>) -> bool
    requires { OpsHaveFewBytes cut.old.inputs cut.old.front (operations (input_grain cut.old.inputs) sequence) }
    ensures found { let s = cut.old.inputs in IsTrue result →
        IsStepPiece (ops_steps s cut.old.front (operations (input_grain s) sequence)) cut.old.rest (step_of_cut cut.new) }
    ensures same_inputs { cut.new.inputs ≡ cut.old.inputs }
    ensures found_piece { IsTrue result → IsFoundPiece cut.old.inputs.sector.size cut.new }
    ensures end { IsTrue result → cut.old.rest + cut.new.piece.len ≤ 2 ^ 21 }
    ensures behind { let s = cut.old.inputs in IsTrue (not result) →
        total (step_writes (ops_steps s cut.old.front (operations (input_grain s) sequence))) + cut.new.rest ≡ cut.old.rest }
    ensures past { IsTrue (not result) → cut.old.rest ≤ cut.new.rest + 2 ^ 21 }
{
    for index in 0..MAX_OPERATIONS {
        if numbered_piece(sequence, index, cut) {
            return true;
        }
    }
    false
}

// Returns true if `close` is true and the next piece belongs to the closing of the gate of the slot at `spare`. `cut` then contains the
// piece.
fn close_piece(spare: u32, close: bool, cut: &mut Cut<'_>) -> bool
    ensures found { IsTrue result →
        IsStepPiece (if close then close_step (input_grain cut.old.inputs) spare ∷ [] else []) cut.old.rest (step_of_cut cut.new) }
    ensures same_inputs { cut.new.inputs ≡ cut.old.inputs }
    ensures found_piece { IsTrue result → IsFoundPiece cut.old.inputs.sector.size cut.new }
    ensures end { IsTrue result → cut.old.rest + cut.new.piece.len ≤ 2 ^ 21 }
    ensures behind { IsTrue (not result) →
        total (step_writes (if close then close_step (input_grain cut.old.inputs) spare ∷ [] else [])) + cut.new.rest ≡ cut.old.rest }
    ensures past { IsTrue (not result) → cut.old.rest ≤ cut.new.rest + 2 ^ 21 }
{
    close && sequence_piece(Sequence::Close { slot: spare }, cut)
}

// Returns true if the next piece belongs to the writes of a block. `cut` then contains the piece.
fn block_piece(spare: u32, close: bool, cut: &mut Cut<'_>) -> bool
    requires held { length cut.old.inputs.held.now ≤ 256 }
    requires block { length cut.old.inputs.block.now ≤ 4096 }
    ensures found { IsTrue result →
        IsStepPiece (steps_of_job (SlotWrite.Block spare close) cut.old.inputs) cut.old.rest (step_of_cut cut.new) }
    ensures same_inputs { cut.new.inputs ≡ cut.old.inputs }
    ensures found_piece { IsTrue result → IsFoundPiece cut.old.inputs.sector.size cut.new }
    ensures end { IsTrue result → cut.old.rest + cut.new.piece.len ≤ 2 ^ 22 }
    ensures none { IsTrue (not result) → total (step_writes (steps_of_job (SlotWrite.Block spare close) cut.old.inputs)) ≤ cut.old.rest }
{
    if close_piece(spare, close, cut) {
        return true;
    }
    let sequence = Sequence::Put {
        slot: spare,
        end: cut.inputs.put_end,
        held: cut.inputs.held.len() as u16,
        block: cut.inputs.block.len() as u16,
    };
    sequence_piece(sequence, cut)
}

// Returns true if the next piece belongs to the writes of a commit. `cut` then contains the piece.
fn commit_piece(spare: u32, generation: u8, register: u32, cut: &mut Cut<'_>) -> bool
    requires held { length cut.old.inputs.held.now ≤ 256 }
    ensures found { IsTrue result →
        IsStepPiece (steps_of_job (SlotWrite.Commit spare generation register) cut.old.inputs) cut.old.rest (step_of_cut cut.new) }
    ensures same_inputs { cut.new.inputs ≡ cut.old.inputs }
    ensures found_piece { IsTrue result → IsFoundPiece cut.old.inputs.sector.size cut.new }
    ensures end { IsTrue result → cut.old.rest + cut.new.piece.len ≤ 2 ^ 22 }
    ensures none { IsTrue (not result) →
        total (step_writes (steps_of_job (SlotWrite.Commit spare generation register) cut.old.inputs)) ≤ cut.old.rest }
{
    let end = cut.inputs.put_end;
    cut.front = make_header(VERSION, generation, end, register);
    let sequence = Sequence::Commit {
        slot: spare,
        end,
        held: cut.inputs.held.len() as u16,
    };
    sequence_piece(sequence, cut)
}

/// Returns true if a piece of the writes of `job` is left. `cut` then contains the next piece.
pub(crate) fn next_piece(job: SlotWrite, cut: &mut Cut<'_>) -> bool
    requires held { length cut.old.inputs.held.now ≤ 256 }
    requires block { length cut.old.inputs.block.now ≤ 4096 }
    ensures found { IsTrue result → IsStepPiece (steps_of_job job cut.old.inputs) cut.old.rest (step_of_cut cut.new) }
    ensures same_inputs { cut.new.inputs ≡ cut.old.inputs }
    ensures found_piece { IsTrue result → IsFoundPiece cut.old.inputs.sector.size cut.new }
    ensures end { IsTrue result → cut.old.rest + cut.new.piece.len ≤ 2 ^ 22 }
    ensures none { IsTrue (not result) → total (step_writes (steps_of_job job cut.old.inputs)) ≤ cut.old.rest }
{
    match job {
        SlotWrite::Block { spare, close } => block_piece(spare, close, cut),
        SlotWrite::Commit {
            spare,
            generation,
            register,
        } => commit_piece(spare, generation, register, cut),
    }
}
