//! Each function here only makes the call of the same name. Its contract states which step of a board that call is, and follows from the
//! contract of the call.
#![tactic(auto, using(dfu_asks::proofs::Room::memory_of_256_has_room))]

ghost use Rattle.std.specs.Prelude.{◌≡◌, ℕ, false, List, [], length, IfErr, IfSome, IfNone, IsSome};
ghost use Rattle.dfu_slots.specs.Medium.{Torn};
ghost use Rattle.dfu_slots.specs.Image.{HasImage};
ghost use Rattle.dfu_slots.specs.StoreView.{SlotsState};
ghost use Rattle.dfu_device.specs.Borrowed.{answer_room};
ghost use Rattle.dfu_asks.specs.Lent.{lent, SameConfig};
ghost use Rattle.dfu_asks.specs.Calls.{WritesPending};
ghost use Rattle.dfu_asks.specs.Refused.{IsRefusedCall, ReportRefusedFor};
ghost use Rattle.dfu_asks.specs.Mapped.{grain_of, mapped_medium};
ghost use Rattle.dfu_asks.specs.Jobs.{step_of_piece};
ghost use Rattle.dfu_laws.specs.board.Board.{Board, BoardStep, Handle, Elapse, UsbReset, RefuseClose, Refuse, Write, Took, Restart, Nothing, medium_on};
ghost use Rattle.dfu_laws.specs.board.Happens.{PieceHandedOut, IsPoweredOn, BoardStarts, EventOutcome, IsRun};
ghost use Rattle.dfu_laws.specs.board.Counts.{PieceAdvances};
ghost use Rattle.dfu_laws.specs.board.Steps.{board_of_parts, reply_of_result, reply_of_reset, reply_of_close};

use crate::laws::boards_keep_an_image;
use dfu_asks::{Asking, FlashOp, Refusal, Reply, Sector};
use dfu_device::{Config, Objection};
use dfu_slots::Unit;

/// A call of `Asking::handle` is a step of a board.
pub fn handle(
    asking: &mut Asking,
    block: &mut [u8],
    held: &mut [u8; 256],
    flash: &[u8],
    setup: &[u8; 8],
    body: &[u8],
    out: &mut [u8],
) -> Result<Reply, Refusal>
    ensures step { EventOutcome (board_of_parts asking.old block.old held.old flash.now) (Handle setup.now body.now)
        (reply_of_result result out.new)
        (board_of_parts asking.new block.new held.new flash.now) }
    ensures refused { IfErr result (λ e.
        IsRefusedCall e asking.old block.old held.old flash.now (answer_room asking.old.config) (length out.old)) }
    ensures same_config { SameConfig asking.old asking.new }
{
    asking.handle(block, held, flash, setup, body, out)
}

/// A call of `Asking::elapse` is a step of a board.
pub fn elapse(
    asking: &mut Asking,
    block: &mut [u8],
    held: &mut [u8; 256],
    flash: &[u8],
    ms: u32,
) -> Result<Reply, Refusal>
    ensures step { EventOutcome (board_of_parts asking.old block.old held.old flash.now) (Elapse ms) (reply_of_result result [])
        (board_of_parts asking.new block.new held.new flash.now) }
    ensures refused { IfErr result (λ e. IsRefusedCall e asking.old block.old held.old flash.now 0 0) }
    ensures same_config { SameConfig asking.old asking.new }
{
    asking.elapse(block, held, flash, ms)
}

/// A call of `Asking::usb_reset` is a step of a board.
pub fn usb_reset(
    asking: &mut Asking,
    block: &[u8],
    held: &[u8; 256],
    flash: &[u8],
) -> Result<(), Refusal>
    ensures step { EventOutcome (board_of_parts asking.old block.now held.now flash.now) UsbReset (reply_of_reset result)
        (board_of_parts asking.new block.now held.now flash.now) }
    ensures refused { IfErr result (λ e. IsRefusedCall e asking.old block.now held.now flash.now 0 0) }
    ensures same_config { SameConfig asking.old asking.new }
{
    asking.usb_reset(block, held, flash)
}

/// A call of `Asking::refuse_close` is a step of a board, for any bytes in its memories and on its flash, because the call reads neither.
pub fn refuse_close(
    asking: &mut Asking,
    setup: &[u8; 8],
    objection: Objection,
) -> Result<bool, Refusal>
    ensures step { (block held flash : List ℕ) → EventOutcome (board_of_parts asking.old block held flash) (RefuseClose setup.now objection)
        (reply_of_close result) (board_of_parts asking.new block held flash) }
    ensures refused { IfErr result (λ e. (e ≡ Refusal.Asked) × IsSome asking.old.work) }
    ensures same_config { SameConfig asking.old asking.new }
{
    asking.refuse_close(setup, objection)
}

/// A call of `Asking::refuse` is a step of a board, for any bytes in its memories and on its flash, because the call reads neither.
pub fn refuse(asking: &mut Asking, objection: Objection) -> Result<(), Refusal>
    ensures step { (block held flash : List ℕ) → EventOutcome (board_of_parts asking.old block held flash) (Refuse objection)
        (reply_of_reset result)
        (board_of_parts asking.new block held flash) }
    ensures refused { IfErr result (λ e. (e ≡ Refusal.Asked) × IsSome asking.old.work) }
    ensures same_config { SameConfig asking.old asking.new }
{
    asking.refuse(objection)
}

/// If `Asking::next` returns a piece, a write step may leave any bytes in the range of that piece, and changes no other byte. If it returns
/// None, no writes are pending.
pub fn next(
    asking: &Asking,
    block: &[u8],
    held: &[u8; 256],
    flash: &[u8],
    out: &mut [u8; 256],
) -> Option<FlashOp>
    ensures piece { IfSome result (λ p. PieceHandedOut (board_of_parts asking.now block.now held.now flash.now) (step_of_piece p out.new)) }
    ensures written { IfSome result (λ p. (now : List ℕ)
        → Torn flash.now (step_of_piece p out.new).write.at (step_of_piece p out.new).write.bytes now →
        EventOutcome (board_of_parts asking.now block.now held.now flash.now) Write Nothing
        (board_of_parts asking.now block.now held.now now)) }
    ensures none_pending { IfNone result ((len : ℕ) (s : SlotsState) (was : List ℕ) →
        ¬ WritesPending (lent asking.now block.now held.now) len s was flash.now) }
{
    asking.next(block, held, flash, out)
}

/// A call of `Asking::took` is a step of a board.
pub fn took(
    asking: &mut Asking,
    block: &[u8],
    held: &mut [u8; 256],
    flash: &[u8],
    failed: bool,
    out: &mut [u8],
) -> Result<Reply, Refusal>
    ensures step { EventOutcome (board_of_parts asking.old block.now held.old flash.now) (Took failed) (reply_of_result result out.new)
        (board_of_parts asking.new block.now held.new flash.now) }
    ensures piece_advances { PieceAdvances (board_of_parts asking.old block.now held.old flash.now) (Took failed)
        (reply_of_result result out.new)
        (board_of_parts asking.new block.now held.new flash.now) }
    ensures refused { IfErr result (λ e. ReportRefusedFor e (lent asking.old block.now held.old) (length out.old)) }
    ensures same_config { SameConfig asking.old asking.new }
{
    asking.took(block, held, flash, failed, out)
}

/// If `Asking::power_on` returns a device, the board with this device was just powered on and is in appIDLE, with any bytes in its
/// memories. It returns None only if the flash has no active image; no steps of a board that was powered on leave such a flash.
pub fn power_on(config: Config, unit: Unit, sector: Sector, flash: &[u8]) -> Option<Asking>
    ensures board_starts { (block held : List ℕ) → IfSome result (λ a. BoardStarts false (board_of_parts a block held flash.now)) }
    ensures step { (b : Board) (block held : List ℕ) → b.flash ≡ flash.now →
        IfSome result (λ a. EventOutcome b (Restart false) Nothing (board_of_parts a block held flash.now)) }
    ensures set_up { IfSome result (λ a. (a.config ≡ config) × (a.unit ≡ unit) × (a.sector ≡ sector)) }
    ensures none { IfNone result (¬ HasImage (mapped_medium (grain_of unit sector) flash.now)) }
    ensures starts { (b b' : Board) (steps : List BoardStep) → IsPoweredOn b → IsRun b steps b' →
        medium_on b' ≡ mapped_medium (grain_of unit sector) flash.now → IsSome result }
{
    // The clause `starts` follows from the clause `keeps` of this call.
    boards_keep_an_image();
    Asking::power_on(config, unit, sector, flash)
}
