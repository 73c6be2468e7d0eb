//! The calls for pending writes: `next` returns the next piece, and `took` reports its outcome.
ghost use Rattle.std.specs.Prelude.{◌≡◌, ◌≢◌, ◌+◌, ◌≤◌, ◌<◌, ◌^◌, ◌↔◌, ℕ, List, length, Some, IfOk, IfErr, IfSome, IfNone, OnOk, OnErr, IsTrue, not, ◌&&◌, if◌then◌else◌};
ghost use Rattle.dfu_slots.specs.declared.fault.WriteFault.TheVariants.{Failed, NotVerified};
ghost use Rattle.dfu_slots.specs.Medium.{Torn};
ghost use Rattle.dfu_slots.specs.Image.{Active};
ghost use Rattle.dfu_slots.specs.StoreView.{SlotsState};
ghost use Rattle.dfu_asks.specs.Mapped.{grain_of, mapped_medium, RangeIsInSpare, IsSlotOf, IsProtectedRange};
ghost use Rattle.dfu_asks.specs.Steps.{Step};
ghost use Rattle.dfu_asks.specs.Carried.{IsStepPiece, ErasesSectorOrPrograms};
ghost use Rattle.dfu_asks.specs.Jobs.{step_of_piece, PieceBounds};
ghost use Rattle.dfu_asks.specs.Lent.{lent, HasRoom, SameConfig};
ghost use Rattle.dfu_asks.specs.Asks.{grain_in, steps_in, device_of};
ghost use Rattle.dfu_asks.specs.Calls.{WritesPending, DevicePieceReported, AnotherPieceFollows, ReplyHasAtMostBytes};
ghost use Rattle.dfu_asks.specs.Refused.{HasRemainingWrites, ReportRefusedFor, ReportAccepted};
ghost use Rattle.dfu_asks.specs.declared.pending_writes.PendingWrites.{PendingWrites};

use crate::cut::{cut_at, fill};
use crate::next_piece::next_piece;
use crate::sector::offset_in_sector;
use crate::{Asking, FlashOp, MAX_PROGRAM, Mapped, PendingWrites, Refusal, Reply, Sector};
use dfu_slots::laws::active_image_is_one;
use dfu_slots::{OPEN_GATE, Unit, WriteFault, check, flash_byte_at};

// Returns the offset of the slot that contains offset `at`, if the flash has two slots of `size` bytes each.
fn slot_start(at: u64, size: u64) -> u64
    ensures { IsSlotOf at size result }
{
    if at < size { 0 } else { size }
}

// Returns true if a range lies within a slot whose gate is not open, or within the spare slot of an active image.
fn is_spare(flash: &[u8], unit: Unit, sector: Sector, at: u64, len: u64) -> bool
    requires small { at + len < 2 ^ 44 }
    requires some { 0 < len }
    ensures yes { let m = mapped_medium (grain_of unit sector) flash.now in
        IsTrue result → (image : List ℕ) → Active m image → RangeIsInSpare m at len }
    ensures inside { IsTrue result → at + len ≤ length flash.now }
    ensures no { IsTrue (not result) → IsProtectedRange (mapped_medium (grain_of unit sector) flash.now) at len }
{
    let half = flash.len() as u64 / 2;
    let slot = slot_start(at, half);
    if at + len > slot + half {
        return false;
    }
    if flash_byte_at(flash, slot as usize) != OPEN_GATE {
        return true;
    }
    let Some(medium) = Mapped::with_sector(flash, unit, sector) else {
        return false;
    };
    match check(&medium) {
        Ok(places) => u64::from(places.spare) == slot,
        Err(_) => {
            // The proof uses the clause `refused` of this call's contract.
            active_image_is_one();
            false
        }
    }
}

/// Returns true if `piece` programs bytes, or erases one whole sector.
pub(crate) fn is_sound(sector: Sector, piece: FlashOp) -> bool
    requires some { 0 < piece.len }
    requires small { piece.at < 2 ^ 43 }
    ensures { (bytes : List ℕ) → IsTrue result ↔ ErasesSectorOrPrograms sector.size (step_of_piece piece bytes) }
{
    if !piece.erases {
        return true;
    }
    let size = sector.size();
    size > 0 && piece.len == size as usize && offset_in_sector(size, piece.at) == 0
}

// Returns true if the piece didn't fail and the flash contains its bytes.
fn went_well(failed: bool, stands: bool) -> bool
    ensures { result ≡ not failed && stands }
{
    !failed && stands
}

// Returns `Failed` for a piece that failed, else `NotVerified`, because the flash doesn't contain its bytes.
fn fault_of(failed: bool) -> WriteFault
    ensures { result ≡ (if failed then Failed else NotVerified) }
{
    if failed {
        WriteFault::Failed
    } else {
        WriteFault::NotVerified
    }
}

impl Asking {
    /// Returns the next piece to carry out: at most 256 bytes to program, or one sector to erase. If the flash has an active image now, the
    /// piece lies within the spare slot, even if the kept state was damaged. The bytes of a program are at the front of `out`.
    ///
    /// None if no write is pending, if the range of the piece is not within the spare slot, if the gate of the piece's slot is open and no
    /// image is active, or if the kept state would erase less than a sector; `out` is unchanged then. After a call returned `Asks`, the
    /// result is Some if the pieces before this one are on the flash.
    pub fn next(
        &self,
        block: &[u8],
        held: &[u8],
        flash: &[u8],
        out: &mut [u8; MAX_PROGRAM],
    ) -> Option<FlashOp>
        ensures piece { IfSome result (λ p. (w : PendingWrites) → self.now.work ≡ Some w →
            IsStepPiece (steps_in (lent self.now block.now held.now) w) w.done (step_of_piece p out.new)) }
        ensures piece_bounds { IfSome result (λ p. PieceBounds self.now.sector.size p out.new) }
        ensures sector { IfSome result (λ p. ErasesSectorOrPrograms self.now.sector.size (step_of_piece p out.new)) }
        ensures spare { IfSome result (λ p. (image : List ℕ) →
            Active (mapped_medium (grain_in (lent self.now block.now held.now)) flash.now) image →
            RangeIsInSpare (mapped_medium (grain_in (lent self.now block.now held.now)) flash.now) p.at p.len) }
        ensures inside { IfSome result (λ p. p.at + p.len ≤ length flash.now) }
        ensures due { IfSome result (λ p. (w : PendingWrites) × HasRemainingWrites (lent self.now block.now held.now) w) }
        ensures none { IfNone result ((w : PendingWrites) (p : Step) → self.now.work ≡ Some w →
            IsStepPiece (steps_in (lent self.now block.now held.now) w) w.done p →
            ErasesSectorOrPrograms self.now.sector.size p →
            IsProtectedRange (mapped_medium (grain_in (lent self.now block.now held.now)) flash.now) p.write.at (length p.write.bytes)) }
        ensures unchanged { IfNone result (out.new ≡ out.old) }
        ensures none_pending { IfNone result ((len : ℕ) (s : SlotsState) (was : List ℕ) →
            ¬ WritesPending (lent self.now block.now held.now) len s was flash.now) }
    {
        let work = self.work?;
        let mut cut = cut_at(self.inputs(block, held), work.done);
        if !next_piece(work.job, &mut cut) {
            return None;
        }
        let piece = cut.piece;
        if !is_sound(self.sector, piece) {
            return None;
        }
        if is_spare(flash, self.unit, self.sector, piece.at, piece.len as u64) {
            fill(&cut, out);
            Some(piece)
        } else {
            None
        }
    }

    /// Reports that the program carried out the piece that `next` returned, or that the piece `failed`. The call reads the piece's range
    /// back from the flash; after an erase, the whole sector must be FFh.
    ///
    /// Returns `Asks` to request the next piece, or the answer of the row, which has ended.
    ///
    /// # Errors
    ///
    /// `NoRoom` if `out` has fewer than 6 bytes; else `NoDevice` if no write is pending. Nothing changes then.
    pub fn took(
        &mut self,
        block: &[u8],
        held: &mut [u8],
        flash: &[u8],
        failed: bool,
        out: &mut [u8],
    ) -> Result<Reply, Refusal>
        requires { HasRoom self.old.unit held.old }
        ensures outcome { IfOk result
            (λ r. (len : ℕ) (s : SlotsState) (was before : List ℕ)
            (asks : WritesPending (lent self.old block.now held.old) len s was before) (p : Step) →
            IsStepPiece (steps_in (lent self.old block.now held.old) asks.work) asks.work.done p →
            Torn before p.write.at p.write.bytes flash.now →
            DevicePieceReported (device_of (lent self.old block.now held.old) s) len s was p.write failed flash.now out.old
            (lent self.new block.now held.new) out.new r) }
        ensures another_piece { IfOk result (λ r. (w : PendingWrites) (p : Step) → self.old.work ≡ Some w →
            IsStepPiece (steps_in (lent self.old block.now held.old) w) w.done p →
            (r ≡ Reply.Asks) ↔ AnotherPieceFollows (lent self.old block.now held.old) w p.write failed flash.now) }
        ensures piece_advances { IfOk result (λ r. r ≡ Reply.Asks → (w : PendingWrites) (p : Step) → self.old.work ≡ Some w →
            IsStepPiece (steps_in (lent self.old block.now held.old) w) w.done p →
            self.new.work ≡ Some (record w { done = w.done + length p.write.bytes })) }
        ensures refused { IfErr result (λ e. ReportRefusedFor e (lent self.old block.now held.old) (length out.old)) }
        ensures taken { OnOk result (ReportAccepted (lent self.old block.now held.old) (length out.old)) }
        ensures at_most_6 { IfOk result (λ r. ReplyHasAtMostBytes 6 r) }
        ensures same_config { SameConfig self.old self.new }
        ensures block { self.new.block_len ≡ self.old.block_len }
        ensures unchanged { OnErr result ((self.new ≡ self.old) × (held.new ≡ held.old) × (out.new ≡ out.old)) }
    {
        if out.len() < 6 {
            return Err(Refusal::NoRoom);
        }
        let Some(work) = self.work else {
            return Err(Refusal::NoDevice);
        };
        let (len, stands) = self.look_at(&work, block, held, flash);
        if len == 0 {
            return Err(Refusal::NoDevice);
        }
        if !went_well(failed, stands) {
            let (answer, count) = self.fail(fault_of(failed), work.asked, flash, out);
            return Ok(Reply::Answered(answer, count));
        }
        let further = PendingWrites {
            job: work.job,
            asked: work.asked,
            done: work.done + len as u32,
        };
        self.work = Some(further);
        Ok(self.advance(block, held, flash, out))
    }
}
