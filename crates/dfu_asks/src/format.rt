//! The calls of a format that requests its writes from the caller.
ghost use Rattle.std.specs.Prelude.{◌≡◌, ◌≢◌, ◌+◌, ◌++◌, ◌≤◌, ◌^◌, ◌<◌, ℕ, List, [], not, IsTrue, length, IfOk, IfErr, OnOk, IfSome, IfNone};
ghost use Rattle.dfu_suffix.specs.Register.{register};
ghost use Rattle.dfu_slots.specs.Units.{Grain};
ghost use Rattle.dfu_slots.specs.Medium.{Torn};
ghost use Rattle.dfu_slots.specs.Changes.{CanFormat, IsFormatFault};
ghost use Rattle.dfu_asks.specs.Mapped.{grain_of, mapped_medium};
ghost use Rattle.dfu_asks.specs.Steps.{Step, step_writes};
ghost use Rattle.dfu_asks.specs.Carried.{total, IsStepPiece, ErasesSectorOrPrograms};
ghost use Rattle.dfu_asks.specs.Jobs.{step_of_piece, PieceBounds};
ghost use Rattle.dfu_asks.specs.Cuts.{step_of_cut, IsFoundPiece};
ghost use Rattle.dfu_asks.specs.Phases.{format_grain, steps_of_part, remaining_steps, part_steps, format_steps_from};
ghost use Rattle.dfu_asks.specs.Formats.{FormatUnderWay, FormatPending, FormatOutcome, FormatPieceReported, IsSameFormat};
ghost use Rattle.dfu_asks.specs.FormatFurther.{FormatAdvancedBy, FormatPieceAdvances};

use crate::cut::{Cut, cut_at, fill, stands};
use crate::format_piece::{filled_len, inputs_for, part_piece};
use crate::next_and_took::is_sound;
use crate::{FlashOp, FormatProgress, FormatStep, Formatting, MAX_PROGRAM, Mapped, Sector};
use dfu_slots::{FormatFault, Unit, WriteFault, capacity_of, is_sized};
use dfu_suffix::Crc;

// Largest number of bytes of an image: 16 MiB.
const MOST_IMAGE: usize = 0x100_0000;

// Number of bytes of the image in each part of the format.
const PART: usize = 4096;

// Returns the CRC register over an image.
fn register_of(image: &[u8]) -> u32
    ensures { result ≡ register image.now }
{
    let mut crc = Crc::new();
    crc.update_small(image);
    crc.value()
}

// Returns the first fault that prevents a format of this flash with this image, if there is one.
fn fault_of(flash: &[u8], unit: Unit, sector: Sector, image: &[u8]) -> Option<FormatFault>
    ensures some { IfSome result (λ e. (e ≢ FormatFault.Failed)
        × IsFormatFault e (mapped_medium (grain_of unit sector) flash.now) image.now) }
    ensures none { IfNone result (CanFormat (mapped_medium (grain_of unit sector) flash.now) image.now) }
{
    let Some(medium) = Mapped::with_sector(flash, unit, sector) else {
        return Some(FormatFault::WrongSize);
    };
    if !is_sized(&medium) {
        return Some(FormatFault::WrongSize);
    }
    if image.len() > capacity_of(&medium) as usize {
        return Some(FormatFault::TooLarge);
    }
    None
}

// Returns the part that follows `phase` when a medium is formatted with an image of `len` bytes.
fn part_after(phase: FormatStep, unit: Unit, len: usize) -> FormatStep
    requires { len ≤ 2 ^ 24 }
    ensures parts { (w : Grain) (size crc : ℕ) (image : List ℕ) → w.unit ≡ unit → length image ≡ len →
        format_steps_from w size image crc phase ≡ part_steps w size image crc phase ++ format_steps_from w size image crc result }
    ensures some { (w : Grain) (size crc : ℕ) (image : List ℕ) → w.unit ≡ unit → length image ≡ len → result ≢ FormatStep.Ended →
        0 < total (step_writes (part_steps w size image crc result)) }
{
    match phase {
        FormatStep::CloseSecond => FormatStep::CloseFirst,
        FormatStep::CloseFirst => {
            if len == 0 {
                FormatStep::Header
            } else {
                FormatStep::Image { from: 0 }
            }
        }
        FormatStep::Image { from } => {
            // Adding in 64 bits keeps a damaged `from` from wrapping on a processor with a 32-bit usize.
            let next = from as u64 + PART as u64;
            if next < filled_len(unit, len) as u64 {
                FormatStep::Image { from: next as u32 }
            } else {
                FormatStep::Header
            }
        }
        FormatStep::Header => FormatStep::Gate,
        FormatStep::Gate => FormatStep::Ended,
        FormatStep::Ended => FormatStep::Ended,
    }
}

impl Formatting {
    /// Begins a format that writes `image` into the first slot of `flash` and makes it the active image. The old contents of the flash
    /// don't matter.
    ///
    /// # Errors
    ///
    /// `WrongSize` if `Slots::format` would reject the size of the flash, or the flash has 2^32 bytes or more; `TooLarge` if the image has
    /// more bytes than a slot's data. They are checked in this order.
    pub fn start(
        flash: &[u8],
        unit: Unit,
        sector: Sector,
        image: &[u8],
    ) -> Result<Formatting, FormatFault>
        ensures asks { IfOk result (λ f. FormatPending f image.now flash.now flash.now) }
        ensures set { IfOk result (λ f. (f.unit ≡ unit) × (f.sector ≡ sector)) }
        ensures fault { IfErr result (λ e. (e ≢ FormatFault.Failed)
            × IsFormatFault e (mapped_medium (grain_of unit sector) flash.now) image.now) }
    {
        if let Some(fault) = fault_of(flash, unit, sector, image) {
            return Err(fault);
        }
        Ok(Formatting {
            unit,
            sector,
            register: register_of(image),
            phase: FormatStep::CloseSecond,
            done: 0,
        })
    }

    // Returns true if a piece of the current part is left; `cut` then contains the next piece.
    fn due(&self, flash: &[u8], cut: &mut Cut<'_>) -> bool
        requires held { cut.old.inputs.held.now ≡ [] }
        requires unit { cut.old.inputs.unit ≡ self.now.unit }
        requires sector { cut.old.inputs.sector ≡ self.now.sector }
        ensures found { IsTrue result →
            IsStepPiece (steps_of_part self.now (length flash.now) cut.old.inputs.block.now) cut.old.rest (step_of_cut cut.new) }
        ensures found_piece { IsTrue result → IsFoundPiece self.now.sector.size cut.new }
        ensures end { IsTrue result → cut.old.rest + cut.new.piece.len ≤ 2 ^ 21 }
        ensures flash { IsTrue result → length flash.now < 2 ^ 32 }
        ensures image { IsTrue result → length cut.old.inputs.block.now ≤ 2 ^ 24 }
        ensures none { IsTrue (not result) → length flash.now < 2 ^ 32 → length cut.old.inputs.block.now ≤ 2 ^ 24 →
            total (step_writes (steps_of_part self.now (length flash.now) cut.old.inputs.block.now)) ≤ cut.old.rest }
    {
        if flash.len() > 0xffff_ffff || cut.inputs.block.len() > MOST_IMAGE {
            return false;
        }
        part_piece(self, flash.len(), cut)
    }

    /// Returns the next piece to carry out: at most 256 bytes to program, or one sector to erase. The piece lies within the flash, even if
    /// the kept state was damaged. The bytes of a program are at the front of `out`. `image` must be the image with which the format began.
    ///
    /// None if no write is pending, if the range of the piece is not within the flash, or if the kept state would erase less than a sector;
    /// `out` is unchanged then. After `start` or `took` requested a write, the result is Some if the pieces before this one are on the
    /// flash.
    pub fn next(&self, flash: &[u8], image: &[u8], out: &mut [u8; MAX_PROGRAM]) -> Option<FlashOp>
        ensures piece { IfSome result (λ p. IsStepPiece (remaining_steps self.now (length flash.now) image.now) self.now.done
            (step_of_piece p out.new)) }
        ensures piece_bounds { IfSome result (λ p. PieceBounds self.now.sector.size p out.new) }
        ensures sector { IfSome result (λ p. ErasesSectorOrPrograms self.now.sector.size (step_of_piece p out.new)) }
        ensures within { IfSome result (λ p. (p.at + p.len ≤ length flash.now) × (length flash.now < 2 ^ 32)) }
        ensures unchanged { IfNone result (out.new ≡ out.old) }
        ensures none_pending { IfNone result ((was : List ℕ) → ¬ FormatPending self.now image.now was flash.now) }
    {
        let mut cut = cut_at(inputs_for(self, image), self.done);
        if !self.due(flash, &mut cut) {
            return None;
        }
        let piece = cut.piece;
        if !is_sound(self.sector, piece) {
            return None;
        }
        if piece.at + piece.len as u64 > flash.len() as u64 {
            return None;
        }
        fill(&cut, out);
        Some(piece)
    }

    /// Reports that the program carried out the piece that `next` returned, or that the piece `failed`. The call reads the piece's range
    /// back from the flash; after an erase, the whole sector must be FFh.
    ///
    /// None if no write is pending. Nothing changes then.
    pub fn took(&mut self, flash: &[u8], image: &[u8], failed: bool) -> Option<FormatProgress>
        ensures outcome { IfSome result (λ r. (was before : List ℕ) → FormatPending self.old image.now was before → (p : Step) →
            IsStepPiece (remaining_steps self.old (length was) image.now) self.old.done p → Torn before p.write.at p.write.bytes flash.now →
            FormatPieceReported self.old self.new image.now was flash.now p.write failed r) }
        ensures piece_advances { IfSome result (λ r. FormatPieceAdvances self.old (length flash.now) image.now r self.new) }
        ensures same_format { IfSome result (λ r. IsSameFormat self.old self.new) }
        ensures ended { IfSome result (λ r. r ≢ FormatProgress.Asks → self.new.phase ≡ FormatStep.Ended) }
        ensures taken { IfNone result ((was before : List ℕ) → length before ≡ length flash.now
            → ¬ FormatPending self.old image.now was before) }
        ensures unchanged { IfNone result (self.new ≡ self.old) }
    {
        let mut cut = cut_at(inputs_for(self, image), self.done);
        if !self.due(flash, &mut cut) {
            return None;
        }
        if failed {
            self.phase = FormatStep::Ended;
            return Some(FormatProgress::Broken(WriteFault::Failed));
        }
        if !stands(flash, &cut) {
            self.phase = FormatStep::Ended;
            return Some(FormatProgress::Broken(WriteFault::NotVerified));
        }
        self.done += cut.piece.len as u32;
        Some(self.advance(flash.len(), image))
    }

    // Requests the next piece of the current part, or ends the part if none is left. The flash has `size` bytes.
    fn advance(&mut self, size: usize, image: &[u8]) -> FormatProgress
        requires flash { size < 2 ^ 32 }
        requires image { length image.now ≤ 2 ^ 24 }
        ensures outcome { (was flash : List ℕ) → length was ≡ size → FormatUnderWay self.old image.now was flash →
            self.old.done ≤ total (step_writes (steps_of_part self.old (length was) image.now)) →
            FormatOutcome (format_grain self.old) self.new image.now was flash result }
        ensures piece_follows { result ≡ FormatProgress.Asks → self.old.done ≤ total (step_writes (steps_of_part self.old size image.now)) →
            FormatAdvancedBy self.old self.new size image.now 0 }
        ensures same_format { IsSameFormat self.old self.new }
        ensures ended { result ≢ FormatProgress.Asks → self.new.phase ≡ FormatStep.Ended }
    {
        let mut cut = cut_at(inputs_for(self, image), self.done);
        if part_piece(self, size, &mut cut) {
            return FormatProgress::Asks;
        }
        self.go_on(image)
    }

    // Begins the next part after a complete part, or ends the format after the last part.
    fn go_on(&mut self, image: &[u8]) -> FormatProgress
        requires { length image.now ≤ 2 ^ 24 }
        ensures outcome { (was flash : List ℕ) → FormatUnderWay self.old image.now was flash →
            self.old.done ≡ total (step_writes (steps_of_part self.old (length was) image.now)) →
            FormatOutcome (format_grain self.old) self.new image.now was flash result }
        ensures piece_follows { (size : ℕ) → result ≡ FormatProgress.Asks →
            self.old.done ≡ total (step_writes (steps_of_part self.old size image.now))
            → FormatAdvancedBy self.old self.new size image.now 0 }
        ensures same_format { IsSameFormat self.old self.new }
        ensures ended { result ≢ FormatProgress.Asks → self.new.phase ≡ FormatStep.Ended }
    {
        let behind = part_after(self.phase, self.unit, image.len());
        self.phase = behind;
        self.done = 0;
        match behind {
            FormatStep::Ended => FormatProgress::Formatted,
            _ => FormatProgress::Asks,
        }
    }
}
