//! Standing of the images of a flash, with the write unit, sectors and tries that a program in C configured; and refusals of a
//! configuration or a flash.
ghost use Rattle.std.specs.Prelude.{◌≡◌, ◌≤◌, ◌^◌, ℕ, List, IfSome, IfNone, IfOk, OnOk, IfErr, length};
ghost use Rattle.dfu_asks.specs.Mapped.{grain_of as mapped_grain, mapped_medium};
ghost use Rattle.dfu_boot.specs.trial.Marks.{AreTries};
ghost use Rattle.dfu_boot_c.specs.trial.Numbers.{trial_refusal_number};
ghost use Rattle.dfu_boot_c.specs.trial.Tries.{unit_of_at_most, grain_of_tries, trial_medium_state, HasTriesUnitAndSector, HasStanding, IsTrialRefused};

use dfu_asks::Mapped;
use dfu_boot::trial::{Standing, TriesFault, check_tries, look};
use dfu_slots::Unit;
use dfu_slots::laws::active_image_is_one;

/// Configuration of the flash, and the number of tries of a new image: `struct dfu_tries`.
#[repr(C)]
#[derive(Drop)]
pub struct DfuTries {
    /// Number of bytes that are programmed at a time: 1, 16, 64 or 256.
    pub unit: u32,
    /// Number of bytes that are erased at a time: a multiple of 256 up to 262,144, not 0.
    pub sector: u32,
    /// Number of starts of a new image before the confirmed image becomes active again: 2 or more. A sector must have room for (tries + 2)
    /// units of at least 16 bytes.
    pub tries: u32,
}

/// Returns the largest write unit of at most `size` bytes; one byte for 0. The function uses `<`, because LLVM replaces tests for equality
/// with powers of two by a count of zero bits.
#[inline(never)]
#[tactic(auto, unfolding(crate::specs::trial::Tries::unit_of_at_most))]
pub(crate) fn unit_of_at_most(size: u32) -> Unit
    ensures { result ≡ unit_of_at_most size }
{
    if size < 16 {
        Unit::Byte
    } else if size < 64 {
        Unit::U16
    } else if size < 256 {
        Unit::U64
    } else {
        Unit::U256
    }
}

/// Reasons for which a call is refused. A refused call changes nothing.
#[derive(Clone, Copy, Drop)]
pub enum TrialRefusal {
    /// The unit or sector size is not allowed.
    NoConfig,
    /// The number of tries is refused: there are no sectors, or the tries are too few or too many.
    Tries(TriesFault),
    /// The flash has no active image, or 2^32 bytes or more.
    NoMedium,
}

impl TrialRefusal {
    /// Returns the number of the refusal, which is negative.
    pub(crate) fn number(self) -> i32
        ensures { result ≡ trial_refusal_number self }
    {
        match self {
            TrialRefusal::NoConfig => -2,
            TrialRefusal::Tries(TriesFault::NoSectors) => -16,
            TrialRefusal::Tries(TriesFault::TooFew) => -17,
            TrialRefusal::Tries(TriesFault::TooMany) => -18,
            TrialRefusal::NoMedium => -3,
        }
    }
}

/// Medium of a flash, and standing of its images.
#[derive(Drop)]
pub(crate) struct Flash<'f> {
    pub(crate) medium: Mapped<'f>,
    pub(crate) standing: Standing,
}

/// Returns `flash` as a medium, or None if the unit or sector size is not allowed, or if the flash has 2^32 bytes or more.
pub(crate) fn medium_of<'f>(tries: &DfuTries, flash: &'f [u8]) -> Option<Mapped<'f>>
    ensures state { IfSome result (λ m. mapped_medium (mapped_grain m.unit m.sector) m.bytes.now ≡ trial_medium_state tries.now flash.now) }
    ensures part { IfSome result (λ m. HasTriesUnitAndSector tries.now) }
    ensures none { IfNone result (HasTriesUnitAndSector tries.now → 2 ^ 32 ≤ length flash.now) }
{
    let unit = unit_of_at_most(tries.unit);
    if unit.size() != tries.unit {
        return None;
    }
    Mapped::with_sectors(flash, unit, tries.sector)
}

// Returns the refusal of the configuration or of its number of tries; None if both are allowed.
fn refused(tries: &DfuTries) -> Option<TrialRefusal>
    ensures some { IfSome result (λ e. (flash : List ℕ) → IsTrialRefused e tries.now flash) }
    ensures none { IfNone result (HasTriesUnitAndSector tries.now × AreTries (grain_of_tries tries.now) tries.now.tries) }
{
    let Some(sizes) = medium_of(tries, &[]) else {
        return Some(TrialRefusal::NoConfig);
    };
    match check_tries(&sizes, tries.tries) {
        Ok(()) => None,
        Err(fault) => Some(TrialRefusal::Tries(fault)),
    }
}

/// Returns `flash` as a medium that allows the given number of tries.
///
/// # Errors
///
/// The first refusal that applies, in the order of `TrialRefusal`.
pub(crate) fn prepared<'f>(tries: &DfuTries, flash: &'f [u8]) -> Result<Mapped<'f>, TrialRefusal>
    ensures state { IfOk result (λ m. mapped_medium (mapped_grain m.unit m.sector) m.bytes.now ≡ trial_medium_state tries.now flash.now) }
    ensures part { OnOk result (HasTriesUnitAndSector tries.now) }
    ensures tries { OnOk result (AreTries (grain_of_tries tries.now) tries.now.tries) }
    ensures err { IfErr result (λ e. IsTrialRefused e tries.now flash.now) }
{
    if let Some(refusal) = refused(tries) {
        return Err(refusal);
    }
    match medium_of(tries, flash) {
        Some(medium) => Ok(medium),
        None => Err(TrialRefusal::NoMedium),
    }
}

/// Returns the standing of the images of `flash`, which it reads as `look` does.
///
/// # Errors
///
/// The first refusal that applies, in the order of `TrialRefusal`.
pub(crate) fn looked<'f>(tries: &DfuTries, flash: &'f [u8]) -> Result<Flash<'f>, TrialRefusal>
    ensures state { IfOk result (λ l. mapped_medium (mapped_grain l.medium.unit l.medium.sector) l.medium.bytes.now
        ≡ trial_medium_state tries.now flash.now) }
    ensures ok { IfOk result (λ l. HasStanding tries.now flash.now l.standing) }
    ensures err { IfErr result (λ e. IsTrialRefused e tries.now flash.now) }
{
    let medium = prepared(tries, flash)?;
    match look(&medium, tries.tries) {
        Ok(standing) => Ok(Flash { medium, standing }),
        Err(_) => {
            // The proof uses the clause `refused` of this call: a medium that can't be opened has no active image.
            active_image_is_one();
            Err(TrialRefusal::NoMedium)
        }
    }
}
