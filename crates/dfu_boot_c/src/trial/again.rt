//! Start of an image by the standing from an earlier `dfu_core_trial_look`.
ghost use Rattle.std.specs.Prelude.{◌≡◌, ◌⊎◌, IfOk, OnOk, IfErr};
ghost use Rattle.dfu_asks.specs.Mapped.{grain_of as mapped_grain, mapped_medium};
ghost use Rattle.dfu_boot.specs.trial.Marks.{AreTries};
ghost use Rattle.dfu_boot.specs.trial.Again.{MatchesMedium, ImagesAreWhole};
ghost use Rattle.dfu_boot_c.specs.trial.Tries.{grain_of_tries, trial_medium_state, HasTriesUnitAndSector, HasStanding, IsTrialRefused};
ghost use Rattle.dfu_boot_c.specs.trial.Again.{base_of_trial};
ghost use Rattle.dfu_boot_c.specs.trial.TrialCalls.{RefusesTrial, TrialStartResult};

use crate::trial::flash::{DfuTries, Flash, TrialRefusal, looked, prepared};
use crate::trial::told::{DfuStanding, DfuStarting, starting_told, write_ask};
use dfu_boot::trial::look_again;
use dfu_core::DfuAsk;

// Returns the offset of the confirmed image, which becomes active again if the trial fails; None if no image is on trial.
fn base_of_trial(standing: &DfuStanding) -> Option<u32>
    ensures { result ≡ base_of_trial standing.now }
{
    if standing.on_trial == 0 {
        None
    } else {
        Some(standing.base.at)
    }
}

// Returns the standing of the flash's images: the earlier one if it still matches the flash, else the one that `look` finds now.
fn standing_from_earlier_look<'f>(
    tries: &DfuTries,
    flash: &'f [u8],
    standing: &DfuStanding,
) -> Result<Flash<'f>, TrialRefusal>
    ensures state { IfOk result (λ l. mapped_medium (mapped_grain l.medium.unit l.medium.sector) l.medium.bytes.now
        ≡ trial_medium_state tries.now flash.now) }
    ensures tries { OnOk result (AreTries (grain_of_tries tries.now) tries.now.tries) }
    ensures matches_medium { IfOk result (λ l. MatchesMedium (trial_medium_state tries.now flash.now) tries.now.tries l.standing) }
    ensures stands { IfOk result (λ l. ImagesAreWhole (trial_medium_state tries.now flash.now) standing.now.active.at (base_of_trial standing.now) →
        HasStanding tries.now flash.now l.standing) }
    ensures err { IfErr result (λ e. IsTrialRefused e tries.now flash.now) }
{
    let medium = prepared(tries, flash)?;
    let base = base_of_trial(standing);
    match look_again(&medium, tries.tries, standing.active.at, base) {
        Some(standing) => Ok(Flash { medium, standing }),
        None => looked(tries, flash),
    }
}

// Writes the image that starts into `told`, by an earlier standing, and the operation before the start into `ask`. Returns the same number
// as `dfu_core_trial_start`.
#[inline(never)]
pub(crate) fn start_from(
    tries: &DfuTries,
    flash: &[u8],
    standing: &DfuStanding,
    ask: &mut DfuAsk,
    told: &mut DfuStarting,
) -> i32
    ensures outcome { ImagesAreWhole (trial_medium_state tries.now flash.now) standing.now.active.at (base_of_trial standing.now) →
        TrialStartResult tries.now flash.now result ask.old ask.new told.new
        ⊎ (RefusesTrial tries.now flash.now result × (ask.new ≡ ask.old) × (told.new ≡ told.old)) }
{
    match standing_from_earlier_look(tries, flash, standing) {
        Ok(looked) => {
            let starts = looked.standing.start(&looked.medium, tries.tries);
            *told = starting_told(&looked.medium, starts);
            write_ask(starts.operation, tries.sector, ask)
        }
        Err(refusal) => refusal.number(),
    }
}

/// Writes the image that starts into `told`, as `dfu_core_trial_start` does, by a standing from `dfu_core_trial_look`. The call reads
/// gates, headers and marks, but no image. It relies on the standing only for the fact that the images are whole, and reads everything else
/// about the slots from the flash. If the standing does not match the flash, the call reads the images again.
///
/// Refused like `dfu_core_trial_look`.
#[unsafe(no_mangle)]
pub extern "C" fn dfu_core_trial_start_from(
    tries: &DfuTries,
    flash: &[u8],
    standing: &DfuStanding,
    ask: &mut DfuAsk,
    told: &mut DfuStarting,
) -> i32
    ensures outcome { ImagesAreWhole (trial_medium_state tries.now flash.now) standing.now.active.at (base_of_trial standing.now) →
        TrialStartResult tries.now flash.now result ask.old ask.new told.new
        ⊎ (RefusesTrial tries.now flash.now result × (ask.new ≡ ask.old) × (told.new ≡ told.old)) }
{
    start_from(tries, flash, standing, ask, told)
}
