//! Standing of the images on a medium, as `look` finds it.
ghost use Rattle.std.specs.Prelude.{OnOk, IfOk, IfErr};
ghost use Rattle.dfu_slots.specs.Image.{HasImage};
ghost use Rattle.dfu_slots.specs.Changes.{FirstOpenFault};
ghost use Rattle.dfu_boot.specs.trial.Marks.{AreTries};
ghost use Rattle.dfu_boot.specs.trial.Calls.{IsStanding};

use crate::trial::marks::{is_set, starts};
use crate::trial::{Settled, Standing, Trial};
use dfu_slots::{Medium, OpenFault, check_both};

/// Finds the standing of the images on a medium. Reads each image once, as `check` of dfu_slots does.
///
/// # Errors
///
/// The errors of `check`: the medium has no active image.
pub fn look<M: Medium>(medium: &M, tries: u32) -> Result<Standing, OpenFault>
    requires tries { AreTries (M.state medium.now).grain tries }
    ensures standing { IfOk result (λ s. IsStanding (M.state medium.now) tries s) }
    ensures image { OnOk result (HasImage (M.state medium.now)) }
    ensures fault { IfErr result (λ fault. FirstOpenFault fault (M.state medium.now)) }
{
    let both = check_both(medium)?;
    let slot = both.places.active;
    let base = both.places.spare;
    let is_confirmed = is_set(medium, slot, 0);
    if !is_confirmed && is_set(medium, base, 0) {
        if let Some(_) = both.spare_len {
            return Ok(Standing::OnTrial(Trial {
                slot,
                base,
                starts: starts(medium, tries, slot),
            }));
        }
    }
    Ok(Standing::Settled(Settled { slot, is_confirmed }))
}
