//! Start of an image on a medium.
ghost use Rattle.std.specs.Prelude.{◌≡◌, ◌<◌, OnOk, OnErr, IfOk, IfErr};
ghost use Rattle.dfu_slots.specs.Medium.Fuse.{Whole};
ghost use Rattle.dfu_slots.specs.Image.{HasImage};
ghost use Rattle.dfu_slots.specs.Changes.{FirstOpenFault};
ghost use Rattle.dfu_boot.specs.trial.Marks.{AreTries};
ghost use Rattle.dfu_boot.specs.trial.Calls.{IsStanding};
ghost use Rattle.dfu_boot.specs.trial.Laws.{HasBooted};
ghost use Rattle.dfu_boot.specs.declared.trial.standing.Trial.{Trial};
ghost use Rattle.dfu_boot.specs.declared.trial.standing.Standing.TheVariants.{OnTrial};

use crate::trial::look;
use dfu_slots::{Medium, OpenFault};

/// Chooses the image to start, carries out the operation that must come first, and returns the offset of the slot to run. Even if the
/// operation fails, some image is active afterwards, and one of the two images runs. On a medium without failures, the image on trial runs
/// as long as a try is left.
///
/// # Errors
///
/// The errors of `check` of dfu_slots: the medium has no active image. The medium is unchanged then.
pub fn boot<M: Medium>(medium: &mut M, tries: u32) -> Result<u32, OpenFault>
    requires tries { AreTries (M.state medium.old).grain tries }
    ensures booted { IfOk result (λ slot. HasBooted (M.state medium.old) tries (M.state medium.new) slot) }
    ensures tried { IfOk result (λ slot. (t : Trial) → IsStanding (M.state medium.old) tries (OnTrial t) → t.starts < tries →
        (M.state medium.old).fuse ≡ Whole → slot ≡ t.slot) }
    ensures image { OnOk result (HasImage (M.state medium.new)) }
    ensures fault { IfErr result (λ fault. FirstOpenFault fault (M.state medium.old)) }
    ensures unchanged { OnErr result (M.state medium.new ≡ M.state medium.old) }
{
    let standing = look(medium, tries)?;
    let starting = standing.start(medium, tries);
    match starting.operation {
        None => Ok(starting.slot),
        Some(operation) => {
            // The result is ignored, because `runs` reads the mark.
            let _ = operation.carry_out(medium);
            Ok(starting.runs(medium))
        }
    }
}
