//! Locations of two images: the active image, which a program runs, and a downloaded image that is not installed yet.
ghost use Rattle.std.specs.Prelude.{◌≡◌, ◌⊎◌};
ghost use Rattle.dfu_core.specs.Candidate.{CandidateResult, NoCandidateResult, RefusesCandidate};
ghost use Rattle.dfu_core.specs.Power.{RefusesPower};
ghost use Rattle.dfu_core.specs.Image.{ImageResult};

use crate::tells::refused;
use dfu_asks::ImagePlace;
use dfu_core::{CoreRefusal, DfuConfig, DfuPlace, DfuRecord, found, settings_of};

/// Finds the active image in its flash. Returns 0 and stores the offset and the length of the image in `place`.
///
/// The refusals of `dfu_core_power_on` apply.
#[unsafe(no_mangle)]
pub extern "C" fn dfu_core_image(config: &DfuConfig, flash: &[u8], place: &mut DfuPlace) -> i32
    ensures outcome { ImageResult config.now flash.now result place.new
        ⊎ (RefusesPower config.now flash.now result × (place.new ≡ place.old)) }
{
    let Some(settings) = settings_of(config) else {
        return -2;
    };
    match ImagePlace::find(flash, settings.unit, settings.sector) {
        Some(found) => {
            place.at = found.at;
            place.length = found.len;
            0
        }
        None => -3,
    }
}

// Largest size of the memory for a block and the bytes that are held back.
const BLOCK_MEMORY: usize = 4096 + 256;

/// Finds the downloaded image, as `Device::candidate` does. Returns 0 and stores in `place` the offset of the image in the flash and the
/// number of its bytes there. The last `held_length` bytes of the image are held back, after the transfer size in the block's memory.
///
/// The refusals of `dfu_core_elapse` apply, except those for the block's memory, which is not passed to the call. Then it returns -20 if
/// there is no downloaded image to refuse.
#[unsafe(no_mangle)]
pub extern "C" fn dfu_core_candidate(
    config: &DfuConfig,
    device: &DfuRecord,
    flash: &[u8],
    place: &mut DfuPlace,
) -> i32
    ensures outcome { CandidateResult config.now device.now flash.now result place.new
        ⊎ ((place.new ≡ place.old) × (NoCandidateResult config.now device.now flash.now result
        ⊎ RefusesCandidate config.now device.now flash.now result)) }
{
    find!(asking, config, device, BLOCK_MEMORY);
    match asking.candidate(flash) {
        Ok(Some(found)) => {
            place.at = found.at;
            place.length = found.stored;
            0
        }
        Ok(None) => -20,
        Err(refusal) => refused(refusal).number(),
    }
}
