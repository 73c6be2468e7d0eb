//! The flash of a device as a medium, by the device's configuration.
ghost use Rattle.std.specs.Prelude.{◌≡◌, IfOk, OnOk, IfErr};
ghost use Rattle.dfu_asks.specs.Mapped.{grain_of as mapped_grain, mapped_medium};
ghost use Rattle.dfu_boot_c.specs.trial.Tries.{trial_medium_state, HasTriesUnitAndSector};
ghost use Rattle.dfu_boot_c.specs.home.Flash.{trial_config_of, IsFlashRefused};

use crate::trial::flash::{DfuTries, TrialRefusal, medium_of};
use dfu_asks::Mapped;
use dfu_core::DfuConfig;

// Returns the configuration of the flash as that of a trial with 0 tries.
fn trial_config_of(config: &DfuConfig) -> DfuTries
    ensures { result ≡ trial_config_of config.now }
{
    DfuTries {
        unit: config.unit,
        sector: config.sector,
        tries: 0,
    }
}

/// Returns `flash` as a medium with the write unit and the sectors of `config`.
///
/// # Errors
///
/// The first of `NoConfig`, if the configured unit or sector size is not allowed, and `NoMedium`, if the flash has 2^32 bytes or more.
pub(crate) fn medium<'f>(config: &DfuConfig, flash: &'f [u8]) -> Result<Mapped<'f>, TrialRefusal>
    ensures state { IfOk result (λ m. mapped_medium (mapped_grain m.unit m.sector) m.bytes.now ≡ trial_medium_state
        (trial_config_of config.now) flash.now) }
    ensures part { OnOk result (HasTriesUnitAndSector (trial_config_of config.now)) }
    ensures err { IfErr result (λ e. IsFlashRefused e config.now flash.now) }
{
    let part = trial_config_of(config);
    if medium_of(&part, &[]).is_none() {
        return Err(TrialRefusal::NoConfig);
    }
    match medium_of(&part, flash) {
        Some(medium) => Ok(medium),
        None => Err(TrialRefusal::NoMedium),
    }
}
