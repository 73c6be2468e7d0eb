//! Calls for a format that lets its program in C write the flash. `include/dfu_core.h` declares them, and `include/dfu_device.h` describes
//! them.
ghost use Rattle.std.specs.Prelude.{◌≡◌, ◌⊎◌, ◌==◌, not, ℕ, List, length};
ghost use Rattle.dfu_asks.specs.Formats.{FormatPending};
ghost use Rattle.dfu_core.specs.Formats.{FormatStarted, FormatStartRefused, FormatWriteHandedOut, RefusesFormat, FormatReportOutcome};

use crate::tells::{format_number, kind_of};
use dfu_asks::{FormatProgress, Formatting};
use dfu_core::{
    ASKS, DfuAsk, DfuConfig, DfuRecord, blank, formatting_of, keep_format, settings_of,
};
use dfu_slots::FormatFault;

/// Begins a format, as `Formatting::start` does. Returns -11, because its writes are pending then.
///
/// Returns -2 if the configuration is not allowed; -3 if the flash has 2^32 bytes or more; -6 if the size of the flash doesn't allow two
/// slots; -7 if the image is too long.
#[unsafe(no_mangle)]
pub extern "C" fn dfu_core_format_start(
    config: &DfuConfig,
    device: &mut DfuRecord,
    flash: &[u8],
    image: &[u8],
) -> i32
    ensures outcome { FormatStarted config.now flash.now image.now result device.new
        ⊎ (FormatStartRefused config.now flash.now image.now result × (device.new ≡ device.old)) }
{
    let Some(settings) = settings_of(config) else {
        return -2;
    };
    if flash.len() > 0xffff_ffff {
        return -3;
    }
    match Formatting::start(flash, settings.unit, settings.sector, image) {
        Ok(formatting) => {
            *device = blank();
            keep_format(&formatting, device);
            ASKS
        }
        Err(fault) => format_number(fault),
    }
}

/// Stores the next write of a format in `ask`, as `Formatting::next` does. Returns 0. Nothing else changes.
///
/// Returns -2 if the configuration is not allowed; -4 if no write of a format is pending.
#[unsafe(no_mangle)]
pub extern "C" fn dfu_core_format_next(
    config: &DfuConfig,
    device: &DfuRecord,
    flash: &[u8],
    image: &[u8],
    ask: &mut DfuAsk,
) -> i32
    ensures outcome { FormatWriteHandedOut config.now device.now flash.now image.now result ask.new
        ⊎ (RefusesFormat config.now device.now (λ f. (was : List ℕ) → ¬ FormatPending f image.now was flash.now) result
        × (ask.new ≡ ask.old)) }
{
    let Some(settings) = settings_of(config) else {
        return -2;
    };
    let Some(formatting) = formatting_of(&settings, device) else {
        return -4;
    };
    let Some(piece) = formatting.next(flash, image, &mut ask.bytes) else {
        return -4;
    };
    hand_out!(piece, ask);
    0
}

/// Reports, as `Formatting::took` does, that the program completed the write from `dfu_core_format_next` or, if `failed` is not 0, that the
/// write failed. Returns -11 if another write is pending; 0 if the image is active now; or -8 if the write failed or other bytes were read
/// back.
///
/// The refusals of `dfu_core_format_next` apply.
#[unsafe(no_mangle)]
pub extern "C" fn dfu_core_format_took(
    config: &DfuConfig,
    device: &mut DfuRecord,
    flash: &[u8],
    image: &[u8],
    failed: u32,
) -> i32
    ensures outcome { FormatReportOutcome config.now device.old flash.now image.now (not (failed == 0)) result device.new
        ⊎ (RefusesFormat config.now device.old
        (λ f. (was before : List ℕ) → length before ≡ length flash.now → ¬ FormatPending f image.now was before) result
        × (device.new ≡ device.old)) }
{
    let Some(settings) = settings_of(config) else {
        return -2;
    };
    let Some(mut formatting) = formatting_of(&settings, device) else {
        return -4;
    };
    match formatting.took(flash, image, failed != 0) {
        None => -4,
        Some(FormatProgress::Asks) => {
            keep_format(&formatting, device);
            ASKS
        }
        Some(FormatProgress::Formatted) => {
            device.work = 0;
            0
        }
        Some(FormatProgress::Broken(_)) => {
            device.work = 0;
            format_number(FormatFault::Failed)
        }
    }
}
