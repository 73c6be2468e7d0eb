//! Start of a script's device, on a medium that is formatted with its image.

ghost use Rattle.std.specs.Prelude.{◌≡◌, ◌≢◌, ◌<◌, ◌+◌, ◌*◌, ◌%◌, IfOk, IfErr, true, false};
ghost use Rattle.dfu_slots.specs.Units.{gate_room, IsMultiple};
ghost use Rattle.dfu_device.specs.Setting.{IsFirstFault, IsAllowedSetting, functional_of_this_version};
ghost use Rattle.dfu_link.specs.LineContent.{hex_bytes};
ghost use Rattle.dfu_link.specs.ScriptRun.{DeviceStarts};
ghost use Rattle.dfu_link.specs.Falls.{StartFails};
ghost use Rattle.dfu_link.specs.inside.Moving.{IsUnarmed};
ghost use Rattle.dfu_link.specs.inside.SetupView.{setting_of_device, settings_of, setup_grain, image_bytes, pace_of};
ghost use Rattle.dfu_link.specs.inside.Forming.{FormattedStore, FormatFails};

use crate::scripting::fault::{Reason, ScriptFault, Stopped};
use crate::scripting::line::{HexText, Room, Sector};
use crate::scripting::script_config::ScriptConfig;
use crate::scripting::setup_fault::{line_of_fault, setup_fault};
use crate::scripting::words::is_word;
use dfu_device::{Config, ConfigFault, Device, Pace};
use dfu_slots::{FormatFault, SimMedium, Slots, Unit};
use std::alloc::Global;

/// Returns the bytes of a hexadecimal text.
pub(crate) fn bytes_of(alloc: Global, text: HexText<'_>) -> Result<Vec<u8>, ScriptFault>
    ensures ok { IfOk result (λ v. v.items ≡ hex_bytes text.entry) }
    ensures fault { IfErr result (λ f. f ≡ ScriptFault.NoMemory) }
{
    if is_word(text.text, b"-") {
        return Ok(Vec::new(alloc));
    }
    match hex::decode(alloc, text.text) {
        Ok(bytes) => Ok(bytes),
        Err(_) => Err(ScriptFault::NoMemory),
    }
}

/// Returns the image of the device at the start.
pub(crate) fn first_image<'s>(setup: &'s ScriptConfig<'_>) -> &'s [u8]
    ensures { result.now ≡ image_bytes setup.now.image }
{
    match &setup.image {
        Some(image) => image,
        None => &[0],
    }
}

/// Returns the length in bytes of a medium of two slots, each with a gate, a header and `room` bytes for an image.
fn medium_len(unit: Unit, sector: Sector, room: Room) -> u32
    ensures value { result ≡ 2 * (2 * gate_room (setup_grain unit sector) + room.bytes) }
    ensures whole { IsMultiple unit room.bytes → IsMultiple unit result }
{
    2 * (2 * unit.size().max(16).max(sector.bytes) + room.bytes)
}

/// Returns true if the medium has sectors and the room is not a multiple of a sector.
pub(crate) fn cuts_sector(sector: Sector, room: Room) -> bool
    ensures cuts { result ≡ true → (0 < sector.bytes) × (room.bytes % sector.bytes ≢ 0) }
    ensures whole { result ≡ false → 0 < sector.bytes → room.bytes % sector.bytes ≡ 0 }
{
    sector.bytes > 0 && room.bytes % sector.bytes != 0
}

/// Makes a medium in memory, formatted with the image. Returns BadConfig if the room is not a multiple of the unit or of the sector, or if
/// the image is longer than the room.
fn form(
    alloc: Global,
    unit: Unit,
    sector: Sector,
    room: Room,
    image: &[u8],
) -> Result<Slots<SimMedium>, ScriptFault>
    ensures ok { IfOk result (λ slots. FormattedStore (setup_grain unit sector) room.bytes image.now slots) }
    ensures fault { IfErr result (λ f. FormatFails (setup_grain unit sector) room.bytes image.now f) }
{
    if room.bytes % unit.size() != 0 {
        return Err(ScriptFault::BadConfig);
    }
    if cuts_sector(sector, room) {
        return Err(ScriptFault::BadConfig);
    }
    let len = medium_len(unit, sector, room);
    let Ok(medium) = SimMedium::with_sectors(alloc, len, unit, sector.bytes) else {
        return Err(ScriptFault::NoMemory);
    };
    match Slots::format(medium, image) {
        Ok(slots) => Ok(slots),
        Err((fault, spoilt)) => match fault {
            FormatFault::TooLarge => Err(ScriptFault::BadConfig),
            FormatFault::WrongSize => unreachable!(),
            FormatFault::Failed => unreachable!(),
        },
    }
}

/// Returns the pace of the device's flash: its times, its unit and its sectors.
fn pace_of(setup: &ScriptConfig<'_>) -> Pace
    ensures { result ≡ pace_of setup.now }
{
    Pace {
        erase_ms: setup.erase_ms,
        program_ms: setup.program_ms,
        unit: setup.unit,
        sector: setup.sector.bytes,
    }
}

/// Returns the configuration of the device, or the first fault of its settings.
pub(crate) fn device_config(setup: &ScriptConfig<'_>) -> Result<Config, ConfigFault>
    ensures ok { IfOk result (λ c. c ≡ record (setting_of_device setup.now) { functional = functional_of_this_version setup.now.functional }) }
    ensures allowed { IfOk result (λ c. IsAllowedSetting c) }
    ensures err { IfErr result (λ e. IsFirstFault e (setting_of_device setup.now)) }
{
    let config = Config::new(
        setup.ids,
        setup.functional,
        setup.least,
        setup.busy_ms,
        setup.manifest_ms,
    )?;
    Ok(config.with_pace(pace_of(setup)))
}

/// Starts the device, in appIDLE on a formatted medium in memory.
fn start_device(alloc: Global, setup: &ScriptConfig<'_>) -> Result<Device<SimMedium>, ScriptFault>
    ensures ok { IfOk result (λ d. DeviceStarts (settings_of setup.now) d) }
    ensures unarmed { IfOk result (λ d. IsUnarmed d) }
    ensures fault { IfErr result (λ f. StartFails (settings_of setup.now) f) }
{
    let Ok(config) = device_config(setup) else {
        return Err(ScriptFault::BadConfig);
    };
    let slots = form(
        alloc,
        setup.unit,
        setup.sector,
        setup.room,
        first_image(setup),
    )?;
    Ok(Device::start(config, slots))
}

/// Starts the device, in appIDLE on a formatted medium in memory. If the settings have a fault, the reason is stored in `stopped`.
pub(crate) fn start(
    alloc: Global,
    setup: &ScriptConfig<'_>,
    stopped: &Stopped,
) -> Result<Device<SimMedium>, ScriptFault>
    ensures ok { IfOk result (λ d. DeviceStarts (settings_of setup.now) d) }
    ensures unarmed { IfOk result (λ d. IsUnarmed d) }
    ensures fault { IfErr result (λ f. StartFails (settings_of setup.now) f) }
{
    if let Some(fault) = setup_fault(setup) {
        stopped.note_reason(Reason::Setup(fault, line_of_fault(setup, fault)));
    }
    start_device(alloc, setup)
}
