//! Settings before the first event line, `show` or `expect`.

ghost use Rattle.std.specs.Prelude.{◌≡◌, OnOk, IfErr};
ghost use Rattle.dfu_link.specs.LineContent.{config_line_of, given_bytes};
ghost use Rattle.dfu_link.specs.ScriptRun.{settings_with, initial_settings};
ghost use Rattle.dfu_link.specs.inside.SetupView.{settings_of, check_bytes};

use crate::scripting::fault::ScriptFault;
use crate::scripting::line::{ConfigLine, Room, Sector};
use crate::scripting::starting::bytes_of;
use dfu_host::Limits;
use dfu_slots::Unit;
use dfu_wire::{Functional, Ids};
use std::alloc::Global;

/// For each of these settings, the number of the last line that sets it, or 0 if no line does.
#[derive(Clone, Copy)]
pub(crate) struct SetLines {
    pub device: u32,
    pub unit: u32,
    pub sector: u32,
    pub capacity: u32,
    pub image: u32,
}

/// Settings of a script: the numbers that `Config::new` takes, the unit in which the medium is written and the sectors in which it is
/// erased, the milliseconds of an erase and of a program of 256 bytes, the largest number of bytes of an image, the image at the start (the
/// byte 00 if None), the first bytes of each image that the program accepts (None accepts every image), the limits of sessions, the bytes
/// that FILE stands for, and the numbers of the lines that set values.
#[derive(Drop)]
pub(crate) struct ScriptConfig<'g> {
    pub ids: Ids,
    pub functional: Functional,
    pub least: u32,
    pub busy_ms: u32,
    pub manifest_ms: u32,
    pub unit: Unit,
    pub sector: Sector,
    pub erase_ms: u16,
    pub program_ms: u16,
    pub room: Room,
    pub image: Option<Vec<u8>>,
    pub check: Option<Vec<u8>>,
    pub limits: Limits,
    pub given: Option<&'g [u8]>,
    pub lines: SetLines,
}

/// Returns the settings of a script without configuration lines.
pub(crate) fn beginning(given: Option<&[u8]>) -> ScriptConfig<'_>
    ensures { settings_of result ≡ initial_settings (given_bytes given.entry) }
{
    ScriptConfig {
        ids: Ids {
            device: 0x0100,
            product: 0x0001,
            vendor: 0x1209,
        },
        functional: Functional::of_attributes(0x07, 255, 8, 0x0110),
        least: 1,
        busy_ms: 5,
        manifest_ms: 10,
        unit: Unit::Byte,
        sector: Sector { bytes: 0 },
        erase_ms: 0,
        program_ms: 0,
        room: Room { bytes: 64 },
        image: None,
        check: None,
        limits: Limits {
            actions: 1_000_000,
            restarts: 0,
        },
        given,
        lines: SetLines {
            device: 0,
            unit: 0,
            sector: 0,
            capacity: 0,
            image: 0,
        },
    }
}

/// Sets the values of the configuration line `setting`, whose number is `number`, in `setup`. Allocates memory for an image and for the
/// bytes of a check.
pub(crate) fn set(
    alloc: Global,
    setup: &mut ScriptConfig<'_>,
    setting: ConfigLine<'_>,
    number: u32,
) -> Result<(), ScriptFault>
    ensures ok { OnOk result (settings_of setup.new ≡ settings_with (settings_of setup.old) (config_line_of setting.entry)) }
    ensures fault { IfErr result (λ f. f ≡ ScriptFault.NoMemory) }
{
    match setting {
        ConfigLine::Ids(ids) => setup.ids = ids,
        ConfigLine::Device {
            functional,
            least,
            busy_ms,
            manifest_ms,
        } => {
            setup.functional = functional;
            setup.least = least;
            setup.busy_ms = busy_ms;
            setup.manifest_ms = manifest_ms;
            setup.lines.device = number;
        }
        ConfigLine::Unit(unit) => (setup.unit, setup.lines.unit) = (unit, number),
        ConfigLine::Erase(sector) => (setup.sector, setup.lines.sector) = (sector, number),
        ConfigLine::Pace {
            erase_ms,
            program_ms,
        } => (setup.erase_ms, setup.program_ms) = (erase_ms, program_ms),
        ConfigLine::Capacity(room) => (setup.room, setup.lines.capacity) = (room, number),
        ConfigLine::Image(text) => {
            setup.image = Some(bytes_of(alloc, text)?);
            setup.lines.image = number;
        }
        ConfigLine::Check(text) => setup.check = Some(bytes_of(alloc, text)?),
    }
    Ok(())
}

/// Sets the limits of the sessions that begin later.
pub(crate) fn set_limits(setup: &mut ScriptConfig<'_>, limits: Limits)
    ensures { settings_of setup.new ≡ record (settings_of setup.old) { limits = limits } }
{
    setup.limits = limits;
}

/// Returns the first bytes of each image that the program accepts; empty if it accepts every image.
pub(crate) fn check_in<'s>(setup: &'s ScriptConfig<'_>) -> &'s [u8]
    ensures { result.now ≡ check_bytes setup.now.check }
{
    match &setup.check {
        Some(front) => front,
        None => &[],
    }
}
