//! Configuration of a device, which a program in C provides.
ghost use Rattle.std.specs.Prelude.{◌≡◌, IfSome, IfNone, OnSome};
ghost use Rattle.dfu_core.specs.Config.{config_setting, unit_of, IsConfig};

use dfu_asks::Sector;
use dfu_device::{Config, Pace};
use dfu_slots::Unit;
use dfu_wire::{Functional, Ids};

/// Version of the library, 0.3.0: 10,000 times the major, plus 100 times the minor, plus the patch number.
pub const VERSION: u32 = 300;

/// bcdDFUVersion of every device: DFU 1.1.
const BCD_VERSION: u16 = 0x0110;

/// Configuration of a device: `struct dfu_config`. It must stay the same between two calls for a device.
#[repr(C)]
#[derive(Clone, Copy)]
pub struct DfuConfig {
    /// Version of the header with which the program was built.
    pub version: u32,
    /// bcdDevice: the release number of the device.
    pub device: u16,
    /// idProduct: the product number.
    pub product: u16,
    /// idVendor: the vendor number.
    pub vendor: u16,
    /// wDetachTimeOut: the longest time in appDETACH, in milliseconds.
    pub detach_ms: u16,
    /// wTransferSize: the largest length of a block, 1 to 4,096 bytes.
    pub transfer: u16,
    /// bmAttributes: bits 0 to 3 are bitCanDnload, bitCanUpload, bitManifestationTolerant and bitWillDetach; bits 4 to 7 are ignored.
    pub attributes: u8,
    /// bInterfaceNumber: a request with another wIndex is stalled.
    pub interface: u8,
    /// Time to write a block, without its erases and programs, in milliseconds, 0 to 16,777,215. With 0, the block is written before
    /// GETSTATUS is answered, and the status reports no time.
    pub busy_ms: u32,
    /// Time to make an image active, without its erases and programs, in milliseconds, 0 to 16,777,215; at least 1 without
    /// bitManifestationTolerant.
    pub manifest_ms: u32,
    /// Smallest length of an image, 1 to 16,777,216 bytes.
    pub least: u32,
    /// Size of the unit in which the flash is written, in bytes: 1, 16, 64 or 256.
    pub unit: u32,
    /// Size of a sector, which is erased as a whole, in bytes: a multiple of 256 up to 262,144; 0 if the flash is overwritten in place.
    pub sector: u32,
    /// Time to erase a sector, in milliseconds. The poll timeout includes it once for each sector that must be erased.
    pub erase_ms: u16,
    /// Time to program 256 bytes, in milliseconds. The poll timeout includes it in proportion to the bytes that must be programmed.
    pub program_ms: u16,
}

/// Settings from an allowed configuration.
#[derive(Drop)]
pub struct Settings {
    /// Configuration of the device, as dfu_device uses it.
    pub config: Config,
    /// Unit in which the flash is written.
    pub unit: Unit,
    /// Sectors in which the flash is erased before a write, if it has any.
    pub sector: Sector,
}

/// Returns the functional descriptor of `config`, with bcdDFUVersion 0110h.
pub fn functional_of(config: &DfuConfig) -> Functional
    ensures { result ≡ (config_setting config.now).functional }
{
    Functional::of_attributes(
        config.attributes,
        config.detach_ms,
        config.transfer,
        BCD_VERSION,
    )
}

/// Returns the unit in which the flash is written, or `Unit::Byte` if no unit has the configured size.
#[tactic(auto, unfolding(crate::specs::Config::unit_of))]
pub(crate) fn unit_of(config: &DfuConfig) -> Unit
    ensures { result ≡ unit_of config.now }
{
    if config.unit == 16 {
        Unit::U16
    } else if config.unit == 64 {
        Unit::U64
    } else if config.unit == 256 {
        Unit::U256
    } else {
        Unit::Byte
    }
}

/// Returns the settings of the configuration. Returns None if its version is not the library's, if `Config::new` refuses its numbers, or if
/// no unit or sector can have its sizes.
#[inline(never)]
pub fn settings_of(config: &DfuConfig) -> Option<Settings>
    ensures config { IfSome result (λ s. s.config ≡ config_setting config.now) }
    ensures unit { IfSome result (λ s. s.unit ≡ unit_of config.now) }
    ensures sector { IfSome result (λ s. s.sector.size ≡ config.now.sector) }
    ensures allowed { OnSome result (IsConfig config.now) }
    ensures none { IfNone result (¬ IsConfig config.now) }
{
    let unit = unit_of(config);
    if config.version != VERSION || unit.size() != config.unit {
        return None;
    }
    let sector = Sector::new(config.sector)?;
    let ids = Ids {
        device: config.device,
        product: config.product,
        vendor: config.vendor,
    };
    let functional = functional_of(config);
    match Config::new(
        ids,
        functional,
        config.least,
        config.busy_ms,
        config.manifest_ms,
    ) {
        Ok(found) => Some(Settings {
            config: found.with_pace(Pace {
                erase_ms: config.erase_ms,
                program_ms: config.program_ms,
                unit,
                sector: config.sector,
            }),
            unit,
            sector,
        }),
        Err(_) => None,
    }
}
