//! Fields of a DfuSe file, as a record for C.

ghost use Rattle.std.specs.Prelude.{◌≡◌, ◌⊎◌, pos};
ghost use Rattle.dfu_host_c.specs.dfuse.Files.{file_record, setting_number, HasFileRecord, IsNoDfuSe};

use crate::refusals::HostRefusal;
use dfu_formats::dfuse::{File, read};

/// `struct dfuse_file`: the fields of a DfuSe file. The header explains each number.
#[repr(C)]
#[derive(Drop)]
pub struct DfuseFile {
    /// Number of targets, 1 to 255.
    pub targets: u32,
    /// Alternate setting of all targets, 0 to 255; 256 if the targets have several.
    pub setting: u32,
    /// bcdDevice: release of the device.
    pub device: u16,
    /// idProduct: product of the device.
    pub product: u16,
    /// idVendor: vendor of the device.
    pub vendor: u16,
}

/// Returns the number of the setting that all targets share; 256 if they have several.
fn setting_number(setting: Option<u8>) -> u32
    ensures { result ≡ setting_number setting }
{
    match setting {
        Some(number) => u32::from(number),
        None => 256,
    }
}

fn file_record(file: &File<'_>) -> DfuseFile
    ensures { result ≡ file_record file.now }
{
    let ids = file.ids();
    DfuseFile {
        targets: u32::from(file.targets().len()),
        setting: setting_number(file.setting()),
        device: ids.device,
        product: ids.product,
        vendor: ids.vendor,
    }
}

/// Reads the DfuSe file `file` into `out`. Returns 0, or the number of its first fault.
#[unsafe(no_mangle)]
pub extern "C" fn dfuse_read_file(file: &[u8], out: &mut DfuseFile) -> i32
    ensures outcome { ((result ≡ pos 0) × HasFileRecord file.now out.new) ⊎ (IsNoDfuSe file.now result × (out.new ≡ out.old)) }
{
    match read(file) {
        Ok(read) => {
            *out = file_record(&read);
            0
        }
        Err(fault) => HostRefusal::DfuseFile(fault).number(),
    }
}
