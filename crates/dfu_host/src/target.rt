//! Match between a file's identifiers and a device's.

ghost use Rattle.std.specs.Prelude.{◌≡◌};
ghost use Rattle.dfu_host.specs.Download as download;

use dfu_wire::Ids;

/// Vendor or product in a file that is for the devices of every vendor or with every product.
const ANY: u16 = 0xffff;

/// Returns true if a file with the identifiers `file` is for `device`: its vendor is the device's or FFFFh, and so is its product.
pub(crate) fn is_for(file: Ids, device: Ids) -> bool
    ensures { result ≡ download.file_is_for file device }
{
    goes_with(file.vendor, device.vendor) && goes_with(file.product, device.product)
}

/// Returns true if `file`, an identifier from a file, is FFFFh or equals `device`, the device's identifier.
fn goes_with(file: u16, device: u16) -> bool
    ensures { result ≡ download.id_fits_device file device }
{
    file == ANY || file == device
}
