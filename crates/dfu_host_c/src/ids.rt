//! Identifiers of a device, for C.

ghost use Rattle.std.specs.Prelude.{◌≡◌};
ghost use Rattle.dfu_host_c.specs.Ids.{ids_of};

use dfu_wire::Ids;

/// `struct dfu_ids`: the identifiers of a device.
#[repr(C)]
#[derive(Drop)]
pub struct DfuIds {
    /// bcdDevice: release of the device.
    pub device: u16,
    /// idProduct: product of the device.
    pub product: u16,
    /// idVendor: vendor of the device.
    pub vendor: u16,
}

impl DfuIds {
    pub(crate) fn ids(&self) -> Ids
        ensures { result ≡ ids_of self.now }
    {
        Ids {
            device: self.device,
            product: self.product,
            vendor: self.vendor,
        }
    }
}
