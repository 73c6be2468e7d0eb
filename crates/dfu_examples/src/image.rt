//! Installs an image in one piece, and restarts a device.

ghost use Rattle.std.specs.Prelude.{◌≡◌, ◌⊎◌, ◌≤◌, length, OnOk, OnErr};
ghost use Rattle.dfu_slots.specs.StoreView.{image_of, store_on};
ghost use Rattle.dfu_device.specs.Stage.{InAppIdle};

use dfu_device::Device;
use dfu_slots::{Medium, PutFault, Slots};

/// Installs `image`, at most 4,096 bytes, in `slots`. After an error the active image is the whole old one or the whole new one.
pub fn install<M: Medium>(slots: &mut Slots<M>, image: &[u8]) -> Result<(), PutFault>
    requires { length image.now ≤ 4096 }
    ensures installed { OnOk result (image_of slots.new ≡ image.now) }
    ensures old_or_new { OnErr result (
        (image_of slots.new ≡ image_of slots.old) ⊎ (image_of slots.new ≡ image.now)) }
{
    slots.begin()?;
    slots.put(0, image)?;
    slots.commit(image.len() as u32)
}

/// Restarts a device as a power cut does. Power-on never fails, because the medium has an active image. Bytes that were put but not
/// committed are lost.
pub fn restarted<M: Medium>(device: Device<M>) -> Device<M>
    ensures { result ≡ record { config = device.config; slots = store_on device.slots.medium; stage = InAppIdle } }
{
    let config = device.config();
    match Device::power_on(config, device.into_medium()) {
        Ok(device) => device,
        Err(_) => unreachable!(),
    }
}
