//! The time after which the state of a device changes without a request.
ghost use Rattle.std.specs.Prelude.{◌≡◌, ◌-◌, ◌<◌, max, ℕ, List, IfSome, IfNone};
ghost use Rattle.dfu_device.specs.DeviceView.{DeviceView};
ghost use Rattle.dfu_device.specs.Rows.{Elapses};
ghost use Rattle.dfu_asks.specs.Asks.{device_in};
ghost use Rattle.dfu_asks.specs.Lent.{lent};
ghost use Rattle.dfu_asks.specs.Refused.{IsDeviceOn};
ghost use Rattle.dfu_asks.specs.Times.{due_of, ChangesOnceDue};

use crate::Asking;
use dfu_device::{Config, DeviceState, poll_ms};

// Returns the milliseconds that are left until `limit`, at least 1.
fn left(limit: u32, passed: u32) -> u32
    ensures { result ≡ max 1 (limit - passed) }
{
    limit.saturating_sub(passed).max(1)
}

/// Returns the number of milliseconds, at least 1, after which the state of a device with `config` in `mode` changes, with a block of
/// `block_len` bytes; None if no time changes it.
pub fn mode_due(config: &Config, mode: DeviceState, block_len: usize) -> Option<u32>
    ensures some { IfSome result (λ ms. ms ≡ due_of config.now mode block_len) }
    ensures least { IfSome result (λ ms. 0 < ms) }
    ensures none { IfNone result (due_of config.now mode block_len ≡ 0) }
{
    match mode {
        DeviceState::AppDetach { timer, passed } => {
            if config.functional().will_detach {
                return Some(1);
            }
            Some(left(timer, passed))
        }
        DeviceState::DownloadBusy { passed, .. } => {
            Some(left(poll_ms(config, mode, block_len), passed))
        }
        DeviceState::Manifest { passed, .. } => {
            Some(left(poll_ms(config, mode, block_len), passed))
        }
        _ => None,
    }
}

impl Asking {
    /// Returns the number of milliseconds, at least 1, after which `elapse` changes the state. Fewer milliseconds don't change it; that
    /// many or more do. In appDETACH, it is the rest of wDetachTimeOut or of the host's time, whichever is less, or 1 with bitWillDetach
    /// (USB DFU 1.1, section 5.1). In dfuDNBUSY and dfuMANIFEST, it is the rest of the time that the device told the host to wait (section
    /// 6.1.2, bwPollTimeout).
    ///
    /// None in every other state, because no time changes it.
    pub fn due(&self) -> Option<u32>
        ensures some { IfSome result (λ due. (block held flash : List ℕ) (ms : ℕ) (d' : DeviceView)
            → IsDeviceOn self.now block held flash → Elapses ms (device_in (lent self.now block held) flash) d'
            → ChangesOnceDue due ms (device_in (lent self.now block held) flash) d') }
        ensures least { IfSome result (λ due. 0 < due) }
        ensures none { IfNone result ((block held flash : List ℕ) (ms : ℕ) (d' : DeviceView)
            → IsDeviceOn self.now block held flash → Elapses ms (device_in (lent self.now block held) flash) d'
            → d' ≡ device_in (lent self.now block held) flash) }
        ensures time { IfSome result (λ due. due ≡ due_of self.now.config self.now.mode self.now.block_len) }
    {
        mode_due(&self.config, self.mode, self.block_len)
    }
}
