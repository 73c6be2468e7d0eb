//! A flashing tool: it performs the actions of a host until the session is over.

ghost use Rattle.std.specs.Prelude.{◌≡◌};
ghost use Rattle.dfu_host.specs.Host.{Act};
ghost use Rattle.dfu_host.specs.Budget.{remaining_results};

use dfu_host::{Action, Host, Report, Seen};

/// A USB host stack that has the interface of a device open.
pub trait UsbHost {
    /// Makes a control transfer to the interface, and returns its result: `Ack`; `Stall`; if the first byte of `setup` is A1h, the `Bytes`
    /// received, at most wLength; `Nothing` if the transfer failed or timed out; or `Restarted` if the device left the bus and returned in
    /// the meantime.
    fn transfer(&mut self, setup: &[u8; 8], body: &[u8]) -> Seen<'_>;

    /// Waits for at least `ms` milliseconds.
    fn wait(&mut self, ms: u32);

    /// Resets the bus, and opens the interface of the device that is connected afterwards.
    fn reset(&mut self);
}

/// Performs the session of `host` to its end, and returns the host's report.
pub fn flash<U: UsbHost>(host: &mut Host<'_>, usb: &mut U) -> Report
    ensures report { Act host.new (Action.Done result) }
    ensures over { remaining_results host.new ≡ 0 }
{
    loop {
        match host.next() {
            Action::Done(report) => return report,
            Action::Send { setup, body } => host.take(usb.transfer(&setup, body)),
            Action::Wait(ms) => {
                usb.wait(ms);
                host.take(Seen::Waited);
            }
            Action::Reset => {
                usb.reset();
                host.take(Seen::WasReset);
            }
        }
    }
}
