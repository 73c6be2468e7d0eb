//! A bootloader. On request it passes the events of a USB stack to a device until the application must run. It returns the device with the
//! image to start.

ghost use Rattle.std.specs.Prelude.{◌≡◌, ◌<◌, ◌↔◌, ℕ, length, take, drop, IfOk, IfErr, OnErr, IfSome, None, false};
ghost use Rattle.dfu_wire.specs.declared.states.State.TheVariants.{AppIdle};
ghost use Rattle.dfu_slots.specs.Image.{HasImage};
ghost use Rattle.dfu_slots.specs.StoreView.{image_of};
ghost use Rattle.dfu_slots.specs.Changes.{FirstOpenFault};
ghost use Rattle.dfu_device.specs.Stage.{state_of};
ghost use Rattle.dfu_device.specs.DeviceView.{powered_on_device};
ghost use Rattle.dfu_device.specs.Rows as rows;
ghost use Rattle.dfu_device.specs.Rows.{Row};

use arrayvec::ArrayVec;
use dfu_device::{Answer, Config, Device};
use dfu_slots::{Medium, OpenFault};
use dfu_wire::State;

/// DETACH with a wTimeout of 0 (USB DFU 1.1, section 5.1).
const DETACH: [u8; 8] = [0x21, 0, 0, 0, 0, 0, 0, 0];

/// Events that a USB stack reports.
#[derive(Clone, Copy, PartialEq, Eq)]
pub enum Happened {
    /// The bus was reset.
    BusReset,
    /// A control transfer to the DFU interface arrived.
    Transfer,
    /// This many milliseconds passed since the last tick.
    Tick(u32),
}

/// A control transfer: the setup packet, and the bytes of a data stage to the device. Without such a data stage the body is empty.
#[derive(Drop)]
pub struct Transfer {
    pub setup: [u8; 8],
    pub body: ArrayVec<u8, 4096>,
}

/// A USB device stack, as the bootloader uses it.
pub trait UsbDevice {
    /// Waits for the next event. A control transfer is stored in `transfer`, with its whole data stage. A data stage that doesn't fit is
    /// cut short, and the device then stalls the transfer.
    fn wait(&mut self, transfer: &mut Transfer) -> Happened;

    /// Acknowledges the last transfer in its status stage.
    fn acknowledge(&mut self);

    /// Answers the last transfer with `bytes`, which may be empty.
    fn send(&mut self, bytes: &[u8]);

    /// Stalls the last transfer.
    fn stall(&mut self);
}

/// Result of a bootloader: the device, whose slot store holds the image to start, and the length of that image.
#[derive(Drop)]
pub struct Start<M: Medium> {
    /// The device. `load` copies the image to start from its slot store.
    pub device: Device<M>,
    /// Length of the image to start, in bytes.
    pub len: u32,
}

/// Passes an event to a device, and returns the device's answer. `setup` and `body` are read only for a transfer. For any other event the
/// answer is `Ack`, and `out` is empty.
pub fn tell<M: Medium>(
    device: &mut Device<M>,
    happened: Happened,
    setup: &[u8; 8],
    body: &[u8],
    out: &mut ArrayVec<u8, 4096>,
) -> Answer
    ensures reset { happened ≡ Happened.BusReset → Row device.old rows.BusReset result out.new.items device.new }
    ensures transfer { happened ≡ Happened.Transfer →
        Row device.old (rows.Transfer setup.now body.now) result out.new.items device.new }
    ensures tick { (ms : ℕ) → happened ≡ Happened.Tick ms → Row device.old (rows.Passing ms) result out.new.items device.new }
{
    out.clear();
    match happened {
        Happened::BusReset => device.usb_reset(),
        Happened::Tick(ms) => device.elapse(ms),
        Happened::Transfer => return device.handle(setup, body, out),
    }
    Answer::Ack
}

/// Passes a DETACH and a bus reset to a device, which start its upgrade, and then passes the events of `usb` to the device until it is in
/// appIDLE again.
pub fn serve<M: Medium, U: UsbDevice>(device: &mut Device<M>, usb: &mut U)
    ensures { state_of device.new.stage ≡ AppIdle }
{
    let mut transfer = Transfer {
        setup: DETACH,
        body: ArrayVec::new(),
    };
    let mut out = ArrayVec::new();
    device.handle(&DETACH, &[], &mut out);
    device.usb_reset();
    for _ in 0..u64::MAX {
        let happened = usb.wait(&mut transfer);
        let answer = tell(
            device,
            happened,
            &transfer.setup,
            transfer.body.as_slice(),
            &mut out,
        );
        if happened == Happened::Transfer {
            match answer {
                Answer::Ack => usb.acknowledge(),
                Answer::Bytes => usb.send(out.as_slice()),
                Answer::Stall => usb.stall(),
            }
        }
        if device.state() == State::AppIdle {
            return;
        }
    }
    // No stack reports 2^64 - 1 events; if one did, the upgrade would end as at a power cut.
    device.restart();
}

/// Powers a device on. If `stays` is true, for example because a button is pressed, the call passes the events of `usb` to the device until
/// the application must run; otherwise it returns at once.
///
/// # Errors
///
/// The faults of `Device::power_on`, in the order of that function: the medium has no active image. The medium is returned unchanged, and
/// no event of `usb` is read.
pub fn boot<M: Medium, U: UsbDevice>(
    config: Config,
    medium: M,
    usb: &mut U,
    stays: bool,
) -> Result<Start<M>, (OpenFault, M)>
    ensures state { IfOk result (λ start. state_of start.device.stage ≡ AppIdle) }
    ensures at_once { IfOk result (λ start. stays ≡ false → start.device ≡ powered_on_device config (M.state medium)) }
    ensures has_image { IfOk result (λ start. HasImage start.device.slots.medium) }
    ensures len { IfOk result (λ start. start.len ≡ length (image_of start.device.slots)) }
    ensures err { IfErr result (λ e. (e.1 ≡ medium) × FirstOpenFault e.0 (M.state medium)) }
    ensures refused { OnErr result (¬ HasImage (M.state medium)) }
{
    let mut device = Device::power_on(config, medium)?;
    if !stays {
        return Ok(start_of_image(device));
    }
    serve(&mut device, usb);
    Ok(start_of_image(device))
}

fn start_of_image<M: Medium>(device: Device<M>) -> Start<M>
    ensures device { result.device ≡ device }
    ensures has_image { HasImage device.slots.medium }
    ensures len { result.len ≡ length (image_of device.slots) }
{
    let len = device.slots().active_len();
    Start { device, len }
}

/// Copies the image to start to the front of `ram`, and returns its length in bytes. Returns None, and copies nothing, if `ram` is shorter
/// than the image.
pub fn load<M: Medium>(device: &Device<M>, ram: &mut [u8]) -> Option<usize>
    ensures image { IfSome result (λ len. take len ram.new ≡ image_of device.now.slots) }
    ensures len { IfSome result (λ len. len ≡ length (image_of device.now.slots)) }
    ensures rest { IfSome result (λ len. drop len ram.new ≡ drop len ram.old) }
    ensures small { (result ≡ None) ↔ (length ram.old < length (image_of device.now.slots)) }
    ensures kept { result ≡ None → ram.new ≡ ram.old }
{
    let len = device.slots().active_len() as usize;
    if ram.len() < len {
        return None;
    }
    device.slots().read_active(0, &mut ram[..len]);
    Some(len)
}
