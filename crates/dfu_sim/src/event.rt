//! Events of a link between a host and a device.

use crate::fate::Fate;
use dfu_device::Objection;
use dfu_host::Limits;

/// Event of a link. The bytes of a file must live as long as the session, those of a tear only as long as the event.
#[derive(Clone, Copy)]
pub enum Event<'f, 't> {
    /// Offers a whole DFU file (USB DFU 1.1, appendix B) to the device. The session that begins may spend `limits.actions` actions and
    /// survive `limits.restarts` restarts.
    Offer {
        file: &'f [u8],
        limits: Limits,
    },
    /// Offers a whole DFU file, which is installed as with `Offer`, and then compared with the device's active image after the reset. The
    /// offer is refused if the device does not upload.
    OfferVerified {
        file: &'f [u8],
        limits: Limits,
    },
    /// Begins an upload of the device's active image. The session may spend `limits.actions` actions and survive `limits.restarts`
    /// restarts.
    Upload {
        limits: Limits,
    },
    /// Aborts the live session (`Host::abort`): its host requests ABORT next, and then reports Aborted.
    Abort,
    /// The host performs its next action, with this fate.
    Go(Fate<'t>),
    /// The host performs its next action, with this fate. If the action is a request that closes a download, the device has taken at least
    /// as many bytes as the least length of an image, and the request reaches the device, then the device's program refuses the image
    /// (`Device::refuse_close`): the request is stalled, nothing is written, and the device enters dfuERROR with the code of the objection.
    /// If the request is handled twice, the program refuses it the first time. If the power is cut, the device restarts. For any other
    /// action the event is the same as `Go`.
    GoRefused {
        fate: Fate<'t>,
        objection: Objection,
    },
    /// This many milliseconds pass between two actions of the host.
    Time(u32),
    /// The bus is reset, but not by the host.
    Reset,
    /// The power is cut between two actions of the host, and restored: the device restarts.
    Cut,
    /// Between two actions of the host the device's program refuses the image of the closed download (`Device::refuse`). This works in
    /// dfuMANIFEST-SYNC before manifestation is complete, and in dfuMANIFEST. In every other state nothing changes.
    Refuse(Objection),
}
