//! The delivery of each fate, and the result of an action.

ghost use Rattle.std.specs.Prelude.{◌≡◌};
ghost use Rattle.dfu_sim.specs.Happening.{fate_of, harm_of_fate, fate_with_refusal};
ghost use Rattle.dfu_sim.specs.Delivery.{delivery_of};
ghost use Rattle.dfu_sim.specs.inside.Acting.{delivery_of_given, harm_at};

use crate::fate::Fate;
use arrayvec::ArrayVec;
use dfu_device::{Answer, Objection};

/// Number of times that a device or a board handles a request, and the time that passes after it.
#[derive(Clone, Copy)]
pub enum Handled {
    /// The request is lost on its way to the device.
    Unseen,
    /// The device handles the request once.
    Once,
    /// The device handles the request twice.
    Again,
    /// The device handles the request, and then the given number of milliseconds passes.
    Late(u32),
}

/// Harm to one write of an action.
#[derive(Clone, Copy)]
pub(crate) enum MediumFault {
    /// No write is harmed.
    NoWrite,
    /// The power is cut at a write: that write is torn, and no later one reaches the medium.
    CutsPower,
    /// One write is torn and fails.
    FailsWrite,
    /// One write is torn, but the medium reports a success.
    LiesInWrite,
}

/// Delivery of an action: how often the device handles a request, the objection of its program to the image that the request closes,
/// whether the host gets the answer, and the harm to a write. The `writes` writes before the harmed one succeed, and `tear` holds the bytes
/// of the torn write.
#[derive(Clone, Copy)]
pub(crate) struct Delivery<'t> {
    pub(crate) handling: Handled,
    pub(crate) refusing: Option<Objection>,
    pub(crate) back: bool,
    pub(crate) harming: MediumFault,
    pub(crate) writes: u32,
    pub(crate) tear: &'t [u8],
}

/// Response to a request.
#[derive(Clone, Copy)]
pub(crate) enum Response {
    /// The device's answer.
    Answered(Answer),
    /// No response.
    Lost,
    /// A restart of the device, and no answer.
    Restarted,
}

/// Response to the last action, and a buffer for the bytes of an answer. The buffer is kept from action to action, because clearing 4,096
/// bytes for a new one costs more than a whole action.
#[derive(Drop)]
pub(crate) struct Answered {
    pub came: Response,
    pub bytes: ArrayVec<u8, 4096>,
}

/// Returns the delivery of a fate if the device's program refuses no image.
fn plain_delivery(fate: Fate<'_>) -> Delivery<'_>
    ensures delivery { delivery_of_given result ≡ delivery_of (fate_of fate.entry) }
    ensures harm { harm_at result ≡ harm_of_fate fate.entry }
{
    let (handling, back, harming, writes, tear): (_, _, _, _, &[u8]) = match fate {
        Fate::Pass => (Handled::Once, true, MediumFault::NoWrite, 0, &[]),
        Fate::LostOut => (Handled::Unseen, false, MediumFault::NoWrite, 0, &[]),
        Fate::LostBack => (Handled::Once, false, MediumFault::NoWrite, 0, &[]),
        Fate::Twice => (Handled::Again, true, MediumFault::NoWrite, 0, &[]),
        Fate::TwiceLostBack => (Handled::Again, false, MediumFault::NoWrite, 0, &[]),
        Fate::Slip(ms) => (Handled::Late(ms), true, MediumFault::NoWrite, 0, &[]),
        Fate::Cut { writes, tear } => (Handled::Once, false, MediumFault::CutsPower, writes, tear),
        Fate::Fail { writes, tear } => (Handled::Once, true, MediumFault::FailsWrite, writes, tear),
        Fate::Lie { writes, tear } => (Handled::Once, true, MediumFault::LiesInWrite, writes, tear),
    };
    Delivery {
        handling,
        refusing: None,
        back,
        harming,
        writes,
        tear,
    }
}

/// Returns the delivery of a fate. If `refusing` holds an objection, the device's program refuses the image that the action closes.
pub(crate) fn delivery_by(fate: Fate<'_>, refusing: Option<Objection>) -> Delivery<'_>
    ensures delivery { delivery_of_given result ≡ delivery_of (fate_with_refusal refusing (fate_of fate.entry)) }
    ensures harm { harm_at result ≡ harm_of_fate fate.entry }
{
    let delivery = plain_delivery(fate);
    match refusing {
        None => delivery,
        Some(objection) => Delivery {
            handling: delivery.handling,
            refusing: Some(objection),
            back: delivery.back,
            harming: delivery.harming,
            writes: delivery.writes,
            tear: delivery.tear,
        },
    }
}
