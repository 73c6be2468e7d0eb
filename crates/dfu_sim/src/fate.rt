//! Fates of an action of the host: a request may be lost or handled twice, the time of an action may change, or a write may be harmed.

/// Fate of one action of the host: a request, a wait or a reset of the bus. Only requests are lost or handled twice; for a wait and a reset
/// these fates are the same as `Pass`.
///
/// `Cut`, `Fail` and `Lie` harm a write of the medium in any action. The first `writes` writes of the action succeed, and the next one is
/// torn: the first bytes of its range become those of `tear`, as far as both reach, and the rest of the range keeps its old bytes. The torn
/// write fails, or with `Lie` reports a success. Only the first 4,096 bytes of `tear` are used. If the action makes no more than `writes`
/// writes, none is torn; with `Cut` the power is still cut at the end of the action.
#[derive(Clone, Copy)]
pub enum Fate<'t> {
    /// Nothing disturbs the action.
    Pass,
    /// The request is lost: the device doesn't handle it, and the host gets no answer.
    LostOut,
    /// The answer is lost: the device handles the request, and the host gets no answer.
    LostBack,
    /// The device handles the request twice, and the host gets the second answer.
    Twice,
    /// The device handles the request twice, and the host gets no answer.
    TwiceLostBack,
    /// This many milliseconds pass after a request or a reset. They replace the milliseconds of a wait.
    Slip(u32),
    /// The power is cut in the action, and restored. Neither the rest of the torn write nor any later write reaches the medium, the device
    /// restarts, and the host learns of the restart but gets no answer.
    Cut { writes: u32, tear: &'t [u8] },
    /// One write is torn and fails. All other writes succeed.
    Fail { writes: u32, tear: &'t [u8] },
    /// One write is torn but reports a success. All other writes succeed.
    Lie { writes: u32, tear: &'t [u8] },
}
