//! Decisions that the device table consists of, and the rows of DNLOAD and UPLOAD.

ghost use Rattle.std.specs.Prelude.{◌≡◌, ◌⊎◌, ◌<◌, true, ℕ, List, [], length, take};
ghost use Rattle.dfu_slots.specs.StoreView.{SlotsState, room_of};
ghost use Rattle.dfu_device.specs.Table.{block_plan, first_plan, next_dnload_plan, upload_plan};
ghost use Rattle.dfu_device.specs.Parts.{is_put};
ghost use Rattle.dfu_device.specs.Decision.{table_profile_of, plan_of, AllowsDecision, IsPossibleDecision};

use crate::config::Profile;
use crate::decision::{Decision, Reply};
use crate::device_state::DeviceState;
use dfu_wire::{Code, Request};

/// Returns the decision that acknowledges the request and enters `mode`.
pub(crate) fn ack(mode: DeviceState) -> Decision
    ensures { result ≡ Decision.Sure Reply.Ack mode }
{
    Decision::Sure {
        reply: Reply::Ack,
        mode,
    }
}

/// Returns the decision that stalls the request and enters `mode`.
pub(crate) fn stall(mode: DeviceState) -> Decision
    ensures { result ≡ Decision.Sure Reply.Stall mode }
{
    Decision::Sure {
        reply: Reply::Stall,
        mode,
    }
}

/// Returns the decision that stalls the request and enters dfuERROR with `code`.
pub(crate) fn error(code: Code) -> Decision
    ensures { result ≡ Decision.Sure Reply.Stall (DeviceState.Error code) }
{
    stall(DeviceState::Error { code })
}

/// Returns the decision that enters `mode` and answers GETSTATUS with its status.
pub(crate) fn report(mode: DeviceState) -> Decision
    ensures { result ≡ Decision.Sure Reply.Status mode }
{
    Decision::Sure {
        reply: Reply::Status,
        mode,
    }
}

/// Returns the decision that answers GETSTATE with the state of `mode`, the current mode, and stays in this mode.
pub(crate) fn tell(mode: DeviceState) -> Decision
    ensures { result ≡ Decision.Sure Reply.State mode }
{
    Decision::Sure {
        reply: Reply::State,
        mode,
    }
}

/// Decides on a DNLOAD with wBlockNum `number` and wLength `size`, over 0, after `written` bytes; `expected` is the number of the next
/// block. Checks the errors in their order. A block without errors counts as received, but is not written yet.
fn block(profile: &Profile, written: u32, expected: u16, number: u16, size: u16) -> Decision
    ensures row { (image spare block body : List ℕ) → length (take written spare) ≡ written → length body ≡ size
        → plan_of (table_profile_of profile.now) image spare block body result
        ≡ block_plan (table_profile_of profile.now) (take written spare) expected number body }
    ensures possible { (block : ℕ) (s : SlotsState) → room_of s ≡ profile.now.capacity → 0 < size
        → (written ≡ 0) ⊎ (is_put written s ≡ true) → IsPossibleDecision profile.now.functional.transfer block size s result }
{
    if size > profile.functional.transfer {
        return error(Code::StalledPkt);
    }
    if number != expected {
        return error(Code::Address);
    }
    if u64::from(written) + u64::from(size) > profile.capacity {
        return error(Code::Address);
    }
    Decision::Holds {
        mode: DeviceState::DownloadSync {
            written,
            number: expected.wrapping_add(1),
        },
    }
}

/// Decides on a DNLOAD with wBlockNum `number` and wLength `size` in dfuIDLE. The first block has number 0.
pub(crate) fn first(profile: &Profile, number: u16, size: u16) -> Decision
    ensures row { (image spare block body : List ℕ) → length body ≡ size
        → plan_of (table_profile_of profile.now) image spare block body result ≡ first_plan (table_profile_of profile.now) number body }
    ensures possible { AllowsDecision profile.now DeviceState.DfuIdle size result }
{
    if !profile.functional.can_download || size == 0 {
        return error(Code::StalledPkt);
    }
    block(profile, 0, 0, number, size)
}

/// Decides on a DNLOAD with wBlockNum `number` and wLength `size` in dfuDNLOAD-IDLE. A wLength of 0 closes the download if the image is
/// long enough.
pub(crate) fn further(
    profile: &Profile,
    written: u32,
    expected: u16,
    number: u16,
    size: u16,
) -> Decision
    ensures row { (image spare block body : List ℕ) → length (take written spare) ≡ written → length body ≡ size
        → plan_of (table_profile_of profile.now) image spare block body result
        ≡ next_dnload_plan (table_profile_of profile.now) (take written spare) expected number body }
    ensures possible { AllowsDecision profile.now (DeviceState.DownloadIdle written expected) size result }
{
    if size > 0 {
        return block(profile, written, expected, number, size);
    }
    if written < profile.least {
        return error(Code::NotDone);
    }
    ack(DeviceState::ManifestSync { written })
}

/// Decides on an UPLOAD with wBlockNum `number` and wLength `size` after `place` bytes were sent; `expected` is the number of the next
/// block. Checks the errors in their order. Without errors the decision sends the next bytes of the image.
pub(crate) fn upload(
    profile: &Profile,
    place: u32,
    expected: u16,
    number: u16,
    size: u16,
) -> Decision
    ensures row { (image spare block body : List ℕ) → plan_of (table_profile_of profile.now) image spare block body result
        ≡ upload_plan (table_profile_of profile.now) image place expected number size }
    ensures possible { (block body : ℕ) (s : SlotsState) → IsPossibleDecision profile.now.functional.transfer block body s result }
{
    if size == 0 || size > profile.functional.transfer {
        return error(Code::StalledPkt);
    }
    if number != expected {
        return error(Code::Address);
    }
    Decision::Sends {
        place,
        size,
        number: expected.wrapping_add(1),
    }
}
