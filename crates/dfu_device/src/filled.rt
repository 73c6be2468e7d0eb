//! Checks that a mode agrees with the bytes that were put into a slot store.

ghost use Rattle.std.specs.Prelude.{◌≡◌, ◌^◌, ◌<◌, ◌+◌, ◌==◌, ◌&&◌, ◌||◌, nat_lt, nat_le};
ghost use Rattle.dfu_slots.specs.StoreView.{SlotsState, room_of, is_begun};
ghost use Rattle.dfu_device.specs.Parts.{is_filled};

use crate::device_state::DeviceState;

/// Facts about a slot store that determine which modes agree with it.
#[derive(Clone, Copy)]
pub struct PutSoFar {
    /// Largest length of an image, in bytes.
    pub room: u32,
    /// True if the gate of the spare slot is closed.
    pub begun: bool,
    /// Number of bytes put into the spare slot.
    pub end: u32,
}

// Returns true if the spare slot is closed and exactly `written` bytes were put into it.
fn is_put(seen: PutSoFar, written: u32) -> bool
    ensures { result ≡ (seen.begun && (seen.end == written)) }
{
    seen.begun && seen.end == written
}

// Returns true if the spare slot is closed, exactly `written` bytes were put into it, and `written` is from 1 to `seen.room`.
fn is_written(seen: PutSoFar, written: u32) -> bool
    ensures { result ≡ (nat_lt 0 written && (nat_le written seen.room && (seen.begun && (seen.end == written)))) }
{
    0 < written && written <= seen.room && is_put(seen, written)
}

// Returns true if a block of `block` bytes is not empty and fits after the `written` bytes, and these bytes, if any, were put.
fn is_next(seen: PutSoFar, written: u32, block: usize) -> bool
    requires { block < 2 ^ 32 }
    ensures { result ≡ (nat_lt 0 block && (nat_le (written + block) seen.room && ((written == 0) || (seen.begun && (seen.end == written))))) }
{
    0 < block
        && u64::from(written) + block as u64 <= u64::from(seen.room)
        && (written == 0 || is_put(seen, written))
}

/// Returns true if `mode`, with an unwritten block of `block` bytes, agrees with the bytes that were put into the slot store.
pub fn is_filled(seen: PutSoFar, mode: DeviceState, block: usize) -> bool
    requires { block < 2 ^ 32 }
    ensures { (s : SlotsState) → seen.room ≡ room_of s → seen.begun ≡ is_begun s → seen.end ≡ s.put_end →
        result ≡ is_filled mode block s }
{
    match mode {
        DeviceState::DownloadSync { written, .. } | DeviceState::DownloadBusy { written, .. } => {
            is_next(seen, written, block)
        }
        DeviceState::DownloadSyncWritten { written, .. }
        | DeviceState::DownloadIdle { written, .. }
        | DeviceState::ManifestSync { written }
        | DeviceState::Manifest { written, .. } => is_written(seen, written),
        _ => true,
    }
}
