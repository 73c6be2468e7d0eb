//! Calls of a device that lets its program in C write the flash. `include/dfu_core.h` declares them, and `include/dfu_device.h` describes
//! them.
//!
//! Every call returns one of these numbers if it is refused, in this order: -12 if a format is pending; -2 if the configuration is not
//! allowed; -10 if the block's memory is smaller than the transfer size and a unit together; -4 if the record represents no device; -12 if
//! writes are pending; -3 if no open slot of the flash has the header that is noted in the record; -4 if the record, the block's memory or
//! the flash is not as the last call left it.
ghost use Rattle.std.specs.Prelude.{◌≡◌, ◌⊎◌, ◌<◌, [], ℕ, List, pos, length, take};
ghost use Rattle.dfu_slots.specs.Medium.{Torn};
ghost use Rattle.dfu_device.specs.Borrowed.{answer_room};
ghost use Rattle.dfu_core.specs.Board.{CoreHandle, CoreElapse, CoreReset, CoreWrite, CoreTook, core_board};
ghost use Rattle.dfu_core.specs.Config.{config_setting, transfer_of};
ghost use Rattle.dfu_core.specs.Happens.{CoreEventOutcome};
ghost use Rattle.dfu_core.specs.RecordMeaning.{with_memory};
ghost use Rattle.dfu_core.specs.Numbers.{NO_ROOM_NUMBER};
ghost use Rattle.dfu_core.specs.Writes.{ask_step, WriteHandedOut, RefusesPiece, HasNoWriteToHandOut};

use crate::tells::{NO_ROOM, kind_of, number_of, refused, room_for};
use dfu_asks::{Reply, addressed};
use dfu_core::{ASKS, CoreRefusal, DfuAsk, DfuConfig, DfuRecord, found, keep};

// Writes the device into its record after a call, and returns the number of the reply. If the call was refused, only returns the number of
// the refusal.
macro_rules! reply {
    ($asking:ident, $device:ident, $called:expr, $answered:pat => $number:expr, $refusal:pat => $refused:expr) => {
        match $called {
            Ok(Reply::Asks) => {
                keep($asking, $device);
                ASKS
            }
            Ok($answered) => {
                keep($asking, $device);
                $number
            }
            Err($refusal) => $refused,
        }
    };
}

/// Answers a setup packet with its body, as `Asking::handle` does. Returns the number of bytes of the answer, which are at the beginning of
/// `out`; -1 for a stall; or -11 if the writes of the request are pending.
///
/// Returns -5 if `out` is too small for an answer. Otherwise the refusals of every call apply.
#[unsafe(no_mangle)]
pub extern "C" fn dfu_core_handle(
    config: &DfuConfig,
    device: &mut DfuRecord,
    block: &mut [u8],
    flash: &[u8],
    setup: &[u8; 8],
    body: &[u8],
    out: &mut [u8],
) -> i32
    ensures step { CoreEventOutcome (core_board config.now device.old block.old flash.now)
        (CoreHandle setup.now body.now out.old) result out.new
        (core_board config.now device.new block.new flash.now) }
    ensures no_room { length out.old < answer_room (config_setting config.now) → result ≡ NO_ROOM_NUMBER }
{
    if out.len() < room_for(config) {
        return NO_ROOM;
    }
    find!(asking, config, device, block.len(), mut);
    let setup = addressed(config.interface, setup);
    let (front, held) = block.split_at_mut(usize::from(config.transfer));
    reply!(
        asking,
        device,
        asking.handle(front, held, flash, &setup, body, out),
        Reply::Answered(answer, count) => number_of(answer, count),
        refusal => refused(refusal).number()
    )
}

/// Reports that `ms` milliseconds passed, as `Asking::elapse` does. Returns 0, or -11 if writes are pending. The refusals of every call
/// apply.
#[unsafe(no_mangle)]
pub extern "C" fn dfu_core_elapse(
    config: &DfuConfig,
    device: &mut DfuRecord,
    block: &mut [u8],
    flash: &[u8],
    ms: u32,
) -> i32
    ensures step { CoreEventOutcome (core_board config.now device.old block.old flash.now) (CoreElapse ms) result []
        (core_board config.now device.new block.new flash.now) }
{
    find!(asking, config, device, block.len(), mut);
    let (front, held) = block.split_at_mut(usize::from(config.transfer));
    reply!(
        asking,
        device,
        asking.elapse(front, held, flash, ms),
        Reply::Answered(_, _) => 0,
        refusal => refused(refusal).number()
    )
}

/// Reports a reset of the bus, as `Asking::usb_reset` does. Returns 0. The refusals of every call apply.
#[unsafe(no_mangle)]
pub extern "C" fn dfu_core_usb_reset(
    config: &DfuConfig,
    device: &mut DfuRecord,
    block: &mut [u8],
    flash: &[u8],
) -> i32
    ensures step { CoreEventOutcome (core_board config.now device.old block.old flash.now) CoreReset result []
        (core_board config.now device.new block.new flash.now) }
{
    find!(asking, config, device, block.len(), mut);
    let (front, held) = block.split_at(usize::from(config.transfer));
    match asking.usb_reset(front, held, flash) {
        Ok(_) => {
            keep(asking, device);
            0
        }
        Err(refusal) => refused(refusal).number(),
    }
}

/// Reports, as `Asking::took` does, that the program completed the write from `dfu_core_next` or, if `failed` is not 0, that the write
/// failed. Returns -11 if another write is pending; otherwise the number of the answer to the call that required the writes, as
/// `dfu_core_handle` or `dfu_core_elapse` returns it. Only the bytes of the block's memory after the transfer size may change.
///
/// The refusals are, in this order: -5 if `out` has fewer than 6 bytes; the refusals of every call, up to the first -4; -4 if no write is
/// pending.
#[unsafe(no_mangle)]
pub extern "C" fn dfu_core_took(
    config: &DfuConfig,
    device: &mut DfuRecord,
    block: &mut [u8],
    flash: &[u8],
    failed: u32,
    out: &mut [u8],
) -> i32
    ensures step { CoreEventOutcome (core_board config.now device.old block.old flash.now) (CoreTook failed out.old) result out.new
        (core_board config.now device.new block.new flash.now) }
    ensures block { take (transfer_of config.now) block.new ≡ take (transfer_of config.now) block.old }
    ensures no_room { length out.old < 6 → result ≡ NO_ROOM_NUMBER }
{
    if out.len() < 6 {
        return NO_ROOM;
    }
    find!(asking, config, device, block.len(), mut);
    let (front, held) = block.split_at_mut(usize::from(config.transfer));
    reply!(
        asking,
        device,
        asking.took(front, held, flash, failed != 0, out),
        Reply::Answered(answer, count) => number_of(answer, count),
        _ => CoreRefusal::NoDevice.number()
    )
}

/// Stores the next write in `ask`, as `Asking::next` does. Returns 0. Nothing else changes.
///
/// The refusals of every call up to the first -4 apply. Then it returns -4 if no write is pending, if the range of the write is not in the
/// spare slot, if the gate of that slot is open and no image is active, if an erase would not cover exactly one sector, or if the flash has
/// 2^32 bytes or more. If a call returned -11 and all writes before this one are on the flash, only the last reason is possible.
#[unsafe(no_mangle)]
pub extern "C" fn dfu_core_next(
    config: &DfuConfig,
    device: &DfuRecord,
    block: &[u8],
    flash: &[u8],
    ask: &mut DfuAsk,
) -> i32
    ensures outcome { WriteHandedOut config.now device.now block.now flash.now result ask.new
        ⊎ (RefusesPiece config.now device.now block.now (λ a. HasNoWriteToHandOut (with_memory block.now a) flash.now) result
        × (ask.new ≡ ask.old)) }
    ensures step { result ≡ pos 0 → (now : List ℕ) → Torn flash.now (ask_step ask.new).write.at (ask_step ask.new).write.bytes now →
        CoreEventOutcome (core_board config.now device.now block.now flash.now) CoreWrite result []
        (core_board config.now device.now block.now now) }
{
    find!(asking, config, device, block.len());
    if flash.len() > 0xffff_ffff {
        return CoreRefusal::NoDevice.number();
    }
    let (front, held) = block.split_at(usize::from(config.transfer));
    let Some(piece) = asking.next(front, held, flash, &mut ask.bytes) else {
        return CoreRefusal::NoDevice.number();
    };
    hand_out!(piece, ask);
    0
}
