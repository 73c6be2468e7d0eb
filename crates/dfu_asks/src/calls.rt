//! The calls of a device that requests its flash writes from the caller.
ghost use Rattle.std.specs.Prelude.{◌≡◌, ◌≢◌, ◌≤◌, ℕ, List, [], length, replicate, IfOk, IfErr, OnOk, OnErr, IsErrOf, IfSome, IfNone, IsSome, Some, None};
ghost use Rattle.dfu_device.specs.Rows.{Handles, Elapses};
ghost use Rattle.dfu_device.specs.Table.{reset_stage};
ghost use Rattle.dfu_device.specs.Parts.{stage_of};
ghost use Rattle.dfu_device.specs.Stage.{state_of, code_of};
ghost use Rattle.dfu_device.specs.Borrowed.{answer_room};
ghost use Rattle.dfu_device.specs.declared.answer.Answer.TheVariants.{Ack};
ghost use Rattle.dfu_asks.specs.declared.pending_writes.PendingWrites.{PendingWrites};
ghost use Rattle.dfu_asks.specs.Mapped.{grain_of, mapped_medium};
ghost use Rattle.dfu_asks.specs.Noted.{IsNoteView};
ghost use Rattle.dfu_asks.specs.Lent.{lent, HasRoom, SameConfig};
ghost use Rattle.dfu_asks.specs.Asks.{device_in, IsDevice};
ghost use Rattle.dfu_asks.specs.Calls.{DeviceCalled, ReplyHasAtMostBytes};
ghost use Rattle.dfu_asks.specs.Refused.{IsDeviceOn, NotedHeaderIsOnFlash, RoomForBlocks, IsRefusedCall, ServedCallFacts};
ghost use Rattle.dfu_asks.specs.Addressed.{addressed_setup};

use crate::noted::{View, look};
use crate::{Asking, Mapped, Refusal, Reply};
use dfu_device::{asked_row, decide_time};
use dfu_wire::{Code, State};

/// Returns `setup` rewritten for a device whose interface has number `interface` (bInterfaceNumber). wIndex of the result is 0 if wIndex of
/// `setup` is `interface` (USB DFU 1.1, section 3). Otherwise it isn't 0, so that the device stalls the request and its state is unchanged.
/// A program whose interface is not number 0 must pass each setup through this call before it passes the setup to `handle`, `closes`,
/// `would_stall`, `too_long` or `refuse_close`.
pub fn addressed(interface: u8, setup: &[u8; 8]) -> [u8; 8]
    ensures { result ≡ addressed_setup interface setup.now }
{
    let mut own = *setup;
    own[4] = u8::from(setup[4] != interface);
    own
}

impl Asking {
    /// Returns the device's state, as the standard names it (USB DFU 1.1, section 6.1.2, bState).
    pub fn state(&self) -> State
        ensures { (spare block : List ℕ) → result ≡ state_of (stage_of self.now.mode spare block) }
    {
        self.mode.state()
    }

    /// Returns the device's status code (USB DFU 1.1, section 6.1.2, bStatus).
    pub fn code(&self) -> Code
        ensures { (spare block : List ℕ) → result ≡ code_of (stage_of self.now.mode spare block) }
    {
        self.mode.code()
    }

    // Returns the flash as a medium, and the view of this medium, if the kept fields can be those of a device on this flash.
    fn see<'f>(&self, room: usize, flash: &'f [u8]) -> Result<(Mapped<'f>, View), Refusal>
        ensures medium { IfOk result (λ r. (r.0.unit ≡ self.now.unit) × (r.0.sector ≡ self.now.sector) × (r.0.bytes.now ≡ flash.now)) }
        ensures view { IfOk result (λ r. IsNoteView r.1 self.now.noted (mapped_medium (grain_of self.now.unit self.now.sector) flash.now)) }
        ensures there { OnOk result (NotedHeaderIsOnFlash self.now flash.now) }
        ensures block_fits { OnOk result (RoomForBlocks self.now room) }
        ensures end { IfOk result (λ r. self.now.put_end ≤ r.1.room) }
        ensures held { IfOk result (λ r. self.now.held_len ≤ self.now.put_end) }
        ensures no_medium { IfErr result (λ e. e ≡ Refusal.NoMedium → ¬ NotedHeaderIsOnFlash self.now flash.now) }
        ensures no_device { IfErr result (λ e. e ≢ Refusal.NoMedium → (e ≡ Refusal.NoDevice) × NotedHeaderIsOnFlash self.now flash.now
            × ((block held : List ℕ) → length block ≡ room → HasRoom self.now.unit held → ¬ IsDeviceOn self.now block held flash.now)) }
    {
        let Some(medium) = Mapped::with_sector(flash, self.unit, self.sector) else {
            return Err(Refusal::NoMedium);
        };
        let Some(view) = look(&medium, &self.noted) else {
            return Err(Refusal::NoMedium);
        };
        if !self.kept_fields_fit(room, &medium, &view) {
            return Err(Refusal::NoDevice);
        }
        Ok((medium, view))
    }

    // Answers a setup and its body as `asked_row` decides. If flash must be written for this, returns `Asks` to request the first write.
    fn respond(
        &mut self,
        block: &mut [u8],
        held: &mut [u8],
        medium: &Mapped<'_>,
        view: &View,
        setup: &[u8; 8],
        body: &[u8],
        out: &mut [u8],
    ) -> Reply
        requires room { answer_room self.old.config ≤ length out.old }
        requires unit { medium.now.unit ≡ self.old.unit }
        requires sector { medium.now.sector ≡ self.old.sector }
        requires view { IsNoteView view.now self.old.noted (mapped_medium (grain_of self.old.unit self.old.sector) medium.now.bytes.now) }
        requires idle { self.old.work ≡ None }
        requires block { self.old.block_len ≤ length block.old }
        requires end { self.old.put_end ≤ view.now.room }
        requires held { self.old.held_len ≤ self.old.put_end }
        requires memory { HasRoom self.old.unit held.old }
        ensures outcome { let a = lent self.old block.old held.old in
            let flash = medium.now.bytes.now in IsDeviceOn self.old block.old held.old flash →
            DeviceCalled a flash out.old (λ d x sent d'. Handles setup.now body.now d x sent d')
            (lent self.new block.new held.new) out.new result }
        ensures nothing_done_yet { result ≡ Reply.Asks → (w : PendingWrites) × (self.new.work ≡ Some w) × (w.done ≡ 0) }
        ensures at_most_65535 { ReplyHasAtMostBytes 65535 result }
        ensures same_config { SameConfig self.old self.new }
        ensures block_fits { self.new.block_len ≤ length block.new }
    {
        let profile = self.config.profile(u64::from(view.room));
        let (decision, asked) = asked_row(&profile, self.mode, setup, body);
        self.carry_out(decision, Some(asked), body, block, held, medium, view, out)
    }

    /// Answers `setup` and its `body` as `Device::handle` does. If flash must be written for this, returns `Asks` to request the first
    /// write instead.
    ///
    /// # Errors
    ///
    /// `Asked` if writes are pending; `NoRoom` if `out` has less room than an answer may need, which is 6 bytes or the transfer size,
    /// whichever is more; `NoMedium` if the noted slot of the flash is not open or doesn't have the noted header; `NoDevice` if the kept
    /// state is not a device on the flash, or `block` has less room than the transfer size. They are checked in this order, and nothing
    /// changes if one is returned.
    pub fn handle(
        &mut self,
        block: &mut [u8],
        held: &mut [u8],
        flash: &[u8],
        setup: &[u8; 8],
        body: &[u8],
        out: &mut [u8],
    ) -> Result<Reply, Refusal>
        requires { HasRoom self.old.unit held.old }
        ensures outcome { let a = lent self.old block.old held.old in IfOk result (λ r. IsDeviceOn self.old block.old held.old flash.now →
            DeviceCalled a flash.now out.old (λ d x sent d'. Handles setup.now body.now d x sent d')
            (lent self.new block.new held.new) out.new r) }
        ensures nothing_done_yet { IfOk result (λ r. r ≡ Reply.Asks → (w : PendingWrites) × (self.new.work ≡ Some w) × (w.done ≡ 0)) }
        ensures served { OnOk result (ServedCallFacts self.old block.old flash.now (answer_room self.old.config) (length out.old)) }
        ensures refused { IfErr result (λ e.
            IsRefusedCall e self.old block.old held.old flash.now (answer_room self.old.config) (length out.old)) }
        ensures asked { IsSome self.old.work → IsErrOf result Refusal.Asked }
        ensures at_most_65535 { IfOk result (λ r. ReplyHasAtMostBytes 65535 r) }
        ensures same_config { SameConfig self.old self.new }
        ensures block_fits { OnOk result (RoomForBlocks self.new (length block.new)) }
        ensures unchanged { OnErr result ((self.new ≡ self.old) × (block.new ≡ block.old) × (held.new ≡ held.old) × (out.new ≡ out.old)) }
    {
        if self.work.is_some() {
            return Err(Refusal::Asked);
        }
        if out.len() < usize::from(self.config.functional().transfer).max(6) {
            return Err(Refusal::NoRoom);
        }
        let (medium, view) = self.see(block.len(), flash)?;
        Ok(self.respond(block, held, &medium, &view, setup, body, out))
    }

    /// Lets `ms` milliseconds elapse, as `Device::elapse` does. If flash must be written for this, returns `Asks` to request the first
    /// write instead.
    ///
    /// # Errors
    ///
    /// The errors of `handle`, except `NoRoom`.
    pub fn elapse(
        &mut self,
        block: &mut [u8],
        held: &mut [u8],
        flash: &[u8],
        ms: u32,
    ) -> Result<Reply, Refusal>
        requires { HasRoom self.old.unit held.old }
        ensures outcome { let a = lent self.old block.old held.old in IfOk result (λ r. IsDeviceOn self.old block.old held.old flash.now →
            (out : List ℕ) × DeviceCalled a flash.now (replicate 6 0)
            (λ d x sent d'. (x ≡ Ack) × (sent ≡ []) × Elapses ms d d')
            (lent self.new block.new held.new) out r) }
        ensures nothing_done_yet { IfOk result (λ r. r ≡ Reply.Asks → (w : PendingWrites) × (self.new.work ≡ Some w) × (w.done ≡ 0)) }
        ensures served { OnOk result (ServedCallFacts self.old block.old flash.now 0 0) }
        ensures refused { IfErr result (λ e. IsRefusedCall e self.old block.old held.old flash.now 0 0) }
        ensures asked { IsSome self.old.work → IsErrOf result Refusal.Asked }
        ensures same_config { SameConfig self.old self.new }
        ensures block_fits { OnOk result (RoomForBlocks self.new (length block.new)) }
        ensures unchanged { OnErr result ((self.new ≡ self.old) × (block.new ≡ block.old) × (held.new ≡ held.old)) }
    {
        if self.work.is_some() {
            return Err(Refusal::Asked);
        }
        let (medium, view) = self.see(block.len(), flash)?;
        let profile = self.config.profile(u64::from(view.room));
        let decision = decide_time(&profile, self.mode, self.block_len, ms);
        let mut out = [0; 6];
        Ok(self.carry_out(decision, None, &[], block, held, &medium, &view, &mut out))
    }

    /// Handles a reset of the bus, as `Device::usb_reset` does.
    ///
    /// # Errors
    ///
    /// The errors of `elapse`.
    pub fn usb_reset(&mut self, block: &[u8], held: &[u8], flash: &[u8]) -> Result<(), Refusal>
        requires { HasRoom self.old.unit held.now }
        ensures row { let before = device_in (lent self.old block.now held.now) flash.now in
            OnOk result (device_in (lent self.new block.now held.now) flash.now ≡ record before { stage = reset_stage before.stage }) }
        ensures stays_device { OnOk result
            (IsDeviceOn self.old block.now held.now flash.now → IsDeviceOn self.new block.now held.now flash.now) }
        ensures work { OnOk result (self.new.work ≡ None) }
        ensures served { OnOk result (ServedCallFacts self.old block.now flash.now 0 0) }
        ensures refused { IfErr result (λ e. IsRefusedCall e self.old block.now held.now flash.now 0 0) }
        ensures asked { IsSome self.old.work → IsErrOf result Refusal.Asked }
        ensures same_config { SameConfig self.old self.new }
        ensures block_fits { OnOk result (RoomForBlocks self.new (length block.now)) }
        ensures unchanged { OnErr result (self.new ≡ self.old) }
    {
        if self.work.is_some() {
            return Err(Refusal::Asked);
        }
        let _ = self.see(block.len(), flash)?;
        self.mode = self.mode.after_reset();
        Ok(())
    }
}
