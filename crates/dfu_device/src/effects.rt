//! Effects of a device on its slot store: it writes a block, or makes the received image active.

ghost use Rattle.std.specs.Prelude.{◌≡◌, ◌<◌, ◌≤◌, ◌+◌, ◌++◌, ◌⊎◌, length, take, [], IsTrue, true, OnOk, OnErr, IfErr};
ghost use Rattle.dfu_slots.specs.Medium.{CountRose};
ghost use Rattle.dfu_slots.specs.StoreView.{image_of, spare_of, room_of, is_shaped, CallsEnd};
ghost use Rattle.dfu_slots.specs.Changes.{fault_of, ending_of};
ghost use Rattle.dfu_device.specs.Table.{write_code, commit_code};
ghost use Rattle.dfu_device.specs.Parts.{is_put, is_filled, stage_of};
ghost use Rattle.dfu_device.specs.Rows.{WroteBlock, FailedBlock, Committed, FailedCommit, block_calls};
ghost use Rattle.dfu_device.specs.Decision.{written_stage, IsModeAfterCommit};
ghost use Rattle.dfu_device.specs.inside.View.{view_of_core};

use crate::device_core::DeviceCore;
use crate::device_state::DeviceState;
use dfu_slots::{Medium, PutFault, Slots, WriteFault};
use dfu_wire::Code;

impl<M: Medium> DeviceCore<M> {
    /// Writes the block. If `late` is true, the busy time ended, and the host must request the status once more.
    ///
    /// # Errors
    ///
    /// The fault of the write that failed. The device is then in dfuERROR.
    pub(crate) fn write_block(
        &mut self,
        written: u32,
        number: u16,
        late: bool,
    ) -> Result<(), WriteFault>
        requires { IsTrue (is_filled (DeviceState.DownloadSync written number) (length self.old.block.items) self.old.slots) }
        ensures done { let before = take written (spare_of self.old.slots) in
            let block = self.old.block.items in
            OnOk result (WroteBlock before block self.old.config self.old.slots (written_stage late (before ++ block) number)
            (view_of_core self.new)) }
        ensures failed { IfErr result (λ fault. FailedBlock fault
            (take written (spare_of self.old.slots)) self.old.block.items self.old.config self.old.slots (view_of_core self.new)) }
    {
        match put_block(&mut self.slots, written, self.block.as_slice()) {
            Ok(()) => {
                let written = written + self.block.as_slice().len() as u32;
                self.mode = if late {
                    DeviceState::DownloadSyncWritten { written, number }
                } else {
                    DeviceState::DownloadIdle { written, number }
                };
                Ok(())
            }
            Err(fault) => {
                let fault = write_fault(fault);
                self.mode = DeviceState::Error {
                    code: write_code(fault),
                };
                Err(fault)
            }
        }
    }

    /// Activates the image that consists of the `written` bytes received, and enters `next`.
    ///
    /// # Errors
    ///
    /// The fault of the write that failed. The device is then in dfuERROR.
    pub(crate) fn commit_taken(&mut self, written: u32, next: DeviceState) -> Result<(), WriteFault>
        requires taken { IsTrue (is_filled (DeviceState.ManifestSync written) (length self.old.block.items) self.old.slots) }
        requires next { IsModeAfterCommit next }
        ensures done { OnOk result (Committed (take written (spare_of self.old.slots)) self.old.config self.old.slots
            (stage_of next [] []) (view_of_core self.new)) }
        ensures failed { IfErr result (λ fault. FailedCommit fault (take written (spare_of self.old.slots)) self.old.config self.old.slots
            (view_of_core self.new)) }
    {
        match self.slots.commit(written) {
            Ok(()) => {
                self.mode = next;
                Ok(())
            }
            Err(fault) => {
                let fault = write_fault(fault);
                self.mode = DeviceState::Error {
                    code: commit_code(fault),
                };
                Err(fault)
            }
        }
    }
}

/// Converts the fault that a call of the slot store returned to the fault of the write that interrupted the call: `NotVerified` stays, and
/// any other fault gives `Failed`.
fn write_fault(fault: PutFault) -> WriteFault
    ensures { result ≡ fault_of fault }
{
    match fault {
        PutFault::NotVerified => WriteFault::NotVerified,
        PutFault::TooLarge | PutFault::Failed | PutFault::NotBegun => WriteFault::Failed,
    }
}

/// Returns the status code for `fault` in the write of a block.
fn write_code(fault: WriteFault) -> Code
    ensures { result ≡ write_code fault }
{
    match fault {
        WriteFault::Failed => Code::Write,
        WriteFault::NotVerified => Code::Verify,
    }
}

/// Returns the status code for `fault` in the writes of a commit.
fn commit_code(fault: WriteFault) -> Code
    ensures { result ≡ commit_code fault }
{
    match fault {
        WriteFault::Failed => Code::Prog,
        WriteFault::NotVerified => Code::Verify,
    }
}

/// Writes a block after the `written` bytes that were put before. Calls `begin` before the first block.
fn put_block<M: Medium>(slots: &mut Slots<M>, written: u32, block: &[u8]) -> Result<(), PutFault>
    requires put { (written ≡ 0) ⊎ (is_put written slots.old ≡ true) }
    requires shape { is_shaped slots.old ≡ true }
    requires room { written + length block.now ≤ room_of slots.old }
    requires some { 0 < length block.now }
    requires small { length block.now ≤ 4096 }
    ensures shape { is_shaped slots.new ≡ true }
    ensures room { room_of slots.new ≡ room_of slots.old }
    ensures image { image_of slots.new ≡ image_of slots.old }
    ensures calls { CallsEnd slots.old (block_calls (take written (spare_of slots.old)) block.now) (ending_of result) slots.new }
    ensures put { OnOk result (is_put (written + length block.now) slots.new ≡ true) }
    ensures spare { OnOk result (take (written + length block.now) (spare_of slots.new) ≡ take written (spare_of slots.old) ++ block.now) }
    ensures err { OnErr result (CountRose slots.old.medium.failures slots.new.medium.failures) }
{
    if written > 0 {
        return slots.put(written, block);
    }
    match slots.begin() {
        Err(fault) => Err(fault),
        Ok(()) => slots.put(0, block),
    }
}
