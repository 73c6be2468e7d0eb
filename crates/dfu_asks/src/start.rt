//! Start of the writes of a row, and the test that flash is erased where it is programmed without a preceding erase.
ghost use Rattle.std.specs.Prelude.{◌≡◌, ◌⊎◌, ◌+◌, ◌≤◌, ◌++◌, true, ℕ, List, Option, length, take, slice_range, Some, IsTrue, ◌^◌, ◌<◌, ◌↔◌};
ghost use Rattle.dfu_suffix.specs.Register.{register};
ghost use Rattle.dfu_device.specs.Parts.{stage_of, is_put};
ghost use Rattle.dfu_asks.specs.declared.pending_writes.PendingWrites.{PendingWrites};
ghost use Rattle.dfu_asks.specs.Mapped.{grain_of, mapped_medium};
ghost use Rattle.dfu_asks.specs.Noted.{IsNoteView};
ghost use Rattle.dfu_asks.specs.Lent.{lent, HasRoom, SameConfig};
ghost use Rattle.dfu_asks.specs.Due.{DueRow, IsDueStage};
ghost use Rattle.dfu_asks.specs.Asks.{device_in, flash_store, IsDevice, IsBlockJob, IsCommitJob, IsJobOfMode};
ghost use Rattle.dfu_asks.specs.Calls.{DeviceCalled, ReplyHasAtMostBytes};
ghost use Rattle.dfu_asks.specs.Ahead.{ReachesSectorAt, IsErasedAhead};

use crate::noted::View;
use crate::sector::offset_in_sector;
use crate::{Asking, Mapped, PendingWrites, Reply, Sector, SlotWrite};
use dfu_device::DeviceState;
use dfu_slots::{WriteFault, crc_of_flash, data_at, is_flash_erased, is_open};

// Returns the offset of the first sector that begins among the `len` bytes from `at` on, or their end if none begins there.
fn end_before_sector(size: u32, at: u64, len: u64) -> u64
    requires some { 0 < size }
    requires most { size ≤ 2 ^ 18 }
    requires small { at < 2 ^ 43 }
    requires short { len < 2 ^ 43 }
    ensures { ReachesSectorAt size at len result }
{
    let behind = offset_in_sector(size, at);
    if behind == 0 {
        return at;
    }
    at + len.min(u64::from(size - behind))
}

// Returns true if the `len` bytes from `at` on are FFh, up to the next sector. True for flash without sectors, which is overwritten.
fn is_erased_to_sector(flash: &[u8], sector: Sector, at: u64, len: u64) -> bool
    requires small { at < 2 ^ 43 }
    requires short { len < 2 ^ 43 }
    ensures { IsTrue result ↔ IsErasedAhead sector.size flash.now at len }
{
    let size = sector.size();
    if size == 0 {
        return true;
    }
    let end = end_before_sector(size, at, len).min(flash.len() as u64);
    is_flash_erased(flash, at as usize, end as usize)
}

// Returns the CRC register over the `size` bytes of flash from `from` on, followed by `held`.
fn register_of(flash: &[u8], from: usize, size: usize, held: &[u8]) -> u32
    requires { from + size ≤ length flash.now }
    ensures { result ≡ register (slice_range flash.now from (from + size) ++ held.now) }
{
    let mut crc = crc_of_flash(&flash[from..from + size]);
    crc.update_small(held);
    crc.value()
}

impl Asking {
    // Returns the job that commits all bytes put into the spare slot, including those held back.
    fn commit_job(&self, held: &[u8], medium: &Mapped<'_>, view: &View) -> SlotWrite
        requires unit { medium.now.unit ≡ self.now.unit }
        requires sector { medium.now.sector ≡ self.now.sector }
        requires view { IsNoteView view.now self.now.noted (mapped_medium (grain_of self.now.unit self.now.sector) medium.now.bytes.now) }
        requires end { self.now.put_end ≤ view.now.room }
        requires held { self.now.held_len ≤ self.now.put_end }
        requires memory { HasRoom self.now.unit held.now }
        ensures { (block : List ℕ) → let a = lent self.now block held.now in IsDevice a medium.now.bytes.now →
            IsCommitJob self.now.put_end (flash_store a medium.now.bytes.now) result self.now.put_end a.held }
    {
        let from = data_at(medium, view.spare) as usize;
        let size = self.put_end as usize - self.held_len;
        SlotWrite::Commit {
            spare: view.spare,
            generation: self.noted.header[0].wrapping_add(1),
            register: register_of(medium.bytes, from, size, self.held_in(held)),
        }
    }

    // Returns the job of a block after `written` bytes, the number of bytes held back before the block, and the number of bytes put into
    // the spare slot before it. The first block of a download overwrites what an earlier download put into the slot.
    fn block_job(&self, written: u32, medium: &Mapped<'_>, view: &View) -> (SlotWrite, usize, u32)
        requires unit { medium.now.unit ≡ self.now.unit }
        requires sector { medium.now.sector ≡ self.now.sector }
        requires view { IsNoteView view.now self.now.noted (mapped_medium (grain_of self.now.unit self.now.sector) medium.now.bytes.now) }
        ensures job { (block held : List ℕ) → let s = flash_store (lent self.now block held) medium.now.bytes.now in
            IsDevice (lent self.now block held) medium.now.bytes.now → (written ≡ 0) ⊎ (is_put written s ≡ true) →
            IsBlockJob written s result.0 result.2 (take result.1 held) }
        ensures at_most_256 { result.1 ≤ 256 }
    {
        if written == 0 {
            let job = SlotWrite::Block {
                spare: view.spare,
                close: is_open(medium, view.spare),
            };
            return (job, 0, 0);
        }
        let job = SlotWrite::Block {
            spare: view.spare,
            close: false,
        };
        (job, self.held_len, self.put_end)
    }

    // Returns the job of the due row, the number of bytes held back before the row, and the number of bytes put into the spare slot before
    // it.
    fn begin_job(&self, held: &[u8], medium: &Mapped<'_>, view: &View) -> (SlotWrite, usize, u32)
        requires unit { medium.now.unit ≡ self.now.unit }
        requires sector { medium.now.sector ≡ self.now.sector }
        requires view { IsNoteView view.now self.now.noted (mapped_medium (grain_of self.now.unit self.now.sector) medium.now.bytes.now) }
        requires end { self.now.put_end ≤ view.now.room }
        requires held { self.now.held_len ≤ self.now.put_end }
        requires memory { HasRoom self.now.unit held.now }
        ensures due { (block spare unwritten : List ℕ) (asked : Option ℕ) (len : ℕ) → let a = lent self.now block held.now in
            IsDevice a medium.now.bytes.now → IsDueStage (stage_of self.now.mode spare unwritten) asked len →
            IsJobOfMode self.now.mode (flash_store a medium.now.bytes.now) result.0 result.2 (take result.1 held.now) }
        ensures at_most_256 { result.1 ≤ 256 }
    {
        match self.mode {
            DeviceState::DownloadSync { written, .. } => self.block_job(written, medium, view),
            DeviceState::DownloadBusy { written, .. } => self.block_job(written, medium, view),
            _ => (
                self.commit_job(held, medium, view),
                self.held_len,
                self.put_end,
            ),
        }
    }

    // Returns true if the flash that the due row programs without a preceding erase is erased, or if `end` is 0.
    fn is_ahead(&self, end: u32, medium: &Mapped<'_>, view: &View) -> bool
        requires unit { medium.now.unit ≡ self.now.unit }
        requires sector { medium.now.sector ≡ self.now.sector }
        requires view { IsNoteView view.now self.now.noted (mapped_medium (grain_of self.now.unit self.now.sector) medium.now.bytes.now) }
        requires end { self.now.put_end ≤ view.now.room }
        requires held { self.now.held_len ≤ self.now.put_end }
        ensures { (block held : List ℕ) → HasRoom self.now.unit held → IsDevice (lent self.now block held) medium.now.bytes.now →
            IsTrue result }
    {
        if end == 0 {
            return true;
        }
        let at = data_at(medium, view.spare) + (self.put_end - self.held_len as u32);
        let len = self.held_len + self.block_len;
        is_erased_to_sector(medium.bytes, self.sector, u64::from(at), len as u64)
    }

    /// Begins the writes of the due row. If flash that the row programs without a preceding erase is not erased, for example because
    /// another program has written there, nothing is written, and the row ends with NotVerified.
    pub(crate) fn start(
        &mut self,
        asked: Option<u16>,
        block: &[u8],
        held: &mut [u8],
        medium: &Mapped<'_>,
        view: &View,
        out: &mut [u8],
    ) -> Reply
        requires room { 6 ≤ length out.old }
        requires unit { medium.now.unit ≡ self.old.unit }
        requires sector { medium.now.sector ≡ self.old.sector }
        requires view { IsNoteView view.now self.old.noted (mapped_medium (grain_of self.old.unit self.old.sector) medium.now.bytes.now) }
        requires end { self.old.put_end ≤ view.now.room }
        requires held { self.old.held_len ≤ self.old.put_end }
        requires memory { HasRoom self.old.unit held.old }
        ensures outcome { let a = lent self.old block.now held.old in
            let flash = medium.now.bytes.now in
            (len : ℕ) → IsDevice a flash → IsDueStage (device_in a flash).stage asked len →
            DeviceCalled a flash out.old (DueRow len) (lent self.new block.now held.new) out.new result }
        ensures nothing_done_yet { result ≡ Reply.Asks → (w : PendingWrites) × (self.new.work ≡ Some w) × (w.done ≡ 0) }
        ensures at_most_6 { ReplyHasAtMostBytes 6 result }
        ensures same_config { SameConfig self.old self.new }
        ensures block { self.new.block_len ≡ self.old.block_len }
    {
        let (job, held_len, put_end) = self.begin_job(held, medium, view);
        if !self.is_ahead(put_end, medium, view) {
            let (answer, count) = self.fail(WriteFault::NotVerified, asked, medium.bytes, out);
            return Reply::Answered(answer, count);
        }
        self.held_len = held_len;
        self.put_end = put_end;
        let work = PendingWrites {
            job,
            asked,
            done: 0,
        };
        self.work = Some(work);
        self.advance(block, held, medium.bytes, out)
    }
}
