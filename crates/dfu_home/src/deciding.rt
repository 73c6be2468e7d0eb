//! Choice of the operation that is due next, by the gate of the first slot.
ghost use Rattle.std.specs.Prelude.{◌≡◌, ◌<◌, not, ℕ, List, IsTrue};
ghost use Rattle.dfu_slots.specs.Layout.{HasOpenGate};
ghost use Rattle.dfu_slots.specs.Image.{IsSizedMedium, HasImage};
ghost use Rattle.dfu_home.specs.Places.{first_of, most_operations};
ghost use Rattle.dfu_home.specs.Next.{IsNextDue, IsCopying, BufferOfProgram};

use crate::asking::is_home;
use crate::copying::copy;
use crate::{CopyRefusal, Due, Progress};
use dfu_slots::{Medium, capacity_of, header_of, is_open, is_sized, length_in};

// Returns the largest number of operations that a copy on a medium may take: one for each 128 bytes. A medium without faults needs fewer.
fn most_operations<M: Medium>(medium: &M) -> u32
    ensures { result ≡ most_operations (M.state medium.now) }
{
    medium.len() / 128
}

// Returns true if the second slot is open and can hold an image of the length in its header. The first slot must be closed, so that only
// the second can contain the active image.
fn is_copying<M: Medium>(medium: &M) -> bool
    requires sized { IsSizedMedium (M.state medium.now) }
    requires sectors { 0 < (M.state medium.now).grain.sector }
    requires shut { ¬ HasOpenGate (first_of (M.state medium.now)) }
    ensures copying { IsTrue result → IsCopying (M.state medium.now) }
    ensures none { IsTrue (not result) → ¬ HasImage (M.state medium.now) }
{
    let second = medium.len() / 2;
    if !is_open(medium, second) {
        return false;
    }
    if length_in(&header_of(medium, second)) > capacity_of(medium) {
        return false;
    }
    true
}

// Returns true if the medium has an active image. After the first operation (`count` over 0), returns true without reading the medium.
fn is_looked<M: Medium>(medium: &M, count: u32) -> bool
    ensures looked { IsTrue result → count ≡ 0 → HasImage (M.state medium.now) }
    ensures none { IsTrue (not result) → ¬ HasImage (M.state medium.now) }
{
    if count > 0 {
        return true;
    }
    is_home(medium).is_some()
}

// Returns the operation that is due while the gate of the first slot is open.
fn opened<M: Medium>(medium: &M, progress: Progress) -> Due
    requires sectors { 0 < (M.state medium.now).grain.sector }
    requires open { HasOpenGate (first_of (M.state medium.now)) }
    ensures does { IsNextDue (M.state medium.now) progress result }
    ensures quiet { (bytes : List ℕ) → BufferOfProgram (M.state medium.now) result bytes bytes }
{
    match is_home(medium) {
        None => Due::Refuse(CopyRefusal::NoImage),
        Some(true) => Due::Home,
        Some(false) => {
            if progress.count >= most_operations(medium) {
                return Due::Refuse(CopyRefusal::NotWritten);
            }
            Due::Erase { at: 0 }
        }
    }
}

// Returns the operation that is due while the gate of the first slot is closed, so that only the second slot can have the active image.
fn shut<M: Medium>(medium: &M, flash: &[u8], progress: Progress, out: &mut [u8; 256]) -> Due
    requires mapped { flash.now ≡ (M.state medium.now).bytes }
    requires sized { IsSizedMedium (M.state medium.now) }
    requires sectors { 0 < (M.state medium.now).grain.sector }
    requires shut { ¬ HasOpenGate (first_of (M.state medium.now)) }
    ensures does { IsNextDue (M.state medium.now) progress result }
    ensures bytes { BufferOfProgram (M.state medium.now) result out.old out.new }
{
    if !is_looked(medium, progress.count) {
        return Due::Refuse(CopyRefusal::NoImage);
    }
    if !is_copying(medium) {
        return Due::Refuse(CopyRefusal::NoImage);
    }
    if progress.count >= most_operations(medium) {
        return Due::Refuse(CopyRefusal::NotWritten);
    }
    copy(medium, flash, progress.last, out)
}

/// Returns the next operation that copies the active image into the first slot.
///
/// `flash` is the medium's bytes, mapped for reading. After each loss of power, `progress` has no last operation and a count of 0; else it
/// is the result of `took`. For any `progress`, the call returns `Home` only if the active image is in the first slot. Each operation lies
/// in that slot, and the active image stays active even if the operation fails, reports a false success or is cut off. The bytes of a
/// program are at the front of `out`; without a program, `out` is unchanged.
///
/// The refusals are checked in this order: `NoSectors`, `NoImage`, `NotWritten`.
pub fn next<M: Medium>(medium: &M, flash: &[u8], progress: Progress, out: &mut [u8; 256]) -> Due
    requires mapped { flash.now ≡ (M.state medium.now).bytes }
    ensures does { IsNextDue (M.state medium.now) progress result }
    ensures bytes { BufferOfProgram (M.state medium.now) result out.old out.new }
{
    if medium.sector() == 0 {
        return Due::Refuse(CopyRefusal::NoSectors);
    }
    if !is_sized(medium) {
        return Due::Refuse(CopyRefusal::NoImage);
    }
    if is_open(medium, 0) {
        return opened(medium, progress);
    }
    shut(medium, flash, progress, out)
}
