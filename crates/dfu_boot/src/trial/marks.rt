//! Marks of a slot, as read from the medium.
ghost use Rattle.std.specs.Prelude.{◌≡◌, ◌+◌, ◌*◌, ◌≤◌, ◌<◌, length, slice_range};
ghost use Rattle.std.specs.List.{list_all};
ghost use Rattle.dfu_slots.specs.Layout.{slot_size};
ghost use Rattle.dfu_slots.specs.Image.{IsSizedMedium};
ghost use Rattle.dfu_boot.specs.trial.Marks.{mark_size, mark_at, is_erased, is_marked, is_mark_set, recorded_starts, AreTries};

use dfu_slots::{Medium, gate_of};

/// Returns the number of bytes of a mark: the write unit, but at least 16.
pub(crate) fn mark_size<M: Medium>(medium: &M) -> u32
    ensures value { result ≡ mark_size (M.state medium.now).grain }
    ensures least { 16 ≤ result }
    ensures at_most_256 { result ≤ 256 }
{
    medium.unit().size().max(16)
}

/// Returns the offset of mark number `i` in the slot at offset `at`.
pub(crate) fn mark_at<M: Medium>(medium: &M, at: u32, i: u32) -> u32
    requires { mark_at (M.state medium.now).grain at i ≤ length (M.state medium.now).bytes }
    ensures { result ≡ mark_at (M.state medium.now).grain at i }
{
    let _len = medium.len();
    let size = mark_size(medium);
    at + gate_of(medium) + size + i * size
}

fn is_blank(bytes: &[u8]) -> bool
    ensures { result ≡ list_all is_erased bytes.now }
{
    bytes.iter().all(|byte| *byte == 0xff)
}

/// Returns true if one of the `len` bytes at offset `at` is not FFh. `len` is at most 256.
pub(crate) fn is_marked<M: Medium>(medium: &M, at: u32, len: u32) -> bool
    requires within { at + len ≤ length (M.state medium.now).bytes }
    requires most { len ≤ 256 }
    ensures { result ≡ is_marked (slice_range (M.state medium.now).bytes at (at + len)) }
{
    let mut buffer = [0; 256];
    let bytes = &mut buffer[..len as usize];
    medium.read(at, bytes);
    !is_blank(bytes)
}

/// Returns true if mark number `i` of the slot at offset `at` is set.
pub(crate) fn is_set<M: Medium>(medium: &M, at: u32, i: u32) -> bool
    requires { let m = M.state medium.now in mark_at m.grain at i + mark_size m.grain ≤ length m.bytes }
    ensures { result ≡ is_mark_set (M.state medium.now) at i }
{
    is_marked(medium, mark_at(medium, at, i), mark_size(medium))
}

/// Returns the number of recorded starts, at most `tries`, of the image in the slot at offset `at`.
pub(crate) fn starts<M: Medium>(medium: &M, tries: u32, at: u32) -> u32
    requires sized { IsSizedMedium (M.state medium.now) }
    requires tries { AreTries (M.state medium.now).grain tries }
    requires within { at + slot_size (M.state medium.now).bytes ≤ length (M.state medium.now).bytes }
    ensures value { result ≡ recorded_starts (M.state medium.now) tries at }
    ensures at_most_tries { result ≤ tries }
{
    let mut done = 0;
    while done < tries {
        if !is_set(medium, at, done + 1) {
            return done;
        }
        done += 1;
    }
    done
}
