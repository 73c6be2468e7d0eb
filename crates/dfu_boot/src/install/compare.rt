//! Offsets at which a run area differs from an image.
ghost use Rattle.std.specs.Prelude.{◌≡◌, ◌≤◌, ◌<◌, ◌^◌, ◌+◌, ◌↔◌, length, min, slice_index, IfSome, IfNone, IsTrue};
ghost use Rattle.dfu_boot.specs.install.Area.{RangeMatchesImage, IsFirstDifference};
ghost use Rattle.dfu_boot.specs.install.Next.{IsNextDifference};

use dfu_slots::flash_byte_at;

fn is_same(image: &[u8], run: &[u8], at: usize) -> bool
    requires image { at < length image.now }
    requires run { at < length run.now }
    ensures { IsTrue result ↔ (slice_index run.now at ≡ slice_index image.now at) }
{
    flash_byte_at(run, at) == flash_byte_at(image, at)
}

// Returns true only if the bytes `at..at + 4` of the image and the run area are equal. The contract states nothing for the result false.
fn are_four_same(image: &[u8], run: &[u8], at: u32) -> bool
    requires image { at + 4 ≤ length image.now }
    requires run { at + 4 ≤ length run.now }
    ensures { IsTrue result → RangeMatchesImage image.now run.now at (at + 4) }
{
    let at = at as usize;
    is_same(image, run, at)
        && is_same(image, run, at + 1)
        && is_same(image, run, at + 2)
        && is_same(image, run, at + 3)
}

/// Returns the index of the first byte in `from..to` at which `image` and `run` differ, or None if they are equal there.
pub(crate) fn first_difference(image: &[u8], run: &[u8], from: u32, to: u32) -> Option<u32>
    requires image { to ≤ length image.now }
    requires run { to ≤ length run.now }
    ensures some { IfSome result (λ at. IsFirstDifference image.now run.now from to at) }
    ensures none { IfNone result (RangeMatchesImage image.now run.now from to) }
{
    let mut at = from;
    // Comparing four bytes at a time takes half as many instructions as one at a time.
    while at < to && to - at >= 4 && are_four_same(image, run, at) {
        at += 4;
    }
    while at < to {
        if !is_same(image, run, at as usize) {
            return Some(at);
        }
        at += 1;
    }
    None
}

/// Returns the index of the first byte of `image` from `from` on that differs in `run`. If there is none, the search begins again at index
/// 0. None means that the run area holds the whole image.
pub(crate) fn next_difference(image: &[u8], run: &[u8], from: u32) -> Option<u32>
    requires from { from ≤ length image.now }
    requires bound { length image.now < 2 ^ 32 }
    requires fits { length image.now ≤ length run.now }
    ensures some { IfSome result (λ at. IsNextDifference image.now run.now from at) }
    ensures none { IfNone result (RangeMatchesImage image.now run.now 0 (length image.now)) }
{
    match first_difference(image, run, from, image.len() as u32) {
        Some(at) => Some(at),
        None => first_difference(image, run, 0, from),
    }
}
