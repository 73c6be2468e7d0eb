//! Comparison of bytes of flash, and the buffer of a unit.
ghost use Rattle.std.specs.Prelude.{◌≡◌, ◌↔◌, ◌≤◌, ◌-◌, ◌++◌, length, replicate, IsTrue};

use dfu_slots::flash_byte_at;

/// Returns true if bytes of flash equal a slice of the same length. A loop takes less code than `==`.
pub(crate) fn are_same(one: &[u8], other: &[u8]) -> bool
    requires { length one.now ≡ length other.now }
    ensures { IsTrue result ↔ (one.now ≡ other.now) }
{
    for i in 0..one.len() {
        if flash_byte_at(one, i) != other[i] {
            return false;
        }
    }
    true
}

/// Writes `front` to the front of `out`, and zeros after it.
pub(crate) fn fill_up(front: &[u8], out: &mut [u8; 256])
    requires { length front.now ≤ 256 }
    ensures { out.new ≡ front.now ++ replicate (256 - length front.now) 0 }
{
    *out = [0; 256];
    out[..front.len()].copy_from_slice(front);
}
