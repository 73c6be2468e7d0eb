//! Little-endian numbers in bytes.

ghost use Rattle.std.specs.Prelude.{◌≡◌, ◌+◌, ◌≤◌, ◌<◌, ◌^◌, length};
ghost use Rattle.dfu_formats.specs.images.Numbers.{le16, le32};

/// Returns the number in the two bytes from index `at` on, the low byte first.
pub(crate) fn le16(bytes: &[u8], at: usize) -> u32
    requires { at + 2 ≤ length bytes.now }
    ensures value { result ≡ le16 bytes.now at }
    ensures small { result < 65536 }
{
    bytes[at] as u32 + 256 * bytes[at + 1] as u32
}

/// Returns the number in the four bytes from index `at` on, the low byte first.
pub(crate) fn le32(bytes: &[u8], at: usize) -> u32
    requires { at + 4 ≤ length bytes.now }
    ensures { result ≡ le32 bytes.now at }
{
    le16(bytes, at) + 65_536 * le16(bytes, at + 2)
}
