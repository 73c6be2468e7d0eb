//! Numbers in the bytes of a capture, in either byte order.

ghost use Rattle.std.specs.Prelude.{◌≡◌, drop, take, slice_index_or};
ghost use Rattle.dfu_conformance.specs.captures.Packets.{two_byte_number, four_byte_number, first_eight_bytes};

/// Returns the byte at index `at`, or 0 beyond the end.
pub(crate) fn byte_at(bytes: &[u8], at: usize) -> u8
    ensures { result ≡ slice_index_or bytes.now at 0 }
{
    match bytes.get(at) {
        Some(byte) => *byte,
        None => 0,
    }
}

/// Returns the bytes from index `at` on, or none beyond the end.
pub(crate) fn from(bytes: &[u8], at: usize) -> &[u8]
    ensures { result.now ≡ drop at bytes.now }
{
    match bytes.get(at..) {
        Some(rest) => rest,
        None => &[],
    }
}

/// Returns the number in the first two bytes, the high byte first if `is_big`. Bytes beyond the end count as 0.
pub(crate) fn two(bytes: &[u8], is_big: bool) -> u16
    ensures { result ≡ two_byte_number is_big bytes.now }
{
    let first = byte_at(bytes, 0) as u16;
    let second = byte_at(bytes, 1) as u16;
    if is_big {
        256 * first + second
    } else {
        first + 256 * second
    }
}

/// Returns the number in the first four bytes, the high byte first if `is_big`. Bytes beyond the end count as 0.
pub(crate) fn four(bytes: &[u8], is_big: bool) -> u32
    ensures { result ≡ four_byte_number is_big bytes.now }
{
    let first = byte_at(bytes, 0) as u32;
    let second = byte_at(bytes, 1) as u32;
    let third = byte_at(bytes, 2) as u32;
    let fourth = byte_at(bytes, 3) as u32;
    if is_big {
        16_777_216 * first + 65_536 * second + 256 * third + fourth
    } else {
        first + 256 * second + 65_536 * third + 16_777_216 * fourth
    }
}

/// Returns the eight bytes from index `at` on. Bytes beyond the end count as 0.
pub(crate) fn eight(bytes: &[u8], at: usize) -> [u8; 8]
    ensures { result ≡ first_eight_bytes (drop at bytes.now) }
{
    let rest = from(bytes, at);
    [
        byte_at(rest, 0),
        byte_at(rest, 1),
        byte_at(rest, 2),
        byte_at(rest, 3),
        byte_at(rest, 4),
        byte_at(rest, 5),
        byte_at(rest, 6),
        byte_at(rest, 7),
    ]
}

/// Returns the first `count` bytes, or all bytes if there are fewer.
pub(crate) fn front(bytes: &[u8], count: usize) -> &[u8]
    ensures { result.now ≡ take count bytes.now }
{
    if count < bytes.len() {
        &bytes[..count]
    } else {
        bytes
    }
}
