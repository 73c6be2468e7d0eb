//! Little-endian numbers and single bits in the fields of the wire formats.

ghost use Rattle.std.specs.Prelude.{◌≡◌, ◌<◌, ◌≤◌, ◌+◌, ◌*◌, length, slice_index};
ghost use Rattle.dfu_wire.specs.Functional.{has_bit};

use byteorder::{ByteOrder, LittleEndian};

/// Returns the two bytes of `number`, low byte first.
pub(crate) fn two_bytes(number: u16) -> [u8; 2]
    ensures length { length result ≡ 2 }
    ensures value { number ≡ slice_index result 0 + 256 * slice_index result 1 }
{
    let mut bytes = [0; 2];
    LittleEndian::write_u16(&mut bytes, number);
    bytes
}

/// Returns the two-byte number at index `at` of `bytes`, low byte first.
pub(crate) fn number_at(bytes: &[u8], at: usize) -> u16
    requires { at + 2 ≤ length bytes.now }
    ensures { result ≡ slice_index bytes.now at + 256 * slice_index bytes.now (at + 1) }
{
    LittleEndian::read_u16(&bytes[at..])
}

/// Returns true if bit `bit` of `byte` is 1, where bit 0 is the lowest.
pub(crate) fn is_set(byte: u8, bit: u8) -> bool
    requires { bit < 8 }
    ensures { result ≡ has_bit byte bit }
{
    byte & (1 << bit) != 0
}
