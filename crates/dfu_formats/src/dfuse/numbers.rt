//! Little-endian numbers in a file.

ghost use Rattle.std.specs.Prelude.{◌≡◌, ◌+◌, ◌≤◌, ◌<◌, ◌^◌, length};
ghost use Rattle.dfu_formats.specs.dfuse.Reading.{number_at};

/// Returns the number in the four bytes from index `place` on, the low byte first.
pub(crate) fn number_at(place: usize, bytes: &[u8]) -> u32
    requires { place + 4 ≤ length bytes.now }
    ensures { result ≡ number_at place bytes.now }
{
    let (_, behind) = bytes.split_at(place);
    let (field, _) = behind.split_at(4);
    u32::from_le_bytes([field[0], field[1], field[2], field[3]])
}
