//! The letters at the front of a file and of each target.

ghost use Rattle.std.specs.Prelude.{◌≡◌, ◌≤◌, length};
ghost use Rattle.dfu_formats.specs.dfuse.Reading.{is_target, begins_with_dfuse};

/// Returns true if the first six bytes are the letters Target.
pub(crate) fn is_target(bytes: &[u8]) -> bool
    requires { 6 ≤ length bytes.now }
    ensures { result ≡ is_target bytes.now }
{
    bytes[0] == b'T'
        && bytes[1] == b'a'
        && bytes[2] == b'r'
        && bytes[3] == b'g'
        && bytes[4] == b'e'
        && bytes[5] == b't'
}

/// Returns true if the first five bytes are the letters DfuSe.
pub(crate) fn begins_with_dfuse(bytes: &[u8]) -> bool
    requires { 5 ≤ length bytes.now }
    ensures { result ≡ begins_with_dfuse bytes.now }
{
    bytes[0] == b'D' && bytes[1] == b'f' && bytes[2] == b'u' && bytes[3] == b'S' && bytes[4] == b'e'
}
