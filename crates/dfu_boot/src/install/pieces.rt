//! Bytes that a program operation writes.
ghost use Rattle.std.specs.Prelude.{◌≡◌, ◌+◌, ◌-◌, ◌≤◌, ◌++◌, replicate, length, slice_range, min};
ghost use Rattle.dfu_boot.specs.install.Area.{program_piece};

use dfu_slots::read_flash;

// Copies `bytes` to the beginning of `out`, and fills the rest with FFh.
fn fill_up(bytes: &[u8], out: &mut [u8; 256])
    requires { length bytes.now ≤ 256 }
    ensures { out.new ≡ bytes.now ++ replicate (256 - length bytes.now) 255 }
{
    *out = [0xff; 256];
    read_flash(bytes, &mut out[..bytes.len()]);
}

/// Fills `out` with the 256 bytes to program at offset `at`: those of the image, and FFh after its end.
pub fn piece(image: &[u8], at: u32, out: &mut [u8; 256])
    ensures { out.new ≡ program_piece image.now at }
{
    let rest = &image[(at as usize).min(image.len())..];
    fill_up(&rest[..rest.len().min(256)], out);
}
