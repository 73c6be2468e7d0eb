//! Allowed sizes of a run area, and the check for blank bytes.
ghost use Rattle.std.specs.Prelude.{◌≡◌, ◌≤◌, length, IsTrue, ◌↔◌};
ghost use Rattle.dfu_boot.specs.install.Area.{IsRunArea, RangeIsBlank};

use dfu_slots::{MAX_SECTOR, PAGE, flash_byte_at};

/// Number of bytes that one program operation writes.
pub(crate) const PROGRAM: u32 = 256;

/// Returns true if a run area of `len` bytes may have sectors of `sector` bytes.
pub(crate) fn is_run_area(len: usize, sector: u32) -> bool
    ensures { IsTrue result ↔ IsRunArea len sector }
{
    sector > 0
        && sector % PAGE == 0
        && sector <= MAX_SECTOR
        && len <= 0xffff_ffff
        && len % sector as usize == 0
}

/// Returns true if all bytes of `run` with offsets in `from..to` are FFh.
pub fn are_blank(run: &[u8], from: u32, to: u32) -> bool
    requires order { from ≤ to }
    requires inside { to ≤ length run.now }
    ensures { IsTrue result ↔ RangeIsBlank run.now from to }
{
    let mut at = from;
    while at < to {
        if flash_byte_at(run, at as usize) != 0xff {
            return false;
        }
        at += 1;
    }
    true
}
