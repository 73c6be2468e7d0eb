//! Erases sectors, and reads each erased sector back.
ghost use Rattle.std.specs.Prelude.{◌≡◌, ◌+◌, ◌%◌, ◌≤◌, ◌<◌, ◌↔◌, IsTrue, length, replicate, OnOk, IfErr};
ghost use Rattle.dfu_slots.specs.Medium.{WroteBytes, FailedWrite, IsBlank};
ghost use Rattle.dfu_slots.specs.inside.Series.{Series};
ghost use Rattle.dfu_slots.specs.Image.{IsSizedMedium};
ghost use Rattle.dfu_slots.specs.Writes.{sector_erases};

use crate::layout::MAX_UNIT;
use crate::read::stands_at;
use crate::{Medium, WriteFault};

/// Returns true if the `len` bytes that begin at `at` are all FFh.
pub(crate) fn is_blank<M: Medium>(medium: &M, at: u32, len: u32) -> bool
    requires { at + len ≤ length (M.state medium.now).bytes }
    ensures { IsTrue result ↔ IsBlank (M.state medium.now).bytes at len }
{
    let blank = [0xff; MAX_UNIT];
    let _end = medium.len();
    let mut done = 0;
    while done < len {
        let size = (len - done).min(MAX_UNIT as u32);
        if stands_at(medium, at + done, &blank[..size as usize]) {
            done += size;
        } else {
            return false;
        }
    }
    true
}

/// Erases the sector that begins at `at`, and reads it back. Every erase of the store goes through this function.
pub(crate) fn erase<M: Medium>(medium: &mut M, at: u32) -> Result<(), WriteFault>
    requires within { at + (M.state medium.old).grain.sector ≤ length (M.state medium.old).bytes }
    requires place { at % (M.state medium.old).grain.sector ≡ 0 }
    ensures ok { let was = M.state medium.old in
        OnOk result (WroteBytes was at (replicate was.grain.sector 255) (M.state medium.new)) }
    ensures failed { let was = M.state medium.old in
        IfErr result (λ fault. FailedWrite fault was at (replicate was.grain.sector 255) (M.state medium.new)) }
{
    let size = medium.sector();
    match medium.erase(at) {
        Err(_) => Err(WriteFault::Failed),
        Ok(()) => {
            if is_blank(medium, at, size) {
                return Ok(());
            }
            Err(WriteFault::NotVerified)
        }
    }
}

/// Erases, in order, the sectors that begin in the range of `len` bytes from offset `at`.
pub(crate) fn erase_within<M: Medium>(medium: &mut M, at: u32, len: u32) -> Result<(), WriteFault>
    requires sized { IsSizedMedium (M.state medium.old) }
    requires within { at + len ≤ length (M.state medium.old).bytes }
    requires some { 0 < (M.state medium.old).grain.sector }
    ensures { let was = M.state medium.old in Series was (sector_erases was.grain.sector at len) result (M.state medium.new) }
{
    let _end = medium.len();
    let sector = medium.sector();
    let end = at + len;
    let behind = at % sector;
    let mut place = if behind == 0 {
        at
    } else {
        at + (sector - behind)
    };
    while place < end {
        match erase(medium, place) {
            Err(fault) => return Err(fault),
            Ok(()) => place += sector,
        }
    }
    Ok(())
}
