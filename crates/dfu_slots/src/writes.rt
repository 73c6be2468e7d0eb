//! Writes bytes to a medium, after the erases that they need, and reads them back.
ghost use Rattle.std.specs.Prelude.{◌+◌, ◌≤◌, length, OnOk, IfErr};
ghost use Rattle.dfu_slots.specs.Units.{IsMultiple};
ghost use Rattle.dfu_slots.specs.Medium.{WroteBytes, FailedWrite, IsWritableAhead, IsWritable};
ghost use Rattle.dfu_slots.specs.inside.Series.{Series};
ghost use Rattle.dfu_slots.specs.Image.{IsSizedMedium};
ghost use Rattle.dfu_slots.specs.Writes.{write_some};

use crate::erasing::erase_within;
use crate::read::stands_at;
use crate::{Medium, WriteFault};

/// Writes `bytes` at offset `at` of `medium`, and reads them back. Every write of the store goes through this function.
pub(crate) fn write<M: Medium>(medium: &mut M, at: u32, bytes: &[u8]) -> Result<(), WriteFault>
    requires within { at + length bytes.now ≤ length (M.state medium.old).bytes }
    requires place { IsMultiple (M.state medium.old).grain.unit at }
    requires whole { IsMultiple (M.state medium.old).grain.unit (length bytes.now) }
    requires blank { IsWritable (M.state medium.old) at (length bytes.now) }
    ensures ok { OnOk result (WroteBytes (M.state medium.old) at bytes.now (M.state medium.new)) }
    ensures failed { IfErr result (λ fault. FailedWrite fault (M.state medium.old) at bytes.now (M.state medium.new)) }
{
    match medium.write(at, bytes) {
        Err(_) => Err(WriteFault::Failed),
        Ok(()) => {
            if stands_at(medium, at, bytes) {
                return Ok(());
            }
            Err(WriteFault::NotVerified)
        }
    }
}

/// Writes `bytes` at offset `at` of `medium`, or nothing if there are no bytes. On a medium with sectors it first erases the sectors that
/// begin in the range.
pub(crate) fn write_some<M: Medium>(medium: &mut M, at: u32, bytes: &[u8]) -> Result<(), WriteFault>
    requires sized { IsSizedMedium (M.state medium.old) }
    requires ahead { IsWritableAhead (M.state medium.old) at }
    requires within { at + length bytes.now ≤ length (M.state medium.old).bytes }
    requires place { IsMultiple (M.state medium.old).grain.unit at }
    requires whole { IsMultiple (M.state medium.old).grain.unit (length bytes.now) }
    ensures { let was = M.state medium.old in
        Series was (write_some was.grain.sector at bytes.now) result (M.state medium.new) }
{
    if bytes.is_empty() {
        return Ok(());
    }
    let _end = medium.len();
    if medium.sector() == 0 {
        return write(medium, at, bytes);
    }
    match erase_within(medium, at, bytes.len() as u32) {
        Err(fault) => Err(fault),
        Ok(()) => write(medium, at, bytes),
    }
}
