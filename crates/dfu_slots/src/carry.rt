//! Performs the operations of a change on a medium.
ghost use Rattle.std.specs.Prelude.{◌≡◌, ◌+◌, ◌^◌, ◌≤◌, ◌<◌, ◌++◌, length, take, replicate, slice_index, slice_range};
ghost use Rattle.dfu_slots.specs.inside.Series.{Series};
ghost use Rattle.dfu_slots.specs.inside.Carry.{MayWriteRange, IsSourceAtHand, MayCarryOp, MayCarryAll};
ghost use Rattle.dfu_slots.specs.Writes.{write_some};
ghost use Rattle.dfu_slots.specs.Operations.{source_content, range_of, op_writes, ops_writes, operations};

use crate::erasing::erase;
use crate::layout::{MAX_UNIT, OPEN_GATE};
use crate::operation::{Op, Source};
use crate::sequence::{MAX_OPERATIONS, Sequence};
use crate::writes::write_some;
use crate::{Medium, WriteFault};

/// Sources of the bytes that the operations of a change write: the held bytes, the block and the header.
#[derive(Clone, Copy)]
pub(crate) struct Sources<'b> {
    /// Bytes held back by earlier puts.
    pub held: &'b [u8],
    /// Block that a `put` writes after the held bytes.
    pub block: &'b [u8],
    /// Header that a `commit` or a `format` writes.
    pub header: &'b [u8; 16],
}

// Returns byte `at` of the concatenation of `front`, `back` and zeros.
fn byte_in(front: &[u8], back: &[u8], at: usize) -> u8
    requires { at < length front.now + length back.now + 256 }
    ensures { result ≡ slice_index ((front.now ++ back.now) ++ replicate 256 0) at }
{
    if at < front.len() {
        return front[at];
    }
    let behind = at - front.len();
    if behind < back.len() { back[behind] } else { 0 }
}

// Returns byte `at` of a source, or 0 beyond its end.
fn byte_of(source: Source, held: &[u8], block: &[u8], header: &[u8; 16], at: usize) -> u8
    requires { at < length (source_content source held.now block.now header.now) + 256 }
    ensures { result ≡ slice_index (source_content source held.now block.now header.now ++ replicate 256 0) at }
{
    match source {
        Source::Joined => byte_in(held, block, at),
        Source::Held => byte_in(held, &[], at),
        Source::Header => byte_in(header, &[], at),
        Source::Opened => byte_in(&[OPEN_GATE], &[], at),
        Source::Closed => byte_in(&[], &[], at),
    }
}

impl Sources<'_> {
    // Copies `len` bytes of a source to the front of `out`, beginning with byte `skip` of the source.
    fn gather(self, source: Source, skip: usize, len: usize, out: &mut [u8; MAX_UNIT])
        requires few { len ≤ 256 }
        requires front { skip ≤ length (source_content source self.held.now self.block.now self.header.now) }
        requires small { skip < 2 ^ 32 }
        ensures { take len out.new ≡ range_of source self.entry.held.now self.entry.block.now self.entry.header.now skip len }
    {
        for i in 0..len {
            out[i] = byte_of(source, self.held, self.block, self.header, skip + i);
        }
    }

    // Writes `len` bytes of a source, at most 256, beginning with its byte `skip`. First erases the sectors that begin in the range. Writes
    // nothing if `len` is 0.
    fn write_gathered<M: Medium>(
        self,
        medium: &mut M,
        at: u32,
        source: Source,
        skip: usize,
        len: usize,
    ) -> Result<(), WriteFault>
        requires may { MayWriteRange (M.state medium.old) at len }
        requires few { len ≤ 256 }
        requires front { skip ≤ length (source_content source self.held.now self.block.now self.header.now) }
        requires small { skip < 2 ^ 32 }
        ensures { let was = M.state medium.old in
            Series was (write_some was.grain.sector at
            (range_of source self.entry.held.now self.entry.block.now self.entry.header.now skip len)) result (M.state medium.new) }
    {
        let mut unit = [0; MAX_UNIT];
        self.gather(source, skip, len, &mut unit);
        write_some(medium, at, &unit[..len])
    }

    // Writes `len` bytes of the held bytes and the block, beginning with byte `skip` of both together. First erases the sectors that begin
    // in the range. If all these bytes lie in the block, they are written without a copy.
    fn write_joined<M: Medium>(
        self,
        medium: &mut M,
        at: u32,
        skip: usize,
        len: usize,
    ) -> Result<(), WriteFault>
        requires may { MayWriteRange (M.state medium.old) at len }
        requires small { skip < 2 ^ 32 }
        requires hand { IsSourceAtHand (Source.Joined) self.held.now self.block.now skip len }
        ensures { let was = M.state medium.old in
            Series was (write_some was.grain.sector at
            (range_of (Source.Joined) self.entry.held.now self.entry.block.now self.entry.header.now skip len)) result (M.state medium.new) }
    {
        let held = self.held;
        if skip < held.len() {
            return self.write_gathered(medium, at, Source::Joined, skip, len);
        }
        let begin = skip - held.len();
        write_some(medium, at, &self.block[begin..begin + len])
    }

    fn carry_op<M: Medium>(self, medium: &mut M, op: Op) -> Result<(), WriteFault>
        requires { MayCarryOp (M.state medium.old) self.held.now self.block.now op }
        ensures { let was = M.state medium.old in
            Series was (op_writes was.grain.sector self.entry.held.now self.entry.block.now self.entry.header.now op)
            result (M.state medium.new) }
    {
        let _end = medium.len();
        match op {
            Op::Erase { at } => erase(medium, at as u32),
            Op::Program {
                at,
                source,
                skip,
                len,
            } => {
                let place = at as u32;
                let skip = skip as usize;
                let len = len as usize;
                match source {
                    Source::Joined => self.write_joined(medium, place, skip, len),
                    _ => self.write_gathered(medium, place, source, skip, len),
                }
            }
        }
    }

    /// Performs the operations of `sequence` on `medium`, in their order.
    ///
    /// # Errors
    ///
    /// The fault of the first write that fails. No later operation is performed.
    pub(crate) fn carry_out<M: Medium>(
        self,
        medium: &mut M,
        sequence: Sequence,
    ) -> Result<(), WriteFault>
        requires { let was = M.state medium.old in
            MayCarryAll was self.held.now self.block.now self.header.now (operations was.grain sequence) }
        ensures { let was = M.state medium.old in
            Series was (ops_writes was.grain.sector self.entry.held.now self.entry.block.now self.entry.header.now
            (operations was.grain sequence)) result (M.state medium.new) }
    {
        let unit = medium.unit();
        let sector = medium.sector();
        for index in 0..MAX_OPERATIONS {
            match sequence.operation(unit, sector, index) {
                None => return Ok(()),
                Some(op) => match self.carry_op(medium, op) {
                    Err(fault) => return Err(fault),
                    Ok(()) => {}
                },
            }
        }
        Ok(())
    }
}
