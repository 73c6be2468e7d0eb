//! Gathers all bytes of a reader, up to a limit.

ghost use Rattle.std.specs.Prelude.{◌≤◌, length, IfOk, IfSome};
ghost use Rattle.dfu_suffix.specs.Gathering.{GatherResult};

use crate::file::{MAX_READS, READ_BYTES};
use std::alloc::Global;
use std::io::Read;

/// Fault of `gather`.
#[derive(Clone, Copy)]
pub enum GatherFault {
    /// The reader has more bytes than the limit.
    TooLarge,
    /// An allocation was refused.
    NoMemory,
    /// The reader failed.
    Read,
}

/// Gathers all bytes of the reader, at most `limit`. Each read fetches at most 16,384 bytes.
///
/// # Errors
///
/// TooLarge after the first byte beyond the limit was read, without another read; Read at the first error of the reader, without a retry;
/// NoMemory if an allocation was refused.
pub fn gather<R: Read + Drop>(
    alloc: Global,
    mut reader: R,
    limit: usize,
) -> Result<Vec<u8>, GatherFault>
    requires { limit ≤ 16777216 }
    // At Ok, the result is all bytes of the reader. At TooLarge, they exceed the limit.
    ensures all { IfSome (R.remaining reader) (λ all. GatherResult limit all result) }
    // The result is within the limit, for any reader.
    ensures len { IfOk result (λ v. length v.items ≤ limit) }
{
    let mut bytes = Vec::new(alloc);
    let mut buffer = [0u8; READ_BYTES];
    for turn in 0..MAX_READS {
        match reader.read(&mut buffer) {
            Ok(0) => return Ok(bytes),
            Ok(taken) => {
                if taken > limit - bytes.len() {
                    return Err(GatherFault::TooLarge);
                }
                let Ok(()) = bytes.extend_from_slice(&buffer[..taken]) else {
                    return Err(GatherFault::NoMemory);
                };
            }
            Err(_) => return Err(GatherFault::Read),
        }
    }
    unreachable!()
}
