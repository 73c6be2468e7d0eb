//! Checks the file that a reader returns.

ghost use Rattle.std.specs.Prelude.{◌≡◌, ◌≢◌, ◌<◌, ◌++◌, ℕ, length, drop, slice_index, Err, IfSome};
ghost use Rattle.dfu_suffix.specs.Checking.{CheckResult, FindingsOfFile, UnlessReadFault};
ghost use Rattle.dfu_suffix.specs.declared.fault.SuffixFault.TheVariants.{NoMemory};

use crate::crc::Crc;
use crate::fault::SuffixFault;
use crate::file::{MAX_FILE, MAX_READS, READ_BYTES};
use crate::findings::{Findings, findings_of};
use crate::summary::{Summary, check_register};
use std::io::Read;

/// Checks all bytes of a reader, as `read` checks a slice. Only the register over the bytes, their count and the last 16 are kept, and no
/// memory is allocated. Each read fetches at most 16,384 bytes, into a buffer on the stack.
///
/// # Errors
///
/// TooLarge after byte 16,777,217 was read, without another read; Read at the first error of the reader, without a retry; otherwise the
/// fault that `read` returns for the bytes.
pub fn check<R: Read + Drop>(reader: R) -> Result<Summary, SuffixFault>
    // For any division of the bytes into reads, a result other than Read is the summary of a file of the grammar, or else the first fault.
    ensures answer { IfSome (R.remaining reader) (λ all. UnlessReadFault result (CheckResult all result)) }
    // The fault is never NoMemory, for any reader.
    ensures memory { result ≢ Err NoMemory }
{
    let mut findings = Findings::new();
    check_with(reader, &mut findings)
}

/// Checks like `check`, and writes the numbers that explain BadLength or BadCrc to `findings`. After TooShort, TooLarge and Read, these
/// numbers have no meaning.
///
/// # Errors
///
/// Those of `check`.
pub fn check_with<R: Read + Drop>(
    mut reader: R,
    findings: &mut Findings,
) -> Result<Summary, SuffixFault>
    // The result is the one of `check`.
    ensures answer { IfSome (R.remaining reader) (λ all. UnlessReadFault result (CheckResult all result)) }
    // If there are 16 to 16,777,216 bytes, and the result isn't Read, the findings are those of all bytes.
    ensures findings { IfSome (R.remaining reader) (λ all. UnlessReadFault result (FindingsOfFile all findings.new)) }
    // The fault is never NoMemory, for any reader.
    ensures memory { result ≢ Err NoMemory }
{
    let mut crc = Crc::new();
    let mut count: u32 = 0;
    let mut window = [0u8; 16];
    let mut buffer = [0u8; READ_BYTES];
    for turn in 0..MAX_READS {
        match reader.read(&mut buffer) {
            Ok(0) => {
                let register = crc.value();
                *findings = findings_of(&window, count, register);
                return check_register(&window, count, register);
            }
            Ok(taken) => {
                if taken > MAX_FILE - count as usize {
                    return Err(SuffixFault::TooLarge);
                }
                let more = &buffer[..taken];
                count += taken as u32;
                crc.update_long(more);
                slide(&mut window, more);
            }
            Err(_) => return Err(SuffixFault::Read),
        }
    }
    unreachable!()
}

// Appends `more` to a window of 16 bytes, and removes as many bytes from its front.
fn slide(window: &mut [u8; 16], more: &[u8])
    ensures last { window.new ≡ drop (length more.now) (window.old ++ more.now) }
    ensures bytes { (k : ℕ) → slice_index more.now k < 256 }
{
    if more.len() >= 16 {
        let (_, last) = more.split_at(more.len() - 16);
        window.copy_from_slice(last);
    } else {
        let kept = 16 - more.len();
        window.copy_within(more.len().., 0);
        window[kept..].copy_from_slice(more);
    }
}
