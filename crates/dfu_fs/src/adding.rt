//! `dfu add`: adds a suffix to a file.

use crate::gathering::{MAX_FILE, gather_fault, refused, refused_bytes, unread};
use crate::given::{Given, Held, RecordingReader, open};
use crate::reasons::{error_reason, file_reason, reader_reason};
use crate::replacing::{Replacement, finish};
use crate::temp_file::Owned;
use dfu_formats::images::{Format, ImageFileFault, Looks, NotImage, bad_place, image_of, look_at};
use dfu_output::{
    Exit, FormatChoice, Outcome, add_with_fault, fault_text, image_line, looks_like_hint,
    not_image_hint, not_image_line, refused_line, why, why_not, write_out,
};
use dfu_suffix::{Findings, SuffixFault, gather, read};
use dfu_wire::Ids;
use std::alloc::{AllocError, Global};
use std::io::{self, Read};
use std::rt::Files;

/// Options of `dfu add`: the format in which FILE is read, and the byte that fills gaps in its image.
#[derive(Clone, Copy)]
pub struct AddOptions {
    /// Format of FILE, from `--format`.
    pub taken: FormatChoice,
    /// Byte that fills gaps, from `--fill`.
    pub fill: Option<u8>,
}

/// Names of FILE and OUT, and the identifiers for the suffix.
#[derive(Clone, Copy)]
struct Added<'w> {
    file: &'w str,
    to: &'w str,
    ids: Ids,
}

/// Returns a hint if `file` looks like something other than a raw image by its first bytes, `head`, and its name. Returns None for text,
/// which some boards accept, or if memory runs out.
fn hint(alloc: Global, file: &str, head: &[u8]) -> Option<String> {
    let why = match look_at(head, file.as_bytes()).looks {
        Looks::Of(format) => looks_like_hint(alloc, format),
        Looks::Raw | Looks::Other(NotImage::Text) => return None,
        Looks::Other(other) => not_image_hint(alloc, other),
    };
    match why {
        Ok(why) => file_reason(alloc, file, &why),
        Err(_) => None,
    }
}

/// Adds a suffix to the bytes of a reader, and creates OUT only if that succeeds. Then it prints `behind` after the line. After a fault,
/// the outcome contains the reason.
fn add_from_reader<'w, R: Files + Print + AllocGlobal, S: Read + Drop>(
    rt: &'w R,
    added: Added<'w>,
    noting: &mut RecordingReader<S>,
    behind: &str,
) -> Outcome
where
    R::File: Owned,
{
    let alloc = rt.alloc();
    let mut made = Replacement::new(rt, Some(added.file), added.to);
    let mut line = Vec::new(alloc);
    let (exit, fault) = add_with_fault(alloc, &mut *noting, added.ids, &mut made, &mut line);
    if exit == Exit::Done && line.extend_from_slice(behind.as_bytes()).is_ok() {
        return finish(rt, added.to, made, &line);
    }
    let reason = match (fault, &made.error) {
        (Some(SuffixFault::Write), Some(error)) => error_reason(alloc, added.to, error),
        (Some(fault), _) => reader_reason(alloc, added.file, fault, noting, &Findings::new()),
        (None, _) => None,
    };
    made.abandon();
    match exit {
        Exit::Done => Outcome {
            exit: fault_text(SuffixFault::NoMemory, &mut io::writer(rt)),
            reason,
        },
        _ => Outcome {
            exit: write_out(&mut io::writer(rt), &line, exit),
            reason,
        },
    }
}

/// Writes `line`, the refusal of `file`, and returns the outcome with the reason `why`.
fn refuse_file<R: Print + AllocGlobal>(
    rt: &R,
    file: &str,
    line: Result<String, AllocError>,
    why: Result<String, AllocError>,
) -> Outcome {
    let mut out = io::writer(rt);
    Outcome {
        exit: match line {
            Ok(line) => write_out(&mut out, line.as_bytes(), Exit::Refused),
            Err(_) => fault_text(SuffixFault::NoMemory, &mut out),
        },
        reason: match why {
            Ok(why) => file_reason(rt.alloc(), file, &why),
            Err(_) => None,
        },
    }
}

/// Writes the line for `fault`, because of which no image of `format` can be read from `file`. Returns the outcome with the reason.
fn refuse_image<R: Print + AllocGlobal>(
    rt: &R,
    file: &str,
    fault: ImageFileFault,
    format: Format,
    bytes: &[u8],
) -> Outcome {
    let bad = match fault {
        ImageFileFault::Unread(_) => bad_place(format, bytes),
        _ => None,
    };
    let alloc = rt.alloc();
    refuse_file(rt, file, refused_line(alloc, fault), why(alloc, fault, bad))
}

/// Adds a suffix to bytes in memory, and prints `behind` after the line.
fn add_bytes<R: Files + Input + Print + AllocGlobal>(
    rt: &R,
    added: Added<'_>,
    bytes: Vec<u8>,
    behind: &str,
) -> Outcome
where
    R::File: Owned,
{
    let given: Given<R::File, R::Reader> = Given::Bytes(Held::new(bytes));
    add_from_reader(rt, added, &mut RecordingReader::new(given), behind)
}

/// Adds a suffix to the image in `bytes`, a file of `format`. Refuses the file if no image can be read from it.
fn add_image_of<R: Files + Input + Print + AllocGlobal>(
    rt: &R,
    added: Added<'_>,
    format: Format,
    fill: Option<u8>,
    bytes: &[u8],
) -> Outcome
where
    R::File: Owned,
{
    let alloc = rt.alloc();
    match image_of(alloc, format, fill, bytes) {
        Ok(image) => match image_line(alloc, format, image.address) {
            Ok(line) => add_bytes(rt, added, image.bytes, &line),
            Err(_) => refused_bytes(rt, added.file, SuffixFault::NoMemory, bytes, false),
        },
        Err(fault) => refuse_image(rt, added.file, fault, format, bytes),
    }
}

/// Returns true if `bytes` end with a suffix of DFU or of DfuSe.
fn has_suffix(bytes: &[u8]) -> bool {
    matches!(read(bytes), Ok(_) | Err(SuffixFault::DfuSe))
}

/// Adds a suffix to the image in a file. The format is that of `--format`, or the one that the file looks like. A file without a known
/// format is read as a raw image. A file that already has a suffix is refused.
fn add_image<R: Files + Input + Print + AllocGlobal>(
    rt: &R,
    added: Added<'_>,
    how: AddOptions,
    noting: &mut RecordingReader<Given<R::File, R::Reader>>,
) -> Outcome
where
    R::File: Owned,
{
    let alloc = rt.alloc();
    let bytes = match gather(alloc, &mut *noting, MAX_FILE) {
        Ok(bytes) => bytes,
        Err(fault) => return refused(rt, added.file, gather_fault(fault), noting),
    };
    let looks = match how.taken {
        FormatChoice::As(format) => Looks::Of(format),
        _ => look_at(&bytes, added.file.as_bytes()).looks,
    };
    match looks {
        Looks::Of(format) => add_image_of(rt, added, format, how.fill, &bytes),
        Looks::Other(other) if !has_suffix(&bytes) => refuse_file(
            rt,
            added.file,
            not_image_line(alloc, other),
            why_not(alloc, other),
        ),
        _ => add_bytes(rt, added, bytes, ""),
    }
}

/// Adds a suffix to a file, or to standard input if the name is `-`, and creates file `to` only if that succeeds. For an image, a second
/// line shows its format and the address of its first byte. After a fault, the outcome contains the reason. Without `--format`, it contains
/// a hint if the file looks like something other than a raw image.
pub fn add_file<R: Files + Input + Print + AllocGlobal>(
    rt: &R,
    file: &str,
    to: &str,
    ids: Ids,
    how: AddOptions,
) -> Outcome
where
    R::File: Owned,
{
    let reader = match open(rt, file) {
        Ok(reader) => reader,
        Err(error) => return unread(rt, file, &error),
    };
    let added = Added { file, to, ids };
    let mut noting = RecordingReader::new(reader);
    match how.taken {
        FormatChoice::Auto | FormatChoice::As(_) => add_image(rt, added, how, &mut noting),
        FormatChoice::Raw => add_from_reader(rt, added, &mut noting, ""),
        FormatChoice::Unsaid => {
            let answer = add_from_reader(rt, added, &mut noting, "");
            match answer.exit {
                Exit::Done => Outcome {
                    exit: Exit::Done,
                    reason: hint(rt.alloc(), file, noting.head()),
                },
                _ => answer,
            }
        }
    }
}
