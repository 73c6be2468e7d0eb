//! `dfu plan`: the placement of gates, headers and data on a part.

use crate::line_ends::LineEnds;
use crate::nearest::{KnownParts, known_parts_in};
use crate::numbering::areas_in;
use crate::plan_words::PlanWords;
use crate::watching::ErrorKeeper;
use crate::words::{WordFault, refused_word};
use dfu_fs::{JsonLines, error_reason, file_reason, gather_fault, open};
use dfu_output::{Exit, Outcome, fault_text, reason_line, write_out};
use dfu_places::{Areas, Needs, Placement, Span, plan};
use dfu_plan::{PARTS, Part, PartFault, Plan, RowFault, part_in, plan_objects, plan_text, size_in};
use dfu_slots::Unit;
use dfu_suffix::{SuffixFault, gather};
use std::alloc::{AllocError, Global};
use std::io::{self, Printer};
use std::rt::Files;

/// Largest size of a table of parts in bytes.
const MAX_TABLE: usize = 1_048_576;

/// Returns the output for the line of a refusal or a fault. With `--json`, the line is a JSON object.
fn output<'o, R: Print + AllocGlobal>(
    rt: &'o R,
    words: PlanWords<'o>,
) -> JsonLines<'o, Printer<'o, R>> {
    JsonLines::new(rt.alloc(), words.json, words.parts, io::writer(rt))
}

/// Reads a whole table of parts, whose lines may end with CR LF. Returns the outcome if reading fails.
fn read_table<R: Files + Input + Print + AllocGlobal>(
    rt: &R,
    words: PlanWords<'_>,
    name: &str,
) -> Result<Vec<u8>, Outcome> {
    let alloc = rt.alloc();
    let given = match open(rt, name) {
        Ok(given) => given,
        Err(error) => {
            return Err(Outcome {
                exit: fault_text(SuffixFault::Read, &mut output(rt, words)),
                reason: error_reason(alloc, name, &error),
            });
        }
    };
    let mut watched = ErrorKeeper::new(given);
    match gather(alloc, LineEnds::new(&mut watched), MAX_TABLE) {
        Ok(bytes) => Ok(bytes),
        Err(fault) => Err(Outcome {
            exit: fault_text(gather_fault(fault), &mut output(rt, words)),
            reason: watched.reason(alloc, name),
        }),
    }
}

/// Returns the reason for refusing an unknown part, with the names in the table and the most similar one.
fn unknown_reason(alloc: Global, table: &[u8], part: &str) -> Result<String, AllocError> {
    let KnownParts { names, nearest, .. } = known_parts_in(alloc, table, part)?;
    let why = if nearest.is_empty() {
        format!(in alloc; "it isn't in the table, which has {names}")?
    } else {
        format!(in alloc; "it isn't in the table, which has {names}; did you mean {nearest}?")?
    };
    reason_line(alloc, "--part ", part, &why)
}

/// Refuses a part that the table doesn't contain, or a table with an invalid line.
fn refuse_part<R: Print + AllocGlobal>(
    rt: &R,
    words: PlanWords<'_>,
    table: &[u8],
    fault: PartFault,
) -> Outcome {
    let alloc = rt.alloc();
    match fault {
        PartFault::BadLine { number, why } => bad_line(rt, words, number, why),
        PartFault::UnknownPart => Outcome {
            exit: write_out(
                &mut output(rt, words),
                b"refused UnknownPart\n",
                Exit::Refused,
            ),
            reason: unknown_reason(alloc, table, words.part).ok(),
        },
        PartFault::NoMemory => no_memory(rt, words),
    }
}

/// Refuses a table whose line `number` is invalid because of `why`.
fn bad_line<R: Print + AllocGlobal>(
    rt: &R,
    words: PlanWords<'_>,
    number: usize,
    why: RowFault,
) -> Outcome {
    let alloc = rt.alloc();
    let Ok(line) = format!(in alloc; "refused BadLine {number}\n") else {
        return no_memory(rt, words);
    };
    let name = words.parts.unwrap_or("the built-in table");
    Outcome {
        exit: write_out(&mut output(rt, words), line.as_bytes(), Exit::Refused),
        reason: match format!(in alloc; "line {number}: {why}") {
            Ok(why) => file_reason(alloc, name, &why),
            Err(_) => None,
        },
    }
}

/// Refuses a bootloader of `boot` bytes and a number of areas that don't fit into the part.
fn refuse_no_room<R: Print + AllocGlobal>(
    rt: &R,
    words: PlanWords<'_>,
    part: &Part,
    boot: u32,
) -> Outcome {
    let alloc = rt.alloc();
    let areas = words.areas;
    let why = if is_full(part, boot) {
        format!(in alloc; "a bootloader of {boot} bytes leaves no sector")
    } else {
        format!(in alloc;
            "behind a bootloader of {boot} bytes its sectors are too few or too unequal for {areas} areas"
        )
    };
    Outcome {
        exit: write_out(&mut output(rt, words), b"refused NoRoom\n", Exit::Refused),
        reason: match why {
            Ok(why) => reason_line(alloc, "--part ", words.part, &why).ok(),
            Err(_) => None,
        },
    }
}

/// Writes the line for NoMemory, and returns the outcome without a reason.
fn no_memory<R: Print + AllocGlobal>(rt: &R, words: PlanWords<'_>) -> Outcome {
    Outcome {
        exit: fault_text(SuffixFault::NoMemory, &mut output(rt, words)),
        reason: None,
    }
}

/// Returns the address of the first byte of a part, or 0 if the part has no regions.
fn first_address_of(part: &Part) -> u32 {
    match part.regions.first() {
        Some(region) => region.at,
        None => 0,
    }
}

/// Returns true if a bootloader of `boot` bytes fills the whole part.
fn is_full(part: &Part, boot: u32) -> bool {
    part.end <= u64::from(first_address_of(part)).saturating_add(u64::from(boot))
}

/// Prints the placement on a part, as text or as JSON objects.
fn print_plan<R: Print + AllocGlobal>(
    rt: &R,
    words: PlanWords<'_>,
    part: &Part,
    boot: Span,
    placement: Placement,
) -> Outcome {
    let alloc = rt.alloc();
    let planned = Plan {
        part: words.part,
        // Each note is printable ASCII.
        note: std::str::from_utf8(&part.note).unwrap_or(""),
        boot,
        placement,
    };
    let text = if words.json {
        plan_objects(alloc, &planned)
    } else {
        plan_text(alloc, &planned)
    };
    match text {
        Ok(text) => Outcome {
            exit: write_out(&mut io::writer(rt), text.as_bytes(), Exit::Done),
            reason: None,
        },
        Err(_) => no_memory(rt, words),
    }
}

/// Prints the addresses of gates, headers and data on a part of the table. Refuses an unknown part, or a bootloader and areas that don't
/// fit.
fn plan_part<R: Print + AllocGlobal>(
    rt: &R,
    words: PlanWords<'_>,
    table: &[u8],
    boot: u32,
    areas: Areas,
) -> Outcome {
    let part = match part_in(rt.alloc(), table, words.part.as_bytes()) {
        Ok(part) => part,
        Err(fault) => return refuse_part(rt, words, table, fault),
    };
    let boot = Span {
        at: first_address_of(&part),
        len: boot,
    };
    // The placement must suit every unit, so it is computed for the largest one, 256 bytes.
    let needs = Needs {
        boot,
        unit: Unit::U256,
        marks: 0,
    };
    match plan(&part.regions, needs, areas) {
        Ok(placement) => print_plan(rt, words, &part, boot, placement),
        Err(_) => refuse_no_room(rt, words, &part, boot.len),
    }
}

/// Prints the addresses of gates, headers and data on a part, or refuses the first invalid argument.
pub(crate) fn perform_plan<R: Files + Input + Print + AllocGlobal>(
    rt: &R,
    words: PlanWords<'_>,
) -> Outcome {
    let Some(boot) = size_in(words.boot.as_bytes()) else {
        return refused_word(rt, WordFault::Boot, words.boot);
    };
    let Some(areas) = areas_in(words.areas) else {
        return refused_word(rt, WordFault::Areas, words.areas);
    };
    let Some(name) = words.parts else {
        return plan_part(rt, words, PARTS.as_bytes(), boot, areas);
    };
    match read_table(rt, words, name) {
        Ok(table) => plan_part(rt, words, &table, boot, areas),
        Err(answer) => answer,
    }
}
