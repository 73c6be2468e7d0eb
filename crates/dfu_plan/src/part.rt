//! Search for a part in a table of parts.

ghost use Rattle.std.specs.Prelude.{◌≡◌, IfOk, Ok};
ghost use Rattle.dfu_places.specs.Regions.{region_end};
ghost use Rattle.dfu_plan.specs.Parts.{IsPartResult, part_if_known, part_in, part_with_line, part_with_row};

use crate::row::{Row, RowFault, row_in};
use crate::words::next_line;
use dfu_places::Region;
use std::alloc::{AllocError, Global};
use std::marker::Model;
use thiserror::Error;

/// Faults of a search for a part in a table.
#[derive(Debug, Drop, Error)]
pub enum PartFault {
    /// The line with this number, from 1 on, is neither empty, a comment nor a region, or its region is out of order.
    #[error("line {number}: {why}")]
    BadLine {
        /// Number of the line, from 1 on.
        number: usize,
        /// Fault of the line.
        why: RowFault,
    },
    /// No line names the part.
    #[error("no line names the part")]
    UnknownPart,
    /// An allocation was refused.
    #[error("there is no memory for it")]
    NoMemory,
}

/// A part: its regions, the note of the first one, and the address after the last one.
#[derive(Drop)]
pub struct Part {
    /// Regions in the order of their addresses, which do not overlap.
    pub regions: Vec<Region>,
    /// Note of the first region, on the source of the numbers; empty if there is none.
    pub note: Vec<u8>,
    /// Address after the last region; 0 if there are no regions.
    pub end: u64,
}

impl Model for Part {
    ghost use Rattle.dfu_plan.specs.PartRead.{PartRead};

    ghost Value = { PartRead };

    ghost view = { λ p. record { regions = p.regions.items; note = p.note.items; end = p.end } };
}

/// Returns the address after the last byte of a region.
fn region_end(region: Region) -> u64
    ensures { result ≡ region_end region }
{
    region.at as u64 + region.sector as u64 * region.count as u64
}

/// Returns the part, with the region of a row added if the row names the part, or Order if that region begins before the part's end.
#[tactic(auto, using(std::proofs::lemmas::Bool::Decides::nat_tests), unfolding(crate::specs::Parts::part_with_row))]
fn part_with_row(
    part: Part,
    name: &[u8],
    row: Option<Row<'_>>,
) -> Result<Result<Part, RowFault>, AllocError>
    ensures { IfOk result (λ r. r ≡ part_with_row name.now row.entry part) }
{
    let Some(row) = row else {
        return Ok(Ok(part));
    };
    if row.name != name {
        return Ok(Ok(part));
    }
    if (row.region.at as u64) < part.end {
        return Ok(Err(RowFault::Order));
    }
    let Part {
        mut regions,
        mut note,
        ..
    } = part;
    if regions.is_empty() {
        note.extend_from_slice(row.note)?;
    }
    regions.push(row.region)?;
    Ok(Ok(Part {
        regions,
        note,
        end: region_end(row.region),
    }))
}

/// Returns the part, with the region of a line added if the line names the part, or the fault of the line.
fn part_with_line(
    part: Part,
    name: &[u8],
    line: &[u8],
) -> Result<Result<Part, RowFault>, AllocError>
    ensures { IfOk result (λ r. r ≡ part_with_line name.now line.now part) }
{
    match row_in(line) {
        Ok(row) => part_with_row(part, name, row),
        Err(why) => Ok(Err(why)),
    }
}

/// Returns the part if it has a region; else UnknownPart.
#[tactic(auto, using(std::proofs::lemmas::Bool::Decides::nat_tests))]
fn part_if_known(part: Part) -> Result<Part, PartFault>
    ensures { result ≡ part_if_known (Ok part) }
{
    if part.regions.len() == 0 {
        return Err(PartFault::UnknownPart);
    }
    Ok(part)
}

/// Returns the regions of a part in a table of parts. Reads each line up to the first wrong one, even if that names another part.
///
/// # Errors
///
/// BadLine at the first wrong line; UnknownPart if no line is wrong and none names the part; NoMemory if an allocation was refused.
pub fn part_in(alloc: Global, table: &[u8], name: &[u8]) -> Result<Part, PartFault>
    ensures { IsPartResult (part_in name.now table.now) result }
{
    let mut part = Part {
        regions: Vec::new(alloc),
        note: Vec::new(alloc),
        end: 0,
    };
    let mut rest = table;
    let mut number = 0usize;
    'lines: while rest.len() > 0 {
        let (line, behind) = next_line(rest);
        number += 1;
        part = match part_with_line(part, name, line) {
            Ok(Ok(part)) => part,
            Ok(Err(why)) => return Err(PartFault::BadLine { number, why }),
            Err(_) => return Err(PartFault::NoMemory),
        };
        rest = behind;
    }
    part_if_known(part)
}
