//! Lines about a departure from DfuSe.

ghost use Rattle.std.specs.Prelude.{◌≡◌, ◌++◌, IfOk, OnOk};
ghost use Rattle.std.specs.String.{string_bytes};
ghost use Rattle.dfu_conformance.specs.declared.standard.TheConstants.{STANDARD};
ghost use Rattle.dfu_conformance.specs.declared.habits.TheConstants.{HABITS};
ghost use Rattle.dfu_conformance.specs.declared.dfuse.rows.TheConstants.{DFUSE};
ghost use Rattle.dfu_output.specs.judge.Dfuse.{dfuse_allowed_text, dfuse_departure_text, may_stall_text, event_request_name, stall_text_if_allowed};
ghost use Rattle.dfu_output.specs.judge.Texts.{texts_of_each};

use crate::fields::{field, push};
use crate::judge::names::event_kind_name;
use crate::judge::texts::{departs_line, push_if_allowed};
use dfu_conformance::dfuse::{DFUSE, is_of_dfuse, is_told};
use dfu_conformance::{Departure, HABITS, LogEvent, Row, STANDARD};
use std::alloc::{AllocError, Global};

/// Adds the line of a row if the row applies to a DfuSe device and gives an allowed answer.
fn push_if_dfuse(line: &mut String, departure: &Departure, row: &Row) -> Result<(), AllocError>
    ensures { OnOk result (string_bytes line.new ≡ string_bytes line.old ++ dfuse_allowed_text departure.now row.now) }
{
    if !is_of_dfuse(row.when) {
        return Ok(());
    }
    push_if_allowed(line, departure, row)
}

/// Adds to `line` a line for each of `rows` that applies to a DfuSe device and gives an allowed answer.
fn push_rows(line: &mut String, departure: &Departure, rows: &[Row]) -> Result<(), AllocError>
    ensures { OnOk result (string_bytes line.new ≡ string_bytes line.old ++ texts_of_each (dfuse_allowed_text departure.now) rows.now) }
{
    for row in rows {
        push_if_dfuse(line, departure, row)?;
    }
    Ok(())
}

/// Returns the name of the event's request, or `other` if the request deviates from section 3 of USB DFU 1.1.
fn request_name(event: &LogEvent) -> &'static str
    ensures { result.now ≡ event_request_name event.now }
{
    if event.is_plain {
        event_kind_name(event.asked)
    } else {
        "other"
    }
}

/// Adds the line that allows a device to stall the request of `event` and keep its state.
fn push_may_stall(line: &mut String, event: &LogEvent) -> Result<(), AllocError>
    ensures { OnOk result (string_bytes line.new ≡ string_bytes line.old ++ may_stall_text event.now) }
{
    field(line, "allowed any ", request_name(event))?;
    push(line, " stall unchanged open\n")?;
    Ok(())
}

/// Adds the line that allows a device to stall the request of `event` and keep its state, unless the device must answer the request.
fn push_stalled(line: &mut String, event: &LogEvent) -> Result<(), AllocError>
    ensures { OnOk result (string_bytes line.new ≡ string_bytes line.old ++ stall_text_if_allowed event.now) }
{
    if is_told(event) {
        return Ok(());
    }
    push_may_stall(line, event)
}

/// Adds a line for each answer that a DfuSe device might have given at `departure`.
fn push_dfuse(line: &mut String, departure: &Departure) -> Result<(), AllocError>
    ensures { OnOk result (string_bytes line.new ≡ string_bytes line.old ++ texts_of_each (dfuse_allowed_text departure.now) STANDARD
        ++ texts_of_each (dfuse_allowed_text departure.now) HABITS ++ texts_of_each (dfuse_allowed_text departure.now) DFUSE
        ++ stall_text_if_allowed departure.now.event) }
{
    push_rows(line, departure, &STANDARD)?;
    push_rows(line, departure, &HABITS)?;
    push_rows(line, departure, &DFUSE)?;
    push_stalled(line, &departure.event)?;
    Ok(())
}

/// Returns the lines about `departure` from DfuSe at line `number` of a log.
///
/// # Errors
///
/// AllocError if there is no memory for the lines.
#[tactic(auto, unfolding(crate::specs::judge::Dfuse::dfuse_departure_text))]
pub fn dfuse_departure_text(
    alloc: Global,
    number: u64,
    departure: &Departure,
) -> Result<String, AllocError>
    ensures { IfOk result (λ t. string_bytes t ≡ dfuse_departure_text number departure.now) }
{
    let mut line = departs_line(alloc, number, departure)?;
    push_dfuse(&mut line, departure)?;
    Ok(line)
}
