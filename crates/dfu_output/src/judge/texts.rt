//! The lines of a departure and of a verdict.

ghost use Rattle.std.specs.Prelude.{◌≡◌, ◌<◌, ◌≤◌, ◌++◌, ◌∷◌, IfOk, OnOk, [], codes, cond};
ghost use Rattle.std.specs.String.{string_bytes};
ghost use Rattle.dfu_conformance.specs.Candidates.{reading_bit};
ghost use Rattle.dfu_output.specs.Fields.{text_with_fields};
ghost use Rattle.dfu_output.specs.judge.Texts.{allowed_text, departure_first_line, departure_text, texts_of_each, is_single, may_be_in_state, reading_text, readings_text, row_line, spaced_state, states_text, stall_unchanged_text, verdict_text};

use crate::fields::Value::{Number, Text};
use crate::fields::{Field, field, line_of, push, push_fields, text_of};
use crate::judge::names::{
    READINGS, STATES, answer_name, event_kind_name, place_name, reading_name, source_name,
    when_name,
};
use dfu_conformance::{Departure, LogEvent, Reading, Row, STANDARD, StandardState, Verdict};
use std::alloc::{AllocError, Global};

/// Returns true if a device may be in the state `place`, where `at` lists the states in which it may be. Fresh is dfuIDLE in the standard.
pub(crate) fn may_be_in_state(at: &[bool; 12], place: StandardState) -> bool
    ensures { result ≡ may_be_in_state at.now place }
{
    match place {
        StandardState::DfuIdle => at[2] || at[11],
        place => at[place.number()],
    }
}

/// Returns 1 if `yes` is true, and 0 otherwise.
fn count_if(yes: bool) -> usize
    ensures value { result ≡ cond yes 1 0 }
    ensures at_most_1 { result ≤ 1 }
{
    if yes { 1 } else { 0 }
}

/// Returns true if a device may be in exactly one state.
#[tactic(auto, unfolding(crate::specs::judge::Texts::is_single))]
pub fn is_single(at: &[bool; 12]) -> bool
    ensures { result ≡ is_single at.now }
{
    let mut count = 0usize;
    for place in &STATES {
        count += count_if(may_be_in_state(at, *place));
    }
    count == 1
}

/// Adds the name of the state `place` if a device may be in it.
fn push_state(line: &mut String, at: &[bool; 12], place: StandardState) -> Result<(), AllocError>
    ensures { OnOk result (string_bytes line.new ≡ string_bytes line.old ++ spaced_state at.now place) }
{
    if !may_be_in_state(at, place) {
        return Ok(());
    }
    field(line, " ", place_name(place))
}

/// Adds the names of the states in which a device may be.
fn push_states(line: &mut String, at: &[bool; 12]) -> Result<(), AllocError>
    ensures { OnOk result (string_bytes line.new ≡ string_bytes line.old ++ states_text at.now) }
{
    for place in &STATES {
        push_state(line, at, *place)?;
    }
    Ok(())
}

/// Adds the name of a habit if the set contains it.
fn push_reading(line: &mut String, readings: u8, reading: Reading) -> Result<(), AllocError>
    ensures { OnOk result (string_bytes line.new ≡ string_bytes line.old ++ reading_text readings reading) }
{
    if readings >> reading_bit(reading) & 1 != 1 {
        return Ok(());
    }
    field(line, " ", reading_name(reading))
}

/// Returns the index of the habit's bit, 0 to 5, in the number of a set of habits.
fn reading_bit(reading: Reading) -> u8
    ensures value { result ≡ reading_bit reading }
    ensures below_6 { result < 6 }
{
    match reading {
        Reading::Bootloader => 0,
        Reading::RuntimeMute => 1,
        Reading::SelfReset => 2,
        Reading::DetachAtOnce => 3,
        Reading::DetachLeaves => 4,
        Reading::ErrorWithoutCode => 5,
    }
}

/// Adds the names of the habits in the set `readings`.
fn push_readings(line: &mut String, readings: u8) -> Result<(), AllocError>
    ensures { OnOk result (string_bytes line.new ≡ string_bytes line.old ++ readings_text readings) }
{
    for reading in &READINGS {
        push_reading(line, readings, *reading)?;
    }
    Ok(())
}

#[tactic(auto, unfolding(crate::specs::judge::Texts::row_line))]
fn push_row(line: &mut String, row: &Row) -> Result<(), AllocError>
    ensures { OnOk result (string_bytes line.new ≡ string_bytes line.old ++ row_line row.now) }
{
    field(line, "allowed ", place_name(row.from))?;
    field(line, " ", event_kind_name(row.asked))?;
    field(line, " ", answer_name(row.gives))?;
    field(line, " ", place_name(row.next))?;
    field(line, " ", source_name(row.source))?;
    field(line, when_name(row.when), "\n")
}

/// Adds the line of a row if the row gives an allowed answer.
pub(crate) fn push_if_allowed(
    line: &mut String,
    departure: &Departure,
    row: &Row,
) -> Result<(), AllocError>
    ensures { OnOk result (string_bytes line.new ≡ string_bytes line.old ++ allowed_text departure.now row.now) }
{
    if !departure.allows(row) {
        return Ok(());
    }
    push_row(line, row)
}

/// Adds a line for each row of the standard that gives an allowed answer.
fn push_allowed(line: &mut String, departure: &Departure) -> Result<(), AllocError>
    ensures { OnOk result (string_bytes line.new ≡ string_bytes line.old ++ texts_of_each (allowed_text departure.now) STANDARD) }
{
    for row in &STANDARD {
        push_if_allowed(line, departure, row)?;
    }
    Ok(())
}

/// Adds the line that allows a device to stall a request and keep its state, if the request deviates from section 3 of USB DFU 1.1.
fn push_unchanged(line: &mut String, event: &LogEvent) -> Result<(), AllocError>
    ensures { OnOk result (string_bytes line.new ≡ string_bytes line.old ++ stall_unchanged_text event.now) }
{
    if event.is_plain {
        return Ok(());
    }
    push(line, "allowed any other stall unchanged open\n")
}

/// Adds a label and the states in which a device may be, and ends the line.
fn end_states(line: &mut String, label: &str, at: &[bool; 12]) -> Result<(), AllocError>
    ensures { OnOk result (string_bytes line.new ≡ string_bytes line.old ++ ((label.now ++ states_text at.now) ++ 10 ∷ [])) }
{
    push(line, label)?;
    push_states(line, at)?;
    push(line, "\n")
}

/// Returns the first line of `departure` at line `number` of a log.
#[tactic(auto, using(std::proofs::lemmas::List::append_assoc), unfolding(crate::specs::judge::Texts::departure_first_line))]
pub(crate) fn departs_line(
    alloc: Global,
    number: u64,
    departure: &Departure,
) -> Result<String, AllocError>
    ensures { IfOk result (λ t. string_bytes t ≡ departure_first_line number departure.now) }
{
    let asked = event_kind_name(departure.event.asked);
    let mut line = text_of(alloc, &[("departs ", Number(number)), (" ", Text(asked))])?;
    end_states(&mut line, " in", &departure.before)?;
    Ok(line)
}

/// Returns the lines of `departure` at line `number` of a log.
///
/// # Errors
///
/// AllocError if there is no memory for the lines.
#[tactic(auto, unfolding(crate::specs::judge::Texts::departure_text))]
pub(crate) fn departure_text(
    alloc: Global,
    number: u64,
    departure: &Departure,
) -> Result<String, AllocError>
    ensures { IfOk result (λ t. string_bytes t ≡ departure_text number departure.now) }
{
    let mut line = departs_line(alloc, number, departure)?;
    push_allowed(&mut line, departure)?;
    push_unchanged(&mut line, &departure.event)?;
    Ok(line)
}

/// Adds habits, counts and the states in which a device may be, and ends the line.
fn finish_kept_line(
    alloc: Global,
    line: &mut String,
    readings: u8,
    counts: &[Field<'_>],
    at: &[bool; 12],
) -> Result<(), AllocError>
    ensures { OnOk result (string_bytes line.new
        ≡ text_with_fields (string_bytes line.old ++ readings_text readings) counts.now ++ ((codes " states" ++ states_text at.now) ++ 10 ∷ [])) }
{
    push_readings(line, readings)?;
    push_fields(alloc, line, counts)?;
    end_states(line, " states", at)
}

/// Returns the line of a `kept` verdict: `first`, the habits in `readings`, `counts`, and the states in which the device may be. An element
/// of `at` is true if the device may be in the state with this index.
fn kept_line(
    alloc: Global,
    first: &str,
    readings: u8,
    counts: &[Field<'_>],
    at: &[bool; 12],
) -> Result<String, AllocError>
    ensures { IfOk result (λ t. string_bytes t
        ≡ text_with_fields (first.now ++ readings_text readings) counts.now ++ ((codes " states" ++ states_text at.now) ++ 10 ∷ [])) }
{
    let mut line = String::from_str(alloc, first)?;
    finish_kept_line(alloc, &mut line, readings, counts, at)?;
    Ok(line)
}

/// Returns the line of `verdict` with the counts `events` and `single`, for a device that may be in the states that `at` lists.
///
/// # Errors
///
/// AllocError if there is no memory for the line.
#[tactic(auto, using(std::proofs::lemmas::List::append_assoc), unfolding(crate::specs::judge::Texts::verdict_text))]
pub fn verdict_text(
    alloc: Global,
    verdict: Verdict,
    at: &[bool; 12],
    events: u64,
    single: u64,
) -> Result<String, AllocError>
    ensures { IfOk result (λ t. string_bytes t ≡ verdict_text verdict at.now events single) }
{
    let counts = [(" events ", Number(events)), (" single ", Number(single))];
    match verdict {
        Verdict::Kept => kept_line(alloc, "kept", 0, &counts, at),
        Verdict::KeptBy { readings } => kept_line(alloc, "kept by", readings, &counts, at),
        Verdict::NotKept => line_of(alloc, "not kept", &counts),
    }
}
