//! Text of a plan: the addresses of the gates, headers, data and run area, and their initialiser in C.

ghost use Rattle.std.specs.Prelude.{◌≡◌, ◌++◌, ◌<◌, ◌^◌, IfOk, OnOk};
ghost use Rattle.std.specs.String.{string_bytes};
ghost use Rattle.dfu_plan.specs.PlanText.{area_count, data_line, first_slot_lines, head_text, plan_lines, note_line, place_line, places_text, plan_objects, plan_text, run_line, run_text, second_slot_lines};

use crate::pieces::Piece::{Hex, Number, Word};
use crate::pieces::push_pieces;
use dfu_places::{Placement, SlotPlaces, Span};
use std::alloc::{AllocError, Global};

/// A placement, with the part and the bootloader for which it was made.
#[derive(Clone, Copy)]
pub struct Plan<'p> {
    /// Name of the part.
    pub part: &'p str,
    /// Note on the source of the part's sectors; empty if there is none.
    pub note: &'p str,
    /// Address and length of the bootloader.
    pub boot: Span,
    /// Addresses of the gates, headers, data and run area on the part.
    pub placement: Placement,
}

/// Form of the lines of a plan: words, JSON objects, or an initialiser in C.
#[derive(Clone, Copy)]
pub(crate) enum Form {
    /// Lines of words, as in `part NAME boot LENGTH`.
    Words,
    /// JSON objects (RFC 8259).
    Objects,
    /// Arguments of DFU_PLACEMENT of dfu_places.h, an initialiser in C.
    Arguments,
}

/// Returns the number of areas of a placement: two, or three with a run area.
fn area_count(placement: &Placement) -> u32
    ensures { result ≡ area_count placement.now.run }
{
    match placement.run {
        Some(_) => 3,
        None => 2,
    }
}

/// Appends the first lines: the part, the bootloader, the areas, the largest image and the sector. In C, appends the text before the spans.
#[rattlefmt::skip]
#[tactic(auto, unfolding(crate::specs::PlanText::head_text))]
fn push_head(alloc: Global, text: &mut String, form: Form, plan: &Plan<'_>, areas: u32) -> Result<(), AllocError>
    ensures { OnOk result (string_bytes text.new ≡ string_bytes text.old ++ head_text form areas plan.now) }
{
    let part = Word(plan.part);
    let boot = Number(plan.boot.len);
    let areas = Number(areas);
    let image = Number(plan.placement.first.data.len);
    let sector = Number(plan.placement.sector);
    match form {
        Form::Words => push_pieces(alloc, text, &[
            Word("part "), part, Word(" boot "), boot, Word(" areas "), areas, Word(" image "), image, Word(" sector "), sector,
            Word("\n"),
        ]),
        Form::Objects => push_pieces(alloc, text, &[
            Word("{\"part\":\""), part, Word("\",\"boot\":"), boot, Word(",\"areas\":"), areas, Word(",\"image\":"), image,
            Word(",\"sector\":"), sector, Word("}\n"),
        ]),
        Form::Arguments => push_pieces(alloc, text, &[
            Word("\n/* dfu plan --part "), part, Word(" --boot "), boot, Word(" --areas "), areas,
            Word(" */\nDFU_PLACEMENT(places, "), sector, Word(", "), image,
            Word(", 256, /* virtual sector, data of a slot, any unit */\n    0x"), Hex(plan.boot.at as u64), Word(", "), boot,
            Word(", /* bootloader */\n"),
        ]),
    }
}

/// Appends the note on the source of the sectors, if there is one.
#[tactic(auto, unfolding(crate::specs::PlanText::note_line))]
fn push_note(alloc: Global, text: &mut String, note: &str) -> Result<(), AllocError>
    ensures { OnOk result (string_bytes text.new ≡ string_bytes text.old ++ note_line note.now) }
{
    if note.is_empty() {
        return Ok(());
    }
    push_pieces(alloc, text, &[Word("sectors "), Word(note), Word("\n")])
}

/// Appends the line of a span: its name, its address and its length on the part. Its address in the virtual flash follows, except in C.
#[rattlefmt::skip]
#[tactic(auto, unfolding(crate::specs::PlanText::place_line))]
fn push_place(alloc: Global, text: &mut String, form: Form, name: &str, span: Span, place: u64) -> Result<(), AllocError>
    ensures { OnOk result (string_bytes text.new ≡ string_bytes text.old ++ place_line form name.now span place) }
{
    let name = Word(name);
    let at = Hex(span.at as u64);
    let place = Hex(place);
    match form {
        Form::Words => push_pieces(alloc, text, &[
            name, Word(" at "), at, Word(" bytes "), Number(span.len), Word(" virtual "), place, Word("\n"),
        ]),
        Form::Objects => push_pieces(alloc, text, &[
            Word("{\"place\":\""), name, Word("\",\"at\":\""), at, Word("\",\"bytes\":"), Number(span.len), Word(",\"virtual\":\""), place,
            Word("\"}\n"),
        ]),
        Form::Arguments => push_pieces(alloc, text, &[
            Word("    0x"), at, Word(", "), Number(span.len), Word(", /* "), name, Word(" */\n"),
        ]),
    }
}

/// Appends the line of the data of a slot. In C, `end` follows the address, and the length is left out, because it is printed once before
/// all spans.
#[rattlefmt::skip]
fn push_data<'t>(alloc: Global, text: &mut String, form: Form, name: &'t str, end: &'t str, span: Span, place: u64) -> Result<(), AllocError>
    ensures { OnOk result (string_bytes text.new ≡ string_bytes text.old ++ data_line form name.now end.now span place) }
{
    match form {
        Form::Words | Form::Objects => push_place(alloc, text, form, name, span, place),
        Form::Arguments => push_pieces(alloc, text, &[
            Word("    0x"), Hex(span.at as u64), Word(end), Word(" /* "), Word(name), Word(" */\n"),
        ]),
    }
}

/// Appends the lines of the first slot: its gate, header and data.
fn push_first(
    alloc: Global,
    text: &mut String,
    form: Form,
    slot: SlotPlaces,
    sector: u64,
) -> Result<(), AllocError>
    requires { sector < 2 ^ 32 }
    ensures { OnOk result (string_bytes text.new ≡ string_bytes text.old ++ first_slot_lines form slot sector) }
{
    push_place(alloc, text, form, "first gate", slot.gate, 0)?;
    push_place(alloc, text, form, "first header", slot.header, sector)?;
    push_data(alloc, text, form, "first data", ",", slot.data, 2 * sector)
}

/// Appends the lines of the second slot, its gate, header and data. The slot begins at offset `place` of the virtual flash.
fn push_second(
    alloc: Global,
    text: &mut String,
    form: Form,
    slot: SlotPlaces,
    place: u64,
    sector: u64,
) -> Result<(), AllocError>
    requires place { place < 2 ^ 35 }
    requires sector { sector < 2 ^ 32 }
    ensures { OnOk result (string_bytes text.new ≡ string_bytes text.old ++ second_slot_lines form slot place sector) }
{
    push_place(alloc, text, form, "second gate", slot.gate, place)?;
    push_place(
        alloc,
        text,
        form,
        "second header",
        slot.header,
        place + sector,
    )?;
    push_data(
        alloc,
        text,
        form,
        "second data",
        ");",
        slot.data,
        place + 2 * sector,
    )
}

/// Appends the lines of both slots.
fn push_places(
    alloc: Global,
    text: &mut String,
    form: Form,
    placement: &Placement,
) -> Result<(), AllocError>
    ensures { OnOk result (string_bytes text.new ≡ string_bytes text.old ++ places_text form placement.now) }
{
    let sector = placement.sector as u64;
    let half = 2 * sector + placement.first.data.len as u64;
    push_first(alloc, text, form, placement.first, sector)?;
    push_second(alloc, text, form, placement.second, half, sector)
}

/// Appends the line of a run area, which has no address in the virtual flash.
#[rattlefmt::skip]
#[tactic(auto, unfolding(crate::specs::PlanText::run_line))]
fn push_run_line(alloc: Global, text: &mut String, form: Form, span: Span) -> Result<(), AllocError>
    ensures { OnOk result (string_bytes text.new ≡ string_bytes text.old ++ run_line form span) }
{
    let at = Hex(span.at as u64);
    match form {
        Form::Words => push_pieces(alloc, text, &[Word("run area at "), at, Word(" bytes "), Number(span.len), Word("\n")]),
        Form::Objects => push_pieces(alloc, text, &[
            Word("{\"place\":\"run area\",\"at\":\""), at, Word("\",\"bytes\":"), Number(span.len), Word("}\n"),
        ]),
        Form::Arguments => push_pieces(alloc, text, &[Word("#define RUN_AREA 0x"), at, Word("u\n")]),
    }
}

/// Appends the line of the run area, if there is one.
fn push_run(
    alloc: Global,
    text: &mut String,
    form: Form,
    run: Option<Span>,
) -> Result<(), AllocError>
    ensures { OnOk result (string_bytes text.new ≡ string_bytes text.old ++ run_text form run) }
{
    match run {
        Some(span) => push_run_line(alloc, text, form, span),
        None => Ok(()),
    }
}

/// Appends the lines of a plan, without the note.
fn push_lines(
    alloc: Global,
    text: &mut String,
    form: Form,
    plan: &Plan<'_>,
) -> Result<(), AllocError>
    ensures { OnOk result (string_bytes text.new ≡ string_bytes text.old ++ plan_lines form plan.now) }
{
    push_head(alloc, text, form, plan, area_count(&plan.placement))?;
    push_places(alloc, text, form, &plan.placement)?;
    push_run(alloc, text, form, plan.placement.run)
}

/// Appends the text of a plan: its lines, the note, and the initialiser in C.
fn push_plan(alloc: Global, text: &mut String, plan: &Plan<'_>) -> Result<(), AllocError>
    ensures { OnOk result (string_bytes text.new ≡ string_bytes text.old ++ plan_text plan.now) }
{
    push_lines(alloc, text, Form::Words, plan)?;
    push_note(alloc, text, plan.note)?;
    push_lines(alloc, text, Form::Arguments, plan)
}

/// Returns the text of a plan: a line for the part, with the largest image, a line for each gate, header, data and run area, the note on
/// the source of the sectors, and the initialiser in C.
///
/// # Errors
///
/// AllocError if there is no memory for the text.
pub fn plan_text(alloc: Global, plan: &Plan<'_>) -> Result<String, AllocError>
    ensures { IfOk result (λ t. string_bytes t ≡ plan_text plan.now) }
{
    let mut text = String::new(alloc);
    push_plan(alloc, &mut text, plan)?;
    Ok(text)
}

/// Returns the JSON objects of a plan, one in each line: one for the part, and one for each gate, header, data and run area.
///
/// # Errors
///
/// AllocError if there is no memory for the text.
pub fn plan_objects(alloc: Global, plan: &Plan<'_>) -> Result<String, AllocError>
    ensures { IfOk result (λ t. string_bytes t ≡ plan_objects plan.now) }
{
    let mut text = String::new(alloc);
    push_lines(alloc, &mut text, Form::Objects, plan)?;
    Ok(text)
}
