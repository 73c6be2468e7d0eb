//! `dfu add` and `dfu set`: check their arguments, and then write or change files.

use crate::identifiers::{IdTexts, change_in_texts, ids_in_texts};
use crate::words::{WordFault, bad_identifier_reason, refused, refused_word, word_reason};
use dfu_fs::{AddOptions, Owned, add_file, set_file};
use dfu_output::{FormatChoice, Outcome, fill_in, format_choice_in};
use std::alloc::Global;
use std::rt::Files;

/// Returns the options from the values of `--format` and `--fill`. The error is the line with the reason for refusing one of them, or None
/// if memory runs out.
fn add_options_in(
    alloc: Global,
    format: &Option<String>,
    fill: &Option<String>,
) -> Result<AddOptions, Option<String>> {
    let taken = match format {
        Some(word) => match format_choice_in(word) {
            Some(taken) => taken,
            None => return Err(word_reason(alloc, WordFault::Format, word)),
        },
        None => FormatChoice::Unsaid,
    };
    let Some(word) = fill else {
        return Ok(AddOptions { taken, fill: None });
    };
    let Some(byte) = fill_in(word) else {
        return Err(word_reason(alloc, WordFault::Fill, word));
    };
    match taken {
        FormatChoice::Raw | FormatChoice::Unsaid => Err(word_reason(
            alloc,
            WordFault::LoneFill,
            word,
        )),
        _ => Ok(AddOptions {
            taken,
            fill: Some(byte),
        }),
    }
}

/// Writes `file` and a suffix with the identifiers of `texts` into a new file `to`, or refuses the first invalid argument.
pub(crate) fn perform_add<R: Files + Input + Print + AllocGlobal>(
    rt: &R,
    file: &str,
    to: &str,
    texts: &IdTexts<'_>,
    format: &Option<String>,
    fill: &Option<String>,
) -> Outcome
where
    R::File: Owned,
{
    let alloc = rt.alloc();
    let Some(ids) = ids_in_texts(texts) else {
        return refused(rt, bad_identifier_reason(alloc, texts));
    };
    if to == "-" {
        return refused_word(rt, WordFault::Out, to);
    }
    match add_options_in(alloc, format, fill) {
        Ok(how) => add_file(rt, file, to, ids, how),
        Err(reason) => refused(rt, reason),
    }
}

/// Returns the text of an option. If the option isn't given, returns `ffff`, which is a valid identifier.
fn text_in(text: &Option<String>) -> &str {
    match text {
        Some(text) => text,
        None => "ffff",
    }
}

/// Changes the identifiers in the suffix of `file`. Refuses the first invalid argument, or the command if it has none of the three options.
pub(crate) fn perform_set<R: Files + Input + Print + AllocGlobal>(
    rt: &R,
    file: &str,
    vid: &Option<String>,
    pid: &Option<String>,
    did: &Option<String>,
    explain: bool,
) -> Outcome
where
    R::File: Owned,
{
    let alloc = rt.alloc();
    let texts = IdTexts::new(text_in(vid), text_in(pid), text_in(did));
    if ids_in_texts(&texts).is_none() {
        return refused(rt, bad_identifier_reason(alloc, &texts));
    }
    if file == "-" {
        return refused_word(rt, WordFault::Place, file);
    }
    if vid.is_none() && pid.is_none() && did.is_none() {
        return refused_word(rt, WordFault::NoChange, file);
    }
    set_file(rt, file, &change_in_texts(vid, pid, did), explain)
}
