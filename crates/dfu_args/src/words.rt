//! Conversion of a command line to a subcommand.

ghost use Rattle.std.specs.Prelude.{◌≡◌, ◌||◌, IfOk, IfSome, Some, codes, is_some, map, true};
ghost use Rattle.std.specs.Option.{option_map};
ghost use Rattle.std.specs.String.{string_bytes};
ghost use Rattle.clap.specs.Words.{all_of, first_of, found_of, has_subcommand, rows_of, subcommand_of, subcommand_rows_of};
ghost use Rattle.dfu_args.specs.CommandLine.{wants_reason, dfu_app, is_on, rows_of_subcommand, IsStatedSubcommand};
ghost use Rattle.dfu_args.specs.Complete.{HasTexts, IsComplete, sure_arguments_of};
ghost use Rattle.dfu_args.specs.Refusals.{IsResultOfKinds, parse_fault_kinds};

use crate::command_line::matches_of;
use crate::subcommand::{ArgsFault, ParsedArgs, Subcommand};
use clap::ArgMatches;
use std::alloc::{AllocError, Global};

/// Returns the first text of argument `id` in `found`, which must have one.
// Many calls use this, and a single copy keeps the program small.
#[inline(never)]
fn text_of(alloc: Global, found: &ArgMatches<'_>, id: &str) -> Result<String, AllocError>
    requires there { is_some (first_of id.now (rows_of (found_of found.now))) ≡ true }
    ensures { IfOk result (λ t. first_of id.now (rows_of (found_of found.now)) ≡ Some (string_bytes t)) }
{
    let Some(text) = found.get_str(id) else {
        unreachable!()
    };
    String::from_str(alloc, text)
}

/// Returns the texts of argument `id` in `found`, which must have at least one.
#[inline(never)]
fn texts_of(alloc: Global, found: &ArgMatches<'_>, id: &str) -> Result<Vec<String>, AllocError>
    requires there { is_some (first_of id.now (rows_of (found_of found.now))) ≡ true }
    ensures { IfOk result (λ t. all_of id.now (rows_of (found_of found.now)) ≡ Some (map string_bytes t.items)) }
{
    let Some(values) = found.get_strs(id) else {
        unreachable!()
    };
    let mut texts: Vec<String> = Vec::new(alloc);
    for value in values {
        let Ok(text) = String::from_str(alloc, value) else {
            return Err(AllocError);
        };
        if texts.push(text).is_err() {
            return Err(AllocError);
        }
    }
    Ok(texts)
}

/// Returns the first text of option `id` in `found`, or None if the option wasn't given.
fn text_if(alloc: Global, found: &ArgMatches<'_>, id: &str) -> Result<Option<String>, AllocError>
    ensures { IfOk result (λ t. first_of id.now (rows_of (found_of found.now)) ≡ option_map string_bytes t) }
{
    let Some(text) = found.get_str(id) else {
        return Ok(None);
    };
    match String::from_str(alloc, text) {
        Ok(text) => Ok(Some(text)),
        Err(_) => Err(AllocError),
    }
}

/// Returns true if flag `id` is on in `found`.
fn is_on(found: &ArgMatches<'_>, id: &str) -> bool
    ensures { result ≡ is_on (first_of id.now (rows_of (found_of found.now))) }
{
    match found.get_str(id) {
        Some(text) => text == "true",
        None => false,
    }
}

fn parse_check(alloc: Global, found: &ArgMatches<'_>) -> Result<Subcommand, AllocError>
    requires texts { HasTexts (sure_arguments_of (codes "check")) (rows_of (found_of found.now)) }
    ensures { IfOk result (λ j. IsStatedSubcommand (Some (codes "check", rows_of (found_of found.now))) j) }
{
    Ok(Subcommand::Check {
        files: texts_of(alloc, found, "file")?,
        json: is_on(found, "json"),
    })
}

fn parse_add(alloc: Global, found: &ArgMatches<'_>) -> Result<Subcommand, AllocError>
    requires texts { HasTexts (sure_arguments_of (codes "add")) (rows_of (found_of found.now)) }
    ensures { IfOk result (λ j. IsStatedSubcommand (Some (codes "add", rows_of (found_of found.now))) j) }
{
    Ok(Subcommand::Add {
        file: text_of(alloc, found, "file")?,
        to: text_of(alloc, found, "to")?,
        vid: text_of(alloc, found, "vid")?,
        pid: text_of(alloc, found, "pid")?,
        did: text_of(alloc, found, "did")?,
        format: text_if(alloc, found, "format")?,
        fill: text_if(alloc, found, "fill")?,
    })
}

fn parse_extract(alloc: Global, found: &ArgMatches<'_>) -> Result<Subcommand, AllocError>
    requires texts { HasTexts (sure_arguments_of (codes "extract")) (rows_of (found_of found.now)) }
    ensures { IfOk result (λ j. IsStatedSubcommand (Some (codes "extract", rows_of (found_of found.now))) j) }
{
    let file = text_of(alloc, found, "file")?;
    let out = text_of(alloc, found, "to")?;
    Ok(Subcommand::Extract { file, to: out })
}

fn parse_set(alloc: Global, found: &ArgMatches<'_>) -> Result<Subcommand, AllocError>
    requires texts { HasTexts (sure_arguments_of (codes "set")) (rows_of (found_of found.now)) }
    ensures { IfOk result (λ j. IsStatedSubcommand (Some (codes "set", rows_of (found_of found.now))) j) }
{
    Ok(Subcommand::Change {
        file: text_of(alloc, found, "file")?,
        vid: text_if(alloc, found, "vid")?,
        pid: text_if(alloc, found, "pid")?,
        did: text_if(alloc, found, "did")?,
    })
}

fn parse_show(alloc: Global, found: &ArgMatches<'_>) -> Result<Subcommand, AllocError>
    requires texts { HasTexts (sure_arguments_of (codes "show")) (rows_of (found_of found.now)) }
    ensures { IfOk result (λ j. IsStatedSubcommand (Some (codes "show", rows_of (found_of found.now))) j) }
{
    Ok(Subcommand::Show {
        kind: text_of(alloc, found, "kind")?,
        hex: texts_of(alloc, found, "hex")?,
        json: is_on(found, "json"),
    })
}

fn parse_run(alloc: Global, found: &ArgMatches<'_>) -> Result<Subcommand, AllocError>
    requires texts { HasTexts (sure_arguments_of (codes "run")) (rows_of (found_of found.now)) }
    ensures { IfOk result (λ j. IsStatedSubcommand (Some (codes "run", rows_of (found_of found.now))) j) }
{
    Ok(Subcommand::Run {
        script: text_of(alloc, found, "script")?,
        trace: is_on(found, "trace"),
        file: text_if(alloc, found, "file")?,
    })
}

fn parse_judge(alloc: Global, found: &ArgMatches<'_>) -> Result<Subcommand, AllocError>
    requires texts { HasTexts (sure_arguments_of (codes "judge")) (rows_of (found_of found.now)) }
    ensures { IfOk result (λ j. IsStatedSubcommand (Some (codes "judge", rows_of (found_of found.now))) j) }
{
    Ok(Subcommand::Judge {
        files: texts_of(alloc, found, "file")?,
        interface: text_of(alloc, found, "interface")?,
        device: text_of(alloc, found, "device")?,
        dfuse: is_on(found, "dfuse"),
        json: is_on(found, "json"),
    })
}

fn parse_plan(alloc: Global, found: &ArgMatches<'_>) -> Result<Subcommand, AllocError>
    requires texts { HasTexts (sure_arguments_of (codes "plan")) (rows_of (found_of found.now)) }
    ensures { IfOk result (λ j. IsStatedSubcommand (Some (codes "plan", rows_of (found_of found.now))) j) }
{
    Ok(Subcommand::Plan {
        part: text_of(alloc, found, "part")?,
        boot: text_of(alloc, found, "boot")?,
        areas: text_of(alloc, found, "areas")?,
        parts: text_if(alloc, found, "parts")?,
        json: is_on(found, "json"),
    })
}

/// Returns the subcommand of `matches` with the texts of its arguments.
fn chosen_subcommand(alloc: Global, matches: &ArgMatches<'_>) -> Result<Subcommand, AllocError>
    requires named { has_subcommand matches.now ≡ true }
    requires complete { IfSome (subcommand_rows_of matches.now) (λ p. IsComplete p.0 p.1) }
    ensures { IfOk result (λ j. IsStatedSubcommand (subcommand_rows_of matches.now) j) }
{
    let Some((name, found)) = matches.subcommand() else {
        unreachable!()
    };
    match name {
        "check" => parse_check(alloc, found),
        "add" => parse_add(alloc, found),
        "extract" => parse_extract(alloc, found),
        "set" => parse_set(alloc, found),
        "show" => parse_show(alloc, found),
        "run" => parse_run(alloc, found),
        "judge" => parse_judge(alloc, found),
        "plan" => parse_plan(alloc, found),
        _ => unreachable!(),
    }
}

/// Returns true if flag `id` is on after the subcommand of `matches`. Returns false if there is no subcommand.
fn is_on_in_subcommand(matches: &ArgMatches<'_>, id: &str) -> bool
    ensures { result ≡ is_on (first_of id.now (rows_of_subcommand (subcommand_rows_of matches.now))) }
{
    match matches.subcommand() {
        Some((_name, found)) => is_on(found, id),
        None => false,
    }
}

/// Returns the subcommand of `matches`. `explain` is true if the flag `--explain` is on before or after the subcommand.
fn args_of_matches(alloc: Global, matches: &ArgMatches<'_>) -> Result<ParsedArgs, AllocError>
    requires named { has_subcommand matches.now ≡ true }
    requires complete { IfSome (subcommand_rows_of matches.now) (λ p. IsComplete p.0 p.1) }
    ensures subcommand { IfOk result (λ a. IsStatedSubcommand (subcommand_rows_of matches.now) a.subcommand) }
    ensures explain { IfOk result (λ a. a.explain ≡ (is_on (first_of (codes "explain") (rows_of (found_of matches.now)))
        || is_on (first_of (codes "explain") (rows_of_subcommand (subcommand_rows_of matches.now))))) }
{
    Ok(ParsedArgs {
        subcommand: chosen_subcommand(alloc, matches)?,
        explain: is_on(matches, "explain") || is_on_in_subcommand(matches, "explain"),
    })
}

/// Parses `words`, the first of which is the program's name. Returns the subcommand, and true for `explain` if `--explain` is given.
///
/// # Errors
///
/// Words if the parser refuses the command line, for example because it has no subcommand, or if the command line requests the help text or
/// the version; NoMemory if an allocation failed.
pub fn parse_args(alloc: Global, words: &[String]) -> Result<ParsedArgs, ArgsFault>
    // The subcommand and its texts are those that clap's specification gives for these words.
    ensures subcommand { IfOk result (λ a. IsStatedSubcommand (subcommand_of dfu_app (map string_bytes words.now)) a.subcommand) }
    // `explain` is true exactly if clap's specification gives the flag for these words.
    ensures explain { IfOk result (λ a. a.explain ≡ wants_reason (map string_bytes words.now)) }
    // A subcommand is returned only if clap's specification allows no fault for these words, and an error only with a kind that it allows.
    ensures faults { IsResultOfKinds (parse_fault_kinds (map string_bytes words.now)) result }
{
    let matches = matches_of(alloc, words)?;
    match args_of_matches(alloc, &matches) {
        Ok(parsed) => Ok(parsed),
        Err(_) => Err(ArgsFault::NoMemory),
    }
}

/// Returns the subcommand of `words`, the first of which is the program's name.
///
/// # Errors
///
/// Words if the parser refuses the command line, for example because it has no subcommand, or if the command line requests the help text or
/// the version; NoMemory if an allocation failed.
pub fn parse_subcommand(alloc: Global, words: &[String]) -> Result<Subcommand, ArgsFault>
    // The subcommand and its texts are those that clap's specification gives for these words.
    ensures subcommand { IfOk result (λ j. IsStatedSubcommand (subcommand_of dfu_app (map string_bytes words.now)) j) }
    // A subcommand is returned only if clap's specification allows no fault for these words, and an error only with a kind that it allows.
    ensures faults { IsResultOfKinds (parse_fault_kinds (map string_bytes words.now)) result }
{
    let parsed = parse_args(alloc, words)?;
    Ok(parsed.subcommand)
}
