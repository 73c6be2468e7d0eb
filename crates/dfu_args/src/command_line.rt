//! The clap command of `dfu`, which is built from the tables of the commands, and its matches for a command line.

ghost use Rattle.std.specs.Prelude.{◌≡◌, ℕ, IfOk, IfSome, List, false, map, true};
ghost use Rattle.std.specs.List.{All, fold};
ghost use Rattle.std.specs.String.{string_bytes};
ghost use Rattle.clap.specs.Words.{HasKind, Kinds, app_of, found_of, has_subcommand, matches_of, rows_of, rule_of, subcommand_of, subcommand_rows_of};
ghost use Rattle.clap.specs.declared.builder.Command.TheViews.{out-Command};
ghost use Rattle.dfu_args.specs.CommandLine.{dfu_app, top_app};
ghost use Rattle.dfu_args.specs.Alone.{AloneParsesAsWhole, ParsesAsWhole};
ghost use Rattle.dfu_args.specs.Complete.{IsComplete};
ghost use Rattle.dfu_args.specs.Refusals.{IsResultOfKinds, IsFaultOfKinds, parse_fault_kinds};
ghost use Rattle.dfu_args.specs.Tables.{app_of_listed, rule_of_row, with_listed_command, with_row};

use crate::commands::{COMMANDS, DFU, Kind, ListedCommand, Row};
use crate::help;
use crate::subcommand::ArgsFault;
use clap::error::ErrorKind;
use clap::{Arg, ArgAction, ArgMatches, Command};
use std::alloc::{AllocError, Global};

/// Returns the clap argument of `row`.
fn arg_of<'a>(alloc: Global, row: &Row<'a>) -> Arg<'a>
    ensures rule { rule_of result ≡ rule_of_row row.now }
    ensures local { result.global ≡ false }
{
    let Row(id, kind, help) = *row;
    let arg = Arg::new(alloc, id).help(help);
    match kind {
        Kind::Needed(name) => arg.required(true).action(ArgAction::Set).value_name(name),
        Kind::Repeated(name) => arg
            .required(true)
            .action(ArgAction::Append)
            .value_name(name),
        Kind::Optional(name, default) => arg
            .action(ArgAction::Append)
            .value_name(name)
            .default_value(default),
        Kind::Option(default) => arg.long(id).action(ArgAction::Set).default_value(default),
        Kind::Unset => arg.long(id).action(ArgAction::Set),
        Kind::Wanted => arg.long(id).required(true).action(ArgAction::Set),
        Kind::Flag => arg.long(id).action(ArgAction::SetTrue),
    }
}

/// Returns `command` with an additional argument for each of `rows`.
fn with_rows<'a>(
    alloc: Global,
    command: Command<'a>,
    rows: &[Row<'a>],
) -> Result<Command<'a>, AllocError>
    requires plain { (out-Command command).has_globals ≡ false }
    ensures app { IfOk result (λ c. app_of c ≡ fold with_row (app_of command.entry) rows.now) }
    ensures local { IfOk result (λ c. (out-Command c).has_globals ≡ false) }
{
    let mut command = command;
    for row in rows {
        command = command.arg(arg_of(alloc, row))?;
    }
    Ok(command)
}

/// Returns the clap command of `listed`, with its arguments.
fn made<'a>(alloc: Global, listed: &ListedCommand<'a>) -> Result<Command<'a>, AllocError>
    ensures app { IfOk result (λ c. app_of c ≡ app_of_listed listed.now) }
    ensures local { IfOk result (λ c. (out-Command c).has_globals ≡ false) }
{
    let command = Command::new(alloc, listed.name)
        .about(listed.about)
        .after_help(listed.example);
    with_rows(alloc, command, listed.rows)
}

/// Returns `command` with the additional subcommand `listed`.
fn with_command<'a>(
    alloc: Global,
    command: Command<'a>,
    listed: &ListedCommand<'a>,
) -> Result<Command<'a>, AllocError>
    requires plain { (out-Command command).has_globals ≡ false }
    ensures app { IfOk result (λ c. app_of c ≡ with_listed_command (app_of command.entry) listed.now) }
    ensures local { IfOk result (λ c. (out-Command c).has_globals ≡ false) }
{
    let listed = made(alloc, listed)?;
    command.subcommand(listed)
}

/// Returns `command` with an additional subcommand for each of `listed`.
fn with_commands<'a>(
    alloc: Global,
    command: Command<'a>,
    listed: &[ListedCommand<'a>],
) -> Result<Command<'a>, AllocError>
    requires plain { (out-Command command).has_globals ≡ false }
    ensures app { IfOk result (λ c. app_of c ≡ fold with_listed_command (app_of command.entry) listed.now) }
    ensures local { IfOk result (λ c. (out-Command c).has_globals ≡ false) }
{
    let mut command = command;
    for it in listed {
        command = with_command(alloc, command, it)?;
    }
    Ok(command)
}

/// Returns the command `dfu` without its subcommands, but with the flag `--explain`. It requires a subcommand and has a version.
fn top_command<'a>(alloc: Global) -> Result<Command<'a>, AllocError>
    ensures app { IfOk result (λ c. app_of c ≡ top_app) }
    ensures local { IfOk result (λ c. (out-Command c).has_globals ≡ false) }
{
    let command = made(alloc, &DFU)?;
    command
        .subcommand_required(true)
        .version(help::VERSION)
        .bin_name("dfu")
}

/// Returns the subcommands. A command with all of them parses as the whole command `dfu` does. A command with one of them does so too if
/// the name of this subcommand follows the program's name.
fn commands() -> &'static [ListedCommand<'static>]
    ensures whole { (words : List (List ℕ)) → ParsesAsWhole words (fold with_listed_command top_app result.now) }
    ensures alone { All AloneParsesAsWhole result.now }
{
    &COMMANDS
}

/// Returns the subcommand with this name, or None if there is none.
fn listed_of(name: &str) -> Option<&'static ListedCommand<'static>>
    ensures alone { IfSome result (λ l. AloneParsesAsWhole l.now) }
    ensures named { IfSome result (λ l. l.now.name.now ≡ name.now) }
{
    for listed in commands() {
        if listed.name == name {
            return Some(listed);
        }
    }
    None
}

/// Returns the command with the subcommand that the second of `words` names, or with all subcommands if it names none.
fn dfu_command<'a>(alloc: Global, words: &[String]) -> Result<Command<'a>, AllocError>
    ensures app { IfOk result (λ c. ParsesAsWhole (map string_bytes words.now) (app_of c)) }
    ensures local { IfOk result (λ c. (out-Command c).has_globals ≡ false) }
{
    let command = top_command(alloc)?;
    if let [_program, name, ..] = words {
        if let Some(listed) = listed_of(name.as_str()) {
            return with_command(alloc, command, listed);
        }
    }
    with_commands(alloc, command, commands())
}

/// Returns clap's matches of `words`. The error is Words with the parser's error, or NoMemory if an allocation failed.
pub(crate) fn matches_of<'a>(
    alloc: Global,
    words: &'a [String],
) -> Result<ArgMatches<'a>, ArgsFault>
    ensures top { IfOk result (λ m. rows_of (found_of m) ≡ matches_of dfu_app (map string_bytes words.now)) }
    ensures rows { IfOk result (λ m. subcommand_rows_of m ≡ subcommand_of dfu_app (map string_bytes words.now)) }
    ensures named { IfOk result (λ m. has_subcommand m ≡ true) }
    ensures complete { IfOk result (λ m. IfSome (subcommand_rows_of m) (λ p. IsComplete p.0 p.1)) }
    ensures faults { IsResultOfKinds (parse_fault_kinds (map string_bytes words.now)) result }
{
    let command = match dfu_command(alloc, words) {
        Ok(command) => command,
        Err(_) => return Err(ArgsFault::NoMemory),
    };
    match command.try_get_matches_from(words) {
        Ok(matches) => Ok(matches),
        Err(error) => Err(fault_of(error)),
    }
}

/// Returns the fault for an error of the parser: NoMemory if its kind is OutOfMemory, and Words otherwise.
fn fault_of(error: clap::Error) -> ArgsFault
    ensures { (kinds : Kinds) → HasKind kinds error → IsFaultOfKinds kinds result }
{
    match error.kind() {
        ErrorKind::OutOfMemory => ArgsFault::NoMemory,
        _ => ArgsFault::Words(error),
    }
}
