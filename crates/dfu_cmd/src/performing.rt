//! Runs a command: parses the command line and performs the subcommand.

use crate::captures::{device_in, interface_in};
use crate::changing::{perform_add, perform_set};
use crate::foreign::foreign_reason;
use crate::identifiers::IdTexts;
use crate::judging::{JudgeOptions, judge_files};
use crate::plan_words::PlanWords;
use crate::planning::perform_plan;
use crate::scripts::{RunOptions, run_script};
use crate::shown::perform_show;
use crate::tips::advised_message;
use crate::watching::read_file;
use crate::words::{WordFault, refused_word};
use dfu_args::{ArgsFault, ParsedArgs, Subcommand, parse_args};
use dfu_fs::{Owned, check_files, extract_file};
use dfu_output::{Exit, Outcome, fault_text};
use dfu_suffix::SuffixFault;
use std::io::{self, IsTerminal};
use std::rt::Files;

/// Judges the log or capture in each of the files `names`, or refuses the first invalid option.
fn perform_judge<R: Files + Input + Print + AllocGlobal>(
    rt: &R,
    names: &[String],
    interface: &str,
    device: &str,
    dfuse: bool,
    json: bool,
) -> Outcome {
    let Some(interface) = interface_in(interface) else {
        return refused_word(rt, WordFault::Interface, interface);
    };
    let Some(only) = device_in(device) else {
        return refused_word(rt, WordFault::Device, device);
    };
    let how = JudgeOptions {
        interface,
        only,
        dfuse,
        json,
    };
    judge_files(rt, names, how)
}

/// Runs `script` with the options `ways`. Refuses the command line if `script` and `file` are both `-`.
fn perform_run<R: Files + Input + Print + AllocGlobal>(
    rt: &R,
    script: &str,
    file: &Option<String>,
    ways: RunOptions<'_>,
) -> Outcome
where
    R::File: IsTerminal,
    R::Reader: IsTerminal,
{
    let Some(name) = file else {
        return run_script(rt, script, ways);
    };
    if script == "-" && name.as_str() == "-" {
        return refused_word(rt, WordFault::File, "-");
    }
    match read_file(rt, name) {
        Ok(bytes) => run_script(
            rt,
            script,
            RunOptions {
                file: Some(&bytes),
                ..ways
            },
        ),
        Err(answer) => answer,
    }
}

/// Writes the payload of `file` into a new file `to`, which can't be standard output.
fn perform_extract<R: Files + Input + Print + AllocGlobal>(
    rt: &R,
    file: &str,
    to: &str,
    explain: bool,
) -> Outcome
where
    R::File: Owned,
{
    if to == "-" {
        return refused_word(rt, WordFault::Out, to);
    }
    extract_file(rt, file, to, explain)
}

/// Returns the value of an option if it is given.
fn given(word: &Option<String>) -> Option<&str> {
    match word {
        Some(word) => Some(word),
        None => None,
    }
}

/// Performs `subcommand`, and returns the outcome.
fn perform<R: Files + Input + Print + AllocGlobal>(
    rt: &R,
    subcommand: &Subcommand,
    explain: bool,
) -> Outcome
where
    R::File: Owned + IsTerminal,
    R::Reader: IsTerminal,
{
    match subcommand {
        Subcommand::Check { files, json } => check_files(rt, files, explain, *json),
        Subcommand::Add {
            file,
            to,
            vid,
            pid,
            did,
            format,
            fill,
        } => perform_add(rt, file, to, &IdTexts::new(vid, pid, did), format, fill),
        Subcommand::Extract { file, to } => perform_extract(rt, file, to, explain),
        Subcommand::Change {
            file,
            vid,
            pid,
            did,
        } => perform_set(rt, file, vid, pid, did, explain),
        Subcommand::Show { kind, hex, json } => perform_show(rt, kind, hex, *json),
        Subcommand::Run {
            script,
            trace,
            file,
        } => perform_run(rt, script, file, RunOptions::without_file(*trace, explain)),
        Subcommand::Judge {
            files,
            interface,
            device,
            dfuse,
            json,
        } => perform_judge(rt, files, interface, device, *dfuse, *json),
        Subcommand::Plan {
            part,
            boot,
            areas,
            parts,
            json,
        } => perform_plan(rt, PlanWords::new(part, boot, areas, given(parts), *json)),
    }
}

/// Prints the parser's message for `error`. Misleading tips are replaced if there is memory for the new ones.
fn print_advised<R: Print + AllocGlobal>(rt: &R, error: &clap::Error) -> io::Result<()> {
    let alloc = rt.alloc();
    let Ok(text) = format!(in alloc; "{error}") else {
        return rt.print(error);
    };
    match advised_message(alloc, &text) {
        Ok(text) => rt.print(text.as_str()),
        Err(_) => rt.print(error),
    }
}

/// Prints the parser's message for `error`. Returns the error's exit status, or that of Fault if the message can't be printed.
fn print_text<R: Print + AllocGlobal>(rt: &R, error: &clap::Error) -> u8 {
    match print_advised(rt, error) {
        Ok(()) => error.exit_code() as u8,
        Err(_error) => Exit::Fault.status(),
    }
}

/// Returns true if `dfu add` succeeded. Its reason is then a hint that must always be printed: FILE was read as a raw image, but looks like
/// another kind of file. Build scripts run without a terminal, so their users wouldn't see the hint otherwise, and might flash the text of
/// a HEX file.
fn is_hint(subcommand: &Subcommand, exit: Exit) -> bool {
    matches!(exit, Exit::Done) && matches!(subcommand, Subcommand::Add { .. })
}

/// Performs the command of `words`. Returns the exit status, and the reason if it is a hint, if `is_wanted` is set or if `--explain` is
/// given. If the arguments are those of another program, it always returns advice.
fn answer_words<R: Files + Input + Print + AllocGlobal>(
    rt: &R,
    words: &[String],
    is_wanted: bool,
) -> (u8, Option<String>)
where
    R::File: Owned + IsTerminal,
    R::Reader: IsTerminal,
{
    match parse_args(rt.alloc(), words) {
        Ok(
            ParsedArgs {
                subcommand,
                explain,
            },
        ) => {
            let is_wanted = is_wanted || explain;
            let Outcome { exit, reason } = perform(rt, &subcommand, is_wanted);
            let is_said = is_wanted || is_hint(&subcommand, exit);
            (exit.status(), if is_said { reason } else { None })
        }
        Err(fault) => match fault {
            ArgsFault::Words(error) => {
                (print_text(rt, &error), foreign_reason(rt.alloc(), words))
            }
            ArgsFault::NoMemory => (no_memory(rt).status(), None),
        },
    }
}

/// Performs the command of `words` without reasons, and returns the exit status.
pub fn run_words<R: Files + Input + Print + AllocGlobal>(rt: &R, words: &[String]) -> u8
where
    R::File: Owned + IsTerminal,
    R::Reader: IsTerminal,
{
    let (status, _) = answer_words(rt, words, false);
    status
}

/// Performs the command of `words` as `run_words` does. If `is_wanted` is set or `--explain` is given, writes the reason of a refusal to
/// standard error. A hint, or advice on arguments of another program, is always written. If standard error can't be written, nothing else
/// changes.
pub fn run_explained<R: Files + Input + Print + Eprint + AllocGlobal>(
    rt: &R,
    words: &[String],
    is_wanted: bool,
) -> u8
where
    R::File: Owned + IsTerminal,
    R::Reader: IsTerminal,
{
    let (status, reason) = answer_words(rt, words, is_wanted);
    if let Some(line) = &reason {
        let _ = rt.eprint(line.as_str());
    }
    status
}

/// Writes the line for NoMemory, and returns its exit.
fn no_memory<R: Print>(rt: &R) -> Exit {
    fault_text(SuffixFault::NoMemory, &mut io::writer(rt))
}
