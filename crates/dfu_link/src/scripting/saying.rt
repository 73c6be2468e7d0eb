//! Writes the lines of reports and of refused events.

ghost use Rattle.std.specs.Prelude.{◌≡◌};
ghost use Rattle.dfu_link.specs.inside.Expected.{expectation_of, WriteEnds, PrintEnds};
ghost use Rattle.dfu_link.specs.Texts.{offer_fault_name, uploaded_line, report_line, refusal_line, outcome_line};

use crate::scripting::expectation::{Expectation, write_next};
use crate::scripting::fault::ScriptFault;
use crate::scripting::output::{write_bytes, write_out, write_three};
use dfu_host::Report;
use dfu_sim::{LinkFault, OfferFault};
use std::io::Write;

fn offer_fault_name(fault: OfferFault) -> &'static str
    ensures { result.now ≡ offer_fault_name fault }
{
    match fault {
        OfferFault::Suffix(fault) => fault.name(),
        OfferFault::Host(fault) => fault.name(),
    }
}

fn say_uploaded<W: Write>(writer: &mut W, bytes: &[u8]) -> Result<(), ScriptFault>
    ensures { WriteEnds (uploaded_line bytes.now) (W.contents writer.old) (W.contents writer.new) result }
{
    write_out(writer, b"report uploaded ")?;
    write_bytes(writer, bytes)
}

/// Writes the line of a report, with the uploaded bytes only if the report is Uploaded.
fn say_report<W: Write>(writer: &mut W, report: Report, uploaded: &[u8]) -> Result<(), ScriptFault>
    ensures { WriteEnds (report_line report uploaded.now) (W.contents writer.old) (W.contents writer.new) result }
{
    match report {
        Report::Refused(code) => write_three(writer, "report refused ", code.name(), "\n"),
        Report::Uploaded => say_uploaded(writer, uploaded),
        Report::Installed
        | Report::Unconfirmed
        | Report::Aborted
        | Report::GaveUp
        | Report::RestartsSpent
        | Report::TooManyBlocks
        | Report::NoMemory
        | Report::Verified
        | Report::Different => write_three(writer, "report ", report.name(), "\n"),
    }
}

fn say_refusal<W: Write>(writer: &mut W, fault: LinkFault) -> Result<(), ScriptFault>
    ensures { WriteEnds (refusal_line fault) (W.contents writer.old) (W.contents writer.new) result }
{
    match fault {
        LinkFault::HostBusy => write_out(writer, b"refused HostBusy\n"),
        LinkFault::NoHost => write_out(writer, b"refused NoHost\n"),
        LinkFault::BadOffer(fault) => {
            write_three(writer, "refused BadOffer ", offer_fault_name(fault), "\n")
        }
        LinkFault::NoMemory => write_out(writer, b"refused NoMemory\n"),
    }
}

/// Writes the text of an event's answer, which may be empty. `uploaded` holds the bytes of the last upload.
#[tactic(auto, using(crate::proofs::WriteLaws::no_text_is_written))]
pub(crate) fn say<W: Write>(
    writer: &mut W,
    answer: Result<Option<Report>, LinkFault>,
    uploaded: &[u8],
) -> Result<(), ScriptFault>
    ensures { WriteEnds (outcome_line answer uploaded.now) (W.contents writer.old) (W.contents writer.new) result }
{
    match answer {
        Ok(None) => Ok(()),
        Ok(Some(report)) => say_report(writer, report, uploaded),
        Err(fault) => say_refusal(writer, fault),
    }
}

/// Writes the text of an event's answer. If a line is expected, the text is first stored in memory and compared with that line.
pub(crate) fn say_next<W: Write>(
    writer: &mut W,
    next: &mut Option<Expectation>,
    answer: Result<Option<Report>, LinkFault>,
    uploaded: &[u8],
) -> Result<(), ScriptFault>
    ensures { PrintEnds (expectation_of next.old) (W.contents writer.old) (outcome_line answer uploaded.now) (expectation_of next.new)
        (W.contents writer.new) result }
{
    let Some(expected) = next else {
        return say(writer, answer, uploaded);
    };
    let mut line = Vec::new(expected.alloc);
    let Ok(()) = say(&mut line, answer, uploaded) else {
        return Err(ScriptFault::NoMemory);
    };
    write_next(writer, next, &line)
}
