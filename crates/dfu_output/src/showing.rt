//! `dfu show`: decodes bytes of USB messages, and writes their fields.

ghost use Rattle.std.specs.Prelude.{◌≡◌, codes};
ghost use Rattle.dfu_output.specs.Output.{TextIsOut};
ghost use Rattle.dfu_output.specs.AnswerLines.{bad_words_line};
ghost use Rattle.dfu_output.specs.ShowText.{WritesFunctionalLine, WritesStatusLine, WritesStateLine, WritesSetupLine, WritesConfigurationText, WritesAboutHexText, IsUnknownKind, DecodesStateBytes, DecodesSetupBytes};

use crate::configuration::configuration_text;
use crate::exit::{Exit, bad_words, fault_text, write_out};
use crate::show_lines::{
    bad_hex_line, functional_line, setup_line, state_line, status_line, wire_line,
};
use dfu_suffix::SuffixFault;
use dfu_wire::{Functional, Request, Setup, State, Status, WireFault};
use std::alloc::Global;
use std::io::Write;

/// Decodes a hexadecimal text and passes its bytes to `$write`, or writes the line for a text that can't be decoded.
macro_rules! decoded {
    ($hex:ident, $write:ident($alloc:ident, $writer:ident)) => {
        match hex::decode($alloc, $hex) {
            Ok(bytes) => $write($alloc, &bytes, $writer),
            Err(error) => write_out($writer, bad_hex_line(error).as_bytes(), Exit::Refused),
        }
    };
}

/// Decodes `bytes` as a functional descriptor. Writes the line for it, for the first fault, or for a lack of memory.
fn write_functional<W: Write>(alloc: Global, bytes: &[u8], writer: &mut W) -> Exit
    ensures { WritesFunctionalLine bytes.now (W.contents writer.old) (W.contents writer.new) result }
{
    match Functional::decode(bytes) {
        Ok(functional) => match functional_line(alloc, &functional) {
            Ok(line) => write_out(writer, line.as_bytes(), Exit::Done),
            Err(_) => fault_text(SuffixFault::NoMemory, writer),
        },
        Err(fault) => write_out(writer, wire_line(fault).as_bytes(), Exit::Refused),
    }
}

/// Decodes `bytes` as a status. Writes the line for it, for the first fault, or for a lack of memory.
fn write_status<W: Write>(alloc: Global, bytes: &[u8], writer: &mut W) -> Exit
    ensures { WritesStatusLine bytes.now (W.contents writer.old) (W.contents writer.new) result }
{
    match Status::decode(bytes) {
        Ok(status) => match status_line(alloc, &status, bytes[5]) {
            Ok(line) => write_out(writer, line.as_bytes(), Exit::Done),
            Err(_) => fault_text(SuffixFault::NoMemory, writer),
        },
        Err(fault) => write_out(writer, wire_line(fault).as_bytes(), Exit::Refused),
    }
}

// Decodes the single byte of an answer to GETSTATE.
fn state_in(bytes: &[u8]) -> Result<State, WireFault>
    ensures { DecodesStateBytes bytes.now result }
{
    match *bytes {
        [] => Err(WireFault::Short),
        [byte] => State::from_byte(byte),
        _ => Err(WireFault::Long),
    }
}

/// Decodes `bytes` as a state. Writes the line for it, for the first fault, or for a lack of memory.
fn write_state<W: Write>(alloc: Global, bytes: &[u8], writer: &mut W) -> Exit
    ensures { WritesStateLine bytes.now (W.contents writer.old) (W.contents writer.new) result }
{
    match state_in(bytes) {
        Ok(state) => match state_line(alloc, state) {
            Ok(line) => write_out(writer, line.as_bytes(), Exit::Done),
            Err(_) => fault_text(SuffixFault::NoMemory, writer),
        },
        Err(fault) => write_out(writer, wire_line(fault).as_bytes(), Exit::Refused),
    }
}

/// A setup, and the request that it encodes if its index is set to 0.
#[derive(Clone, Copy)]
pub(crate) struct RequestedSetup {
    /// The setup with the index from its bytes.
    pub(crate) setup: Setup,
    /// The request that the setup encodes for interface 0.
    pub(crate) asked: Request,
}

// Decodes the eight bytes of a setup. The request is the one that the setup encodes if its index is set to 0.
fn setup_in(bytes: &[u8]) -> Result<RequestedSetup, WireFault>
    ensures { DecodesSetupBytes bytes.now result }
{
    let Ok(bytes) = <&[u8; 8]>::try_from(bytes) else {
        return Err(if bytes.len() < 8 {
            WireFault::Short
        } else {
            WireFault::Long
        });
    };
    let setup = Setup::decode(bytes);
    let asked = Setup { index: 0, ..setup }.request();
    Ok(RequestedSetup { setup, asked })
}

/// Decodes `bytes` as a setup. Writes the line for it, for the first fault, or for a lack of memory.
fn write_setup<W: Write>(alloc: Global, bytes: &[u8], writer: &mut W) -> Exit
    ensures { WritesSetupLine bytes.now (W.contents writer.old) (W.contents writer.new) result }
{
    match setup_in(bytes) {
        Ok(by) => match setup_line(alloc, &by.setup, by.asked) {
            Ok(line) => write_out(writer, line.as_bytes(), Exit::Done),
            Err(_) => fault_text(SuffixFault::NoMemory, writer),
        },
        Err(fault) => write_out(writer, wire_line(fault).as_bytes(), Exit::Refused),
    }
}

/// Decodes `bytes` as a configuration. Writes its lines, or the line for the first fault or for a lack of memory.
fn write_configuration<W: Write>(alloc: Global, bytes: &[u8], writer: &mut W) -> Exit
    ensures { WritesConfigurationText bytes.now (W.contents writer.old) (W.contents writer.new) result }
{
    match configuration_text(alloc, bytes) {
        Ok(Ok(text)) => write_out(writer, text.as_bytes(), Exit::Done),
        Ok(Err(fault)) => write_out(writer, wire_line(fault).as_bytes(), Exit::Refused),
        Err(_) => fault_text(SuffixFault::NoMemory, writer),
    }
}

/// Decodes `hex`, and then its bytes as a functional descriptor, and writes the line for the result.
fn show_functional<W: Write>(alloc: Global, hex: &str, writer: &mut W) -> Exit
    ensures { WritesAboutHexText WritesFunctionalLine hex.now (W.contents writer.old) (W.contents writer.new) result }
{
    decoded!(hex, write_functional(alloc, writer))
}

/// Decodes `hex`, and then its bytes as a status, and writes the line for the result.
fn show_status<W: Write>(alloc: Global, hex: &str, writer: &mut W) -> Exit
    ensures { WritesAboutHexText WritesStatusLine hex.now (W.contents writer.old) (W.contents writer.new) result }
{
    decoded!(hex, write_status(alloc, writer))
}

/// Decodes `hex`, and then its bytes as a state, and writes the line for the result.
fn show_state<W: Write>(alloc: Global, hex: &str, writer: &mut W) -> Exit
    ensures { WritesAboutHexText WritesStateLine hex.now (W.contents writer.old) (W.contents writer.new) result }
{
    decoded!(hex, write_state(alloc, writer))
}

/// Decodes `hex`, and then its bytes as a setup, and writes the line for the result.
fn show_setup<W: Write>(alloc: Global, hex: &str, writer: &mut W) -> Exit
    ensures { WritesAboutHexText WritesSetupLine hex.now (W.contents writer.old) (W.contents writer.new) result }
{
    decoded!(hex, write_setup(alloc, writer))
}

/// Decodes `hex`, and then its bytes as a configuration, and writes the lines for the result.
fn show_configuration<W: Write>(alloc: Global, hex: &str, writer: &mut W) -> Exit
    ensures { WritesAboutHexText WritesConfigurationText hex.now (W.contents writer.old) (W.contents writer.new) result }
{
    decoded!(hex, write_configuration(alloc, writer))
}

/// Decodes the bytes that `hex` gives with two hexadecimal digits each, of either case, and writes a line about them. For a configuration,
/// it also writes a line for each DFU interface and each functional descriptor.
///
/// - `kind` is not one of the kinds below: `bad words`, with BadWords.
/// - `hex` has an odd number of digits, or a character that isn't a digit: `refused BadHex`, with Refused.
/// - The bytes can't be decoded: `refused NAME`, where NAME is the first fault, with Refused.
/// - Otherwise one of these lines, with Done, where Y is `yes` or `no`:
///   - `functional download Y upload Y tolerant Y will-detach Y detach N transfer N version HHHH`, for a functional descriptor;
///   - `status CODE poll N state STATE string N`, for an answer to GETSTATUS;
///   - `state STATE`, for an answer to GETSTATE;
///   - `setup REQUEST kind HH number HH value N index N length N`, for the eight bytes of a setup. REQUEST is its request at any interface,
///     `other-class` or `not-dfu`;
///   - `configuration N`, for a configuration descriptor with all descriptors after it. Lines `interface N alternate N mode MODE string N`,
///     where MODE is `run-time`, `dfu` or `other`, and `functional ..` as above follow in the order of the bytes.
///
/// The first case that applies decides. If an allocation fails, the line is `refused NoMemory`, with Refused. If the writer fails, the exit
/// is Fault, and only a proper prefix of the text is written.
pub fn show_text<W: Write>(alloc: Global, kind: &str, hex: &str, writer: &mut W) -> Exit
    ensures functional { kind.now ≡ codes "functional"
        → WritesAboutHexText WritesFunctionalLine hex.now (W.contents writer.old) (W.contents writer.new) result }
    ensures status { kind.now ≡ codes "status"
        → WritesAboutHexText WritesStatusLine hex.now (W.contents writer.old) (W.contents writer.new) result }
    ensures state { kind.now ≡ codes "state"
        → WritesAboutHexText WritesStateLine hex.now (W.contents writer.old) (W.contents writer.new) result }
    ensures setup { kind.now ≡ codes "setup"
        → WritesAboutHexText WritesSetupLine hex.now (W.contents writer.old) (W.contents writer.new) result }
    ensures configuration { kind.now ≡ codes "configuration"
        → WritesAboutHexText WritesConfigurationText hex.now (W.contents writer.old) (W.contents writer.new) result }
    ensures other { IsUnknownKind kind.now → TextIsOut (W.contents writer.old) (W.contents writer.new) bad_words_line Exit.BadWords result }
{
    match kind {
        "functional" => show_functional(alloc, hex, writer),
        "status" => show_status(alloc, hex, writer),
        "state" => show_state(alloc, hex, writer),
        "setup" => show_setup(alloc, hex, writer),
        "configuration" => show_configuration(alloc, hex, writer),
        _ => bad_words(writer),
    }
}
