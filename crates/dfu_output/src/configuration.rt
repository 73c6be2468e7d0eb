//! The DFU interfaces of a configuration descriptor and of the descriptors after it (USB 2.0, sections 9.5 and 9.6).

ghost use Rattle.std.specs.Prelude.{◌≡◌, ◌++◌, ◌≤◌, IfOk, IfErr, OnOk, length, slice_index, Ok, Err};
ghost use Rattle.std.specs.String.{string_bytes};
ghost use Rattle.dfu_output.specs.Configuration.{DescriptorTextAdded, ConfigurationText, DescriptorsTextAdded, configuration_line, interface_line, mode_name};

use crate::fields::Value::{Number, Text};
use crate::fields::{line_of, push};
use crate::show_lines::functional_line;
use dfu_wire::{Functional, WireFault};
use std::alloc::{AllocError, Global};

// bDescriptorType of an interface descriptor.
const INTERFACE: u8 = 4;

// bDescriptorType of a functional descriptor.
const FUNCTIONAL: u8 = 0x21;

// Returns the name of a DFU interface's mode for its bInterfaceProtocol.
fn mode_name(protocol: u8) -> &'static str
    ensures { result.now ≡ mode_name protocol }
{
    match protocol {
        1 => "run-time",
        2 => "dfu",
        _ => "other",
    }
}

// Returns the line for a DFU interface: `interface N alternate N mode MODE string N`.
#[tactic(auto, unfolding(crate::specs::Configuration::interface_line))]
fn interface_line(
    alloc: Global,
    number: u8,
    alternate: u8,
    protocol: u8,
    string: u8,
) -> Result<String, AllocError>
    ensures { IfOk result (λ t. string_bytes t ≡ interface_line number alternate protocol string) }
{
    let fields = [
        (" ", Number(number as u64)),
        (" alternate ", Number(alternate as u64)),
        (" mode ", Text(mode_name(protocol))),
        (" string ", Number(string as u64)),
    ];
    line_of(alloc, "interface", &fields)
}

// Adds the text of a descriptor to `line`. Returns true if the next descriptor belongs to a DFU interface, or a fault if the descriptor is
// bad.
fn add(
    alloc: Global,
    line: &mut String,
    inside: bool,
    descriptor: &[u8],
) -> Result<Result<bool, WireFault>, AllocError>
    requires { 2 ≤ length descriptor.now }
    ensures { IfOk result (λ r. DescriptorTextAdded inside descriptor.now (string_bytes line.old) (string_bytes line.new) r) }
{
    if descriptor[1] == INTERFACE {
        if descriptor.len() < 9 {
            return Ok(Err(WireFault::WrongLength));
        }
        if descriptor[5] != 0xfe || descriptor[6] != 1 {
            return Ok(Ok(false));
        }
        let [number, alternate] = [descriptor[2], descriptor[3]];
        let added = interface_line(alloc, number, alternate, descriptor[7], descriptor[8])?;
        push(line, &added)?;
        return Ok(Ok(true));
    }
    if !inside || descriptor[1] != FUNCTIONAL {
        return Ok(Ok(inside));
    }
    match Functional::decode(descriptor) {
        Ok(functional) => {
            push(line, &functional_line(alloc, &functional)?)?;
            Ok(Ok(inside))
        }
        Err(fault) => Ok(Err(fault)),
    }
}

// Returns the line for a configuration: `configuration N`, where N is `value`, its bConfigurationValue.
#[tactic(auto, unfolding(crate::specs::Configuration::configuration_line))]
fn configuration_line(alloc: Global, value: u8) -> Result<String, AllocError>
    ensures { IfOk result (λ t. string_bytes t ≡ configuration_line value) }
{
    line_of(alloc, "configuration ", &[("", Number(value as u64))])
}

// Adds the texts of successive descriptors to `line`. Stops at the first fault and returns it.
fn walk(alloc: Global, line: &mut String, bytes: &[u8]) -> Result<Result<(), WireFault>, AllocError>
    ensures { IfOk result (λ r. DescriptorsTextAdded bytes.now (string_bytes line.old) (string_bytes line.new) r) }
{
    let mut rest = bytes;
    let mut inside = false;
    while !rest.is_empty() {
        let length = usize::from(rest[0]);
        if length < 2 {
            return Ok(Err(WireFault::WrongLength));
        }
        if rest.len() < length {
            return Ok(Err(WireFault::Short));
        }
        let (descriptor, behind) = rest.split_at(length);
        match add(alloc, line, inside, descriptor)? {
            Ok(now) => inside = now,
            Err(fault) => return Ok(Err(fault)),
        }
        rest = behind;
    }
    Ok(Ok(()))
}

/// Returns the text of a configuration descriptor and of the descriptors after it, or the first fault:
///
/// 1. `Short`: there are fewer than nine bytes.
/// 2. `WrongType`: the second byte is not 02h.
/// 3. `WrongLength`: the first byte is not 9.
/// 4. `Short` or `Long`: there are fewer or more than wTotalLength bytes.
/// 5. The fault of the first bad descriptor after it. `WrongLength`: its first byte is below 2, or it is an interface descriptor with fewer
///    than nine bytes. `Short`: it extends beyond the last byte. A functional descriptor of a DFU interface has its own faults.
pub(crate) fn configuration_text(
    alloc: Global,
    bytes: &[u8],
) -> Result<Result<String, WireFault>, AllocError>
    ensures text { IfOk result (λ r. IfOk r (λ t. ConfigurationText bytes.now (Ok (string_bytes t)))) }
    ensures fault { IfOk result (λ r. IfErr r (λ e. ConfigurationText bytes.now (Err e))) }
{
    if bytes.len() < 9 {
        return Ok(Err(WireFault::Short));
    }
    if bytes[1] != 2 {
        return Ok(Err(WireFault::WrongType));
    }
    if bytes[0] != 9 {
        return Ok(Err(WireFault::WrongLength));
    }
    let total = usize::from(u16::from_le_bytes([bytes[2], bytes[3]]));
    if bytes.len() < total {
        return Ok(Err(WireFault::Short));
    }
    if bytes.len() > total {
        return Ok(Err(WireFault::Long));
    }
    let mut line = configuration_line(alloc, bytes[5])?;
    let (_, behind) = bytes.split_at(9);
    match walk(alloc, &mut line, behind)? {
        Ok(()) => Ok(Ok(line)),
        Err(fault) => Ok(Err(fault)),
    }
}
