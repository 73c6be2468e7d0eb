//! The lines of `dfu show`.

ghost use Rattle.std.specs.Prelude.{◌≡◌, IfOk};
ghost use Rattle.std.specs.String.{string_bytes};
ghost use Rattle.dfu_output.specs.ShowLines.{bad_hex_line, functional_line, setup_line, state_line, status_line, wire_line};

use crate::exit::fault_line;
use crate::fields::Value::{Flag, Hex2, Hex4, Number, Text};
use crate::fields::line_of;
use dfu_suffix::SuffixFault;
use dfu_wire::{Functional, Request, Setup, State, Status, WireFault};
use hex::FromHexError;
use std::alloc::{AllocError, Global};

/// Returns the line for a functional descriptor: `functional download Y upload Y tolerant Y will-detach Y detach N transfer N version
/// HHHH`.
#[tactic(auto, unfolding(crate::specs::ShowLines::functional_line))]
pub(crate) fn functional_line(alloc: Global, f: &Functional) -> Result<String, AllocError>
    ensures { IfOk result (λ t. string_bytes t ≡ functional_line f.now) }
{
    let fields = [
        (" download ", Flag(f.can_download)),
        (" upload ", Flag(f.can_upload)),
        (" tolerant ", Flag(f.tolerant)),
        (" will-detach ", Flag(f.will_detach)),
        (" detach ", Number(f.detach_ms as u64)),
        (" transfer ", Number(f.transfer as u64)),
        (" version ", Hex4(f.version)),
    ];
    line_of(alloc, "functional", &fields)
}

/// Returns the line for `status` and its sixth byte `string`: `status CODE poll N state STATE string N`.
#[tactic(auto, unfolding(crate::specs::ShowLines::status_line))]
pub(crate) fn status_line(alloc: Global, status: &Status, string: u8) -> Result<String, AllocError>
    ensures { IfOk result (λ t. string_bytes t ≡ status_line status.now string) }
{
    let fields = [
        (" ", Text(status.code().name())),
        (" poll ", Number(status.poll_ms() as u64)),
        (" state ", Text(status.state().name())),
        (" string ", Number(string as u64)),
    ];
    line_of(alloc, "status", &fields)
}

/// Returns the line for `state`: `state STATE`.
#[tactic(auto, unfolding(crate::specs::ShowLines::state_line))]
pub(crate) fn state_line(alloc: Global, state: State) -> Result<String, AllocError>
    ensures { IfOk result (λ t. string_bytes t ≡ state_line state) }
{
    line_of(alloc, "state ", &[("", Text(state.name()))])
}

/// Returns the line for `setup` and its request `asked`: `setup REQUEST kind HH number HH value N index N length N`.
#[tactic(auto, unfolding(crate::specs::ShowLines::setup_line))]
pub(crate) fn setup_line(alloc: Global, setup: &Setup, asked: Request) -> Result<String, AllocError>
    ensures { IfOk result (λ t. string_bytes t ≡ setup_line setup.now asked) }
{
    let fields = [
        (" ", Text(asked.name())),
        (" kind ", Hex2(setup.kind)),
        (" number ", Hex2(setup.request)),
        (" value ", Number(setup.value as u64)),
        (" index ", Number(setup.index as u64)),
        (" length ", Number(setup.length as u64)),
    ];
    line_of(alloc, "setup", &fields)
}

/// Returns the line for bytes that can't be decoded: `refused NAME`, where NAME is `fault`.
#[tactic(auto, unfolding(crate::specs::ShowLines::wire_line))]
pub(crate) fn wire_line(fault: WireFault) -> &'static str
    ensures { result.now ≡ wire_line fault }
{
    refused!(fault, WireFault,
        Short Long WrongLength WrongType UnknownState UnknownCode PollTooLong
    )
}

/// Returns the line for a text that can't be decoded: `refused NoMemory` if memory ran out, and `refused BadHex` if the text isn't
/// hexadecimal.
pub(crate) fn bad_hex_line(error: FromHexError) -> &'static str
    ensures { result.now ≡ bad_hex_line error }
{
    match error {
        FromHexError::OutOfMemory => fault_line(SuffixFault::NoMemory),
        _ => "refused BadHex\n",
    }
}
