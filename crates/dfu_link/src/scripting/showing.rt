//! Writes the line of a device's image, and the line of `show`.

ghost use Rattle.std.specs.Prelude.{◌+◌, ◌≤◌, ◌++◌, ◌∷◌, [], length, slice_range};
ghost use Rattle.hex.specs.Hex.{encode_lower};
ghost use Rattle.dfu_slots.specs.StoreView.{image_of};
ghost use Rattle.dfu_link.specs.inside.Expected.{expectation_of, WriteEnds, PrintEnds};
ghost use Rattle.dfu_link.specs.Texts.{hex_text, image_line, state_text, show_line};

use crate::scripting::expectation::{Expectation, write_next};
use crate::scripting::fault::ScriptFault;
use crate::scripting::output::{SHOWN_BYTES, write_digits, write_out, write_three, write_two};
use dfu_device::Device;
use dfu_slots::{Medium, Slots};
use std::io::Write;

/// Writes `len` bytes of the image, beginning at offset `at`, as hexadecimal digits.
fn write_piece<M: Medium, W: Write>(
    writer: &mut W,
    slots: &Slots<M>,
    at: u32,
    len: u32,
) -> Result<(), ScriptFault>
    requires piece { len ≤ 256 }
    requires within { at + len ≤ length (image_of slots.now) }
    ensures { WriteEnds (encode_lower (slice_range (image_of slots.now) at (at + len))) (W.contents writer.old)
        (W.contents writer.new) result }
{
    let len = len as usize;
    let mut bytes = [0; SHOWN_BYTES];
    slots.read_active(at, &mut bytes[..len]);
    write_digits(writer, &bytes[..len])
}

/// Writes an image as hexadecimal digits, in pieces of at most 256 bytes.
fn write_pieces<M: Medium, W: Write>(writer: &mut W, slots: &Slots<M>) -> Result<(), ScriptFault>
    ensures { WriteEnds (encode_lower (image_of slots.now)) (W.contents writer.old) (W.contents writer.new) result }
{
    let all = slots.active_len();
    let mut at = 0;
    while at < all {
        let len = (SHOWN_BYTES as u32).min(all - at);
        write_piece(writer, slots, at, len)?;
        at += len;
    }
    Ok(())
}

/// Writes the image of a slot store as hexadecimal digits, or `-` if it is empty, and a line feed.
fn write_hex<M: Medium, W: Write>(writer: &mut W, slots: &Slots<M>) -> Result<(), ScriptFault>
    ensures { WriteEnds (hex_text (image_of slots.now) ++ 10 ∷ []) (W.contents writer.old) (W.contents writer.new) result }
{
    if slots.active_len() == 0 {
        return write_two(writer, "-", "\n");
    }
    write_pieces(writer, slots)?;
    write_out(writer, b"\n")
}

/// Writes the line of the device's image.
pub(crate) fn write_image<M: Medium, W: Write>(
    writer: &mut W,
    device: &Device<M>,
) -> Result<(), ScriptFault>
    ensures { WriteEnds (image_line device.now) (W.contents writer.old) (W.contents writer.new) result }
{
    write_out(writer, b"image ")?;
    write_hex(writer, device.slots())
}

/// Writes the device's state and its status code.
fn write_state<M: Medium, W: Write>(writer: &mut W, device: &Device<M>) -> Result<(), ScriptFault>
    ensures { WriteEnds (state_text device.now) (W.contents writer.old) (W.contents writer.new) result }
{
    let state = device.state();
    let code = device.code();
    write_three(writer, "state ", state.name(), " status ")?;
    write_two(writer, code.name(), " ")
}

/// Writes the line of `show`.
pub(crate) fn write_show<M: Medium, W: Write>(
    writer: &mut W,
    device: &Device<M>,
) -> Result<(), ScriptFault>
    ensures { WriteEnds (show_line device.now) (W.contents writer.old) (W.contents writer.new) result }
{
    write_state(writer, device)?;
    write_image(writer, device)
}

/// Writes the line of the device's image. If a line is expected, the image line is first stored in memory and compared with the expected
/// line.
pub(crate) fn image_next<M: Medium, W: Write>(
    writer: &mut W,
    next: &mut Option<Expectation>,
    device: &Device<M>,
) -> Result<(), ScriptFault>
    ensures { PrintEnds (expectation_of next.old) (W.contents writer.old) (image_line device.now) (expectation_of next.new)
        (W.contents writer.new) result }
{
    let Some(expected) = next else {
        return write_image(writer, device);
    };
    let mut line = Vec::new(expected.alloc);
    let Ok(()) = write_image(&mut line, device) else {
        return Err(ScriptFault::NoMemory);
    };
    write_next(writer, next, &line)
}

/// Writes the line of `show`. If a line is expected, the line of `show` is first stored in memory and compared with the expected line.
pub(crate) fn show_next<M: Medium, W: Write>(
    writer: &mut W,
    next: &mut Option<Expectation>,
    device: &Device<M>,
) -> Result<(), ScriptFault>
    ensures { PrintEnds (expectation_of next.old) (W.contents writer.old) (show_line device.now) (expectation_of next.new)
        (W.contents writer.new) result }
{
    let Some(expected) = next else {
        return write_show(writer, device);
    };
    let mut line = Vec::new(expected.alloc);
    let Ok(()) = write_show(&mut line, device) else {
        return Err(ScriptFault::NoMemory);
    };
    write_next(writer, next, &line)
}
