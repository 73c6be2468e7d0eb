//! Meaning of a line, and the types of its parts.

ghost use Rattle.std.specs.Prelude.{◌≡◌, ◌%◌, ◌≤◌, IsTrue, is_some};
ghost use Rattle.dfu_link.specs.Words.{hex_word_bytes};

use dfu_device::Objection;
use dfu_sim::{Fate, Purpose};
use dfu_slots::Unit;
use dfu_wire::{Functional, Ids};

/// Hexadecimal text of an even number of digits, or `-`. Decoding it fails only if there is no memory.
#[derive(Clone, Copy)]
pub(crate) struct HexText<'l> {
    pub text: &'l [u8],
    ghost readable: { IsTrue (is_some (hex_word_bytes text.now)) },
}

/// Largest number of bytes of an image.
#[derive(Clone, Copy)]
pub(crate) struct Room {
    pub bytes: u32,
    ghost some: { 1 ≤ bytes },
    ghost most: { bytes ≤ 1048576 },
}

/// Number of bytes that one erase of the medium clears. With 0 the medium is overwritten in place.
#[derive(Clone, Copy)]
pub(crate) struct Sector {
    pub bytes: u32,
    ghost pages: { bytes % 256 ≡ 0 },
    ghost most: { bytes ≤ 131072 },
}

/// Setting of a configuration line.
#[derive(Clone, Copy)]
pub(crate) enum ConfigLine<'l> {
    /// Identifiers of the device.
    Ids(Ids),
    /// Fields of the device's functional descriptor, the least length of an image in bytes, and the times of a block and of manifestation.
    Device {
        functional: Functional,
        least: u32,
        busy_ms: u32,
        manifest_ms: u32,
    },
    /// Unit in which the medium is written.
    Unit(Unit),
    /// Number of bytes that one erase of the medium clears.
    Erase(Sector),
    /// Milliseconds that the medium takes to erase a sector, and to program 256 bytes.
    Pace {
        erase_ms: u16,
        program_ms: u16,
    },
    /// Largest number of bytes of an image.
    Capacity(Room),
    /// Image of the device at the start.
    Image(HexText<'l>),
    /// First bytes of each image that the device's program accepts.
    Check(HexText<'l>),
}

/// Harm to a write in an action of the host. `Cut`: the power is cut in the write. `Fail`: the write fails. `Lie`: the write is torn, but
/// the medium reports a success.
#[derive(Clone, Copy)]
pub(crate) enum HarmKind {
    Cut,
    Fail,
    Lie,
}

/// File that a line offers.
#[derive(Clone, Copy)]
pub(crate) enum Offered<'l, 'g> {
    /// The line contains the bytes as hexadecimal text.
    Spelled(HexText<'l>),
    /// The line contains the word FILE, which stands for these bytes.
    Given(&'g [u8]),
}

/// Events of a line.
#[derive(Clone, Copy)]
pub(crate) enum EventLine<'l, 'g> {
    /// A file is offered.
    Offer {
        purpose: Purpose,
        file: Offered<'l, 'g>,
    },
    /// An upload begins.
    Upload,
    /// The session is aborted.
    Abort,
    /// The host performs its next `times` actions, each with `fate`.
    Go {
        fate: Fate<'l>,
        times: u32,
    },
    /// The host performs its next action. The first `writes` writes succeed, and the next one is torn: only the first bytes of `tear` are
    /// written, at most as many as the write has.
    GoHarmed {
        harm: HarmKind,
        writes: u32,
        tear: HexText<'l>,
    },
    /// The host performs actions with the fate `pass`, until one prints a line: the report of its session, or a refusal.
    GoOn,
    /// This many milliseconds pass.
    Time(u32),
    /// The bus is reset.
    Reset,
    /// The power is cut.
    Cut,
    /// The device's program refuses the image of the closed download.
    Refuse(Objection),
}

/// Meaning of a line.
#[derive(Clone, Copy)]
pub(crate) enum Line<'l, 'g> {
    /// The line has no words, or is a comment.
    Blank,
    /// A configuration line.
    Set(ConfigLine<'l>),
    /// Limits of later sessions.
    Limits { actions: u32, restarts: u16 },
    /// An event line.
    Do(EventLine<'l, 'g>),
    /// The line is `show`.
    Show,
    /// The next printed line must be this text.
    Expect(&'l [u8]),
}
