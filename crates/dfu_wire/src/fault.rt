//! Reasons why bytes or numbers aren't a valid value of a wire format.

ghost use Rattle.std.specs.Prelude.{◌≡◌};
ghost use Rattle.dfu_wire.specs.FaultName.{wire_fault_name};

use std::fmt;
use thiserror::Error;

/// Reason why bytes or numbers aren't a valid value of a wire format. Each decoder documents the order of its checks.
#[derive(Clone, Copy, Error)]
pub enum WireFault {
    /// Too few bytes. A functional descriptor has none, or fewer than its first byte specifies (if that is 7 or 9). A status has under six.
    Short,
    /// Too many bytes. A functional descriptor has more than its first byte specifies (if that is 7 or 9). A status has over six.
    Long,
    /// The first byte of a functional descriptor, bLength, is neither 7 nor 9.
    WrongLength,
    /// The second byte of a functional descriptor, bDescriptorType, is not 21h.
    WrongType,
    /// A state byte is over 10, the highest number of a state.
    UnknownState,
    /// A code byte is over 15, the highest number of a status code.
    UnknownCode,
    /// A poll timeout is over 16,777,215 milliseconds, the largest number that fits in three bytes.
    PollTooLong,
}

impl fmt::Debug for WireFault {
    fn fmt<W: fmt::Write>(&self, f: &mut fmt::Formatter<W>) -> fmt::Result {
        f.write_str(self.name())
    }
}

/// Messages of the faults, in the order of `WireFault`.
static TEXTS: [&str; 7] = [
    "too few bytes",
    "too many bytes",
    "the length byte is wrong",
    "the type byte is wrong",
    "no such state",
    "no such status code",
    "the poll time does not fit 24 bits",
];

impl fmt::Display for WireFault {
    fn fmt<W: fmt::Write>(&self, f: &mut fmt::Formatter<W>) -> fmt::Result {
        f.write_str(TEXTS[*self as usize])
    }
}

/// Names of the variants, in the order of `WireFault`.
#[rattlefmt::skip]
static NAMES: [&str; 7] = [
    "Short", "Long", "WrongLength", "WrongType", "UnknownState", "UnknownCode", "PollTooLong",
];

impl WireFault {
    /// Returns the name of the fault's variant, such as `Short`.
    pub fn name(self) -> &'static str
        ensures { result.now ≡ wire_fault_name self }
    {
        NAMES[self as usize]
    }
}
