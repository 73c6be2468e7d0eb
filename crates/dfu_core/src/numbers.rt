//! Reasons to refuse a call from a program in C, and their numbers.
ghost use Rattle.std.specs.Prelude.{◌≡◌};
ghost use Rattle.dfu_core.specs.Numbers.{refusal_number};

/// Reasons for which a call is refused. A refused call changes nothing.
#[derive(Clone, Copy)]
pub enum CoreRefusal {
    /// The configuration is not allowed, or has another version than the library.
    NoConfig,
    /// The block's memory is smaller than the transfer size and a unit together.
    NoBlock,
    /// Writes of a device or of a format are pending, and must be completed first.
    Asked,
    /// At power-on: the flash has no active image, or it has 2^32 bytes or more. For a device: no open slot of the flash has the header
    /// that the record notes.
    NoMedium,
    /// The record represents no device, or the block's memory or the flash is not as the last call left it.
    NoDevice,
}

impl CoreRefusal {
    /// Returns the number of the refusal, which is negative.
    pub fn number(self) -> i32
        ensures { result ≡ refusal_number self }
    {
        match self {
            CoreRefusal::NoConfig => -2,
            CoreRefusal::NoBlock => -10,
            CoreRefusal::Asked => -12,
            CoreRefusal::NoMedium => -3,
            CoreRefusal::NoDevice => -4,
        }
    }
}
