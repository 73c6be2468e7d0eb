//! A medium on a chip that is overwritten without an erase, such as an FRAM on SPI.

ghost use Rattle.std.specs.Prelude.{◌≡◌, ◌+◌, ◌≤◌, ℕ, List, length, slice_range};
ghost use Rattle.dfu_slots.specs.Medium.{ChangedWithin};

use dfu_slots::{Failed, Medium, Unit};

/// Faults of a driver's write. The store treats both alike.
#[derive(Clone, Copy, Drop)]
pub enum ChipFault {
    /// The chip is write-protected.
    Protected,
    /// The transfer on the bus failed.
    Bus,
}

/// A driver of a chip that is overwritten byte by byte, without an erase.
///
/// A driver must meet two conditions: `read` returns the bytes in the chip, and a `write` leaves all bytes outside its range unchanged,
/// even if the power fails during it. The driver need not check that the bytes were written, because the store reads them back.
pub trait Chip: Drop {
    /// The bytes in the chip. Only contracts use this value.
    ghost cells: { Self → List ℕ };

    /// Returns the size of the chip in bytes.
    fn size(&self) -> u32
        ensures { result ≡ length (cells self.now) };

    /// Reads `out.len()` bytes, the first one at offset `at`. The range must lie within the chip.
    fn read(&self, at: u32, out: &mut [u8])
        requires { at + length out.old ≤ length (cells self.now) }
        ensures { out.new ≡ slice_range (cells self.now) at (at + length out.old) };

    /// Writes `bytes` over the range that begins at offset `at` and must lie within the chip. The range may hold any bytes afterwards, even
    /// after Ok, but all other bytes and the size must be unchanged.
    fn write(&mut self, at: u32, bytes: &[u8]) -> Result<(), ChipFault>
        requires { at + length bytes.now ≤ length (cells self.old) }
        ensures { ChangedWithin at (at + length bytes.now) (cells self.old) (cells self.new) };
}

/// A medium on a chip that is overwritten without an erase, byte by byte.
#[derive(Drop)]
pub struct Fram<C: Chip> {
    pub chip: C,
}

impl<C: Chip> Medium for Fram<C> {
    ghost use Rattle.std.specs.Prelude.{◌-◌, ◌^◌, []};
    ghost use Rattle.dfu_slots.specs.Units.{in_place_grain};
    ghost use Rattle.dfu_slots.specs.Medium.{MediumState};
    ghost use Rattle.dfu_slots.specs.Medium.Fuse.{Unknown};
    ghost use Rattle.dfu_slots.specs.declared.layout.Unit.TheVariants.{Byte};

    // Any write may fail or lie. A count of failures that is always at its maximum allows this, so the driver doesn't have to count.
    ghost state = { λ m. record { bytes = C.cells m.chip; failures = 2 ^ 64 - 1; fuse = Unknown; grain = in_place_grain Byte; tag = [] } };

    fn len(&self) -> u32 {
        self.chip.size()
    }

    fn unit(&self) -> Unit {
        Unit::Byte
    }

    fn sector(&self) -> u32 {
        0
    }

    fn read(&self, at: u32, out: &mut [u8]) {
        self.chip.read(at, out);
    }

    fn write(&mut self, at: u32, bytes: &[u8]) -> Result<(), Failed> {
        self.chip.write(at, bytes).map_err(|_| Failed)
    }

    // There is nothing to erase, because the chip has no sectors.
    fn erase(&mut self, at: u32) -> Result<(), Failed> {
        Ok(())
    }
}
