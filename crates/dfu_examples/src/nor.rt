//! A medium on NOR flash, whose sectors are erased before bytes are programmed in them.

ghost use Rattle.std.specs.Prelude.{◌≡◌, ◌+◌, ◌%◌, ◌<◌, ◌≤◌, ℕ, List, length, slice_index, slice_range};
ghost use Rattle.dfu_slots.specs.Units.{Grain, IsMultiple};
ghost use Rattle.dfu_slots.specs.Medium.{ChangedWithin};

use crate::ChipFault;
use dfu_slots::{Failed, Medium, Unit};

/// A driver of NOR flash with sectors of one size.
///
/// A driver must meet two conditions: `read` returns the bytes in the flash, and neither a `program` nor an `erase` changes a byte outside
/// its range, even if the power fails during it. The driver need not check that the bytes were written, because the store reads them back.
/// The store erases each sector before it programs in it, and programs no unit twice between two erases.
pub trait Flash: Drop {
    /// The bytes in the flash. Only contracts use this value.
    ghost cells: { Self → List ℕ };

    /// The grain of the flash: the unit in which it is programmed, and the size of the sectors in which it is erased.
    ghost grain: { Self → Grain };

    /// Returns the size of the flash in bytes.
    fn size(&self) -> u32
        ensures { result ≡ length (cells self.now) };

    /// Returns the unit in which the flash is programmed.
    fn unit(&self) -> Unit
        ensures { result ≡ (grain self.now).unit };

    /// Returns the size of a sector in bytes. The store supports multiples of 256 up to 262,144.
    fn sector(&self) -> u32
        ensures { result ≡ (grain self.now).sector };

    /// Reads `out.len()` bytes, the first one at offset `at`. The range must lie within the flash.
    fn read(&self, at: u32, out: &mut [u8])
        requires { at + length out.old ≤ length (cells self.now) }
        ensures { out.new ≡ slice_range (cells self.now) at (at + length out.old) };

    /// Programs whole units, the first one at offset `at`. The range must lie within the flash. If the flash has sectors, each byte of the
    /// range must be FFh, and its sector must have been erased since the byte was last programmed. The range may hold any bytes afterwards,
    /// even after Ok, but all other bytes, the size, the unit and the sector must be unchanged.
    fn program(&mut self, at: u32, bytes: &[u8]) -> Result<(), ChipFault>
        requires within { at + length bytes.now ≤ length (cells self.old) }
        requires place { IsMultiple (grain self.old).unit at }
        requires whole { IsMultiple (grain self.old).unit (length bytes.now) }
        requires blank { 0 < (grain self.old).sector → (p : ℕ) → at ≤ p → p < at + length bytes.now →
            slice_index (cells self.old) p ≡ 255 }
        ensures cells { ChangedWithin at (at + length bytes.now) (cells self.old) (cells self.new) }
        ensures grain { grain self.new ≡ grain self.old };

    /// Erases the sector that begins at `at` and must lie within the flash. The sector may hold any bytes afterwards, even after Ok, but
    /// everything else must be unchanged.
    fn erase(&mut self, at: u32) -> Result<(), ChipFault>
        requires within { at + (grain self.old).sector ≤ length (cells self.old) }
        requires place { at % (grain self.old).sector ≡ 0 }
        ensures cells { ChangedWithin at (at + (grain self.old).sector) (cells self.old) (cells self.new) }
        ensures grain { grain self.new ≡ grain self.old };
}

/// A medium on NOR flash, with the unit and the sectors of its driver.
#[derive(Drop)]
pub struct Nor<F: Flash> {
    pub flash: F,
}

impl<F: Flash> Medium for Nor<F> {
    ghost use Rattle.std.specs.Prelude.{◌-◌, ◌^◌, []};
    ghost use Rattle.dfu_slots.specs.Medium.{MediumState};
    ghost use Rattle.dfu_slots.specs.Medium.Fuse.{Unknown};

    // Any write or erase may fail or lie, as in `Fram`.
    ghost state = { λ m. record {
      bytes = F.cells m.flash;
      failures = 2 ^ 64 - 1;
      fuse = Unknown;
      grain = F.grain m.flash;
      tag = [];
    } };

    fn len(&self) -> u32 {
        self.flash.size()
    }

    fn unit(&self) -> Unit {
        self.flash.unit()
    }

    fn sector(&self) -> u32 {
        self.flash.sector()
    }

    fn read(&self, at: u32, out: &mut [u8]) {
        self.flash.read(at, out);
    }

    fn write(&mut self, at: u32, bytes: &[u8]) -> Result<(), Failed> {
        self.flash.program(at, bytes).map_err(|_| Failed)
    }

    fn erase(&mut self, at: u32) -> Result<(), Failed> {
        self.flash.erase(at).map_err(|_| Failed)
    }
}
