//! Check for flash that was never written, so that a program can tell a new board from a damaged one.
ghost use Rattle.std.specs.Prelude.{◌≡◌, ◌↔◌, ◌+◌, ◌≤◌, IsTrue, length, slice_range, IfSome, IfNone, OnSome};
ghost use Rattle.std.specs.List.{list_all};
ghost use Rattle.dfu_slots.specs.Image.{IsSizedMedium, HasImage};
ghost use Rattle.dfu_asks.specs.Blank.{is_erased_byte, AreSlotFrontsErased};
ghost use Rattle.dfu_asks.specs.Mapped.{grain_of, mapped_medium};

use crate::Mapped;
use crate::gates::gate_room;
use dfu_slots::{flash_byte_at, is_sized};

// Returns true if the `len` bytes from `at` on are FFh.
fn is_erased(flash: &[u8], at: usize, len: usize) -> bool
    requires { at + len ≤ length flash.now }
    ensures { result ≡ list_all is_erased_byte (slice_range flash.now at (at + len)) }
{
    let mut rest = &flash[at..at + len];
    while !rest.is_empty() {
        if flash_byte_at(rest, 0) != 0xff {
            return false;
        }
        rest = &rest[1..];
    }
    true
}

impl<'m> Mapped<'m> {
    /// Returns true if the flash reads as if it was never written, which means that every byte of the gates and the headers of both slots
    /// is FFh; there is no active image then. The data of the slots is not checked.
    ///
    /// None exactly if the size of the flash cannot be divided into two slots.
    pub fn is_blank(&self) -> Option<bool>
        ensures blank { IfSome result (λ b. IsTrue b ↔ AreSlotFrontsErased (grain_of self.now.unit self.now.sector) self.now.bytes.now) }
        ensures no_image { IfSome result (λ b. IsTrue b →
            ¬ HasImage (mapped_medium (grain_of self.now.unit self.now.sector) self.now.bytes.now)) }
        ensures some { OnSome result (IsSizedMedium (mapped_medium (grain_of self.now.unit self.now.sector) self.now.bytes.now)) }
        ensures none { IfNone result (¬ IsSizedMedium (mapped_medium (grain_of self.now.unit self.now.sector) self.now.bytes.now)) }
    {
        if !is_sized(self) {
            return None;
        }
        let front = 2 * gate_room(self.unit, self.sector) as usize;
        if !is_erased(self.bytes, 0, front) {
            return Some(false);
        }
        Some(is_erased(self.bytes, self.bytes.len() / 2, front))
    }
}
