//! Flash that a device reads as memory, and the note of its active image.
ghost use Rattle.std.specs.Prelude.{◌≡◌, ◌≤◌, ◌%◌, ◌↔◌, ℕ, List, length, IsTrue, IfSome, IfNone, ◌^◌, ◌<◌};
ghost use Rattle.dfu_slots.specs.Units.{unit_size, in_place_grain};
ghost use Rattle.dfu_slots.specs.Image.{HasImage};
ghost use Rattle.dfu_asks.specs.Mapped.{grain_of, mapped_medium};
ghost use Rattle.dfu_asks.specs.Noted.{IsNoteOfMedium, NotedIsOnFlash, IsNoteView};
ghost use Rattle.dfu_asks.specs.Lent.{HasRoom};
ghost use Rattle.dfu_asks.specs.Refused.{IsDeviceOn, RoomForBlocks};

use crate::{Asking, Sector};
use dfu_device::{PutSoFar, is_filled};
use dfu_slots::laws::active_image_is_one;
use dfu_slots::{
    Failed, Medium, Unit, capacity_of, check, flash_byte_at, gate_of, header_of, is_open, is_sized,
    length_in, read_flash,
};

/// Flash that is mapped into memory, where it is read; every write or erase through this type fails. Its owner writes it in units, either
/// in place or after it has erased the sectors.
#[derive(Drop)]
pub struct Mapped<'m> {
    pub(crate) bytes: &'m [u8],
    pub(crate) unit: Unit,
    pub(crate) sector: Sector,
    ghost short: { length bytes.now < 2 ^ 32 },
}

impl<'m> Mapped<'m> {
    /// Returns the medium of `bytes`, which is written in place, in units of `unit`; None if there are 2^32 bytes or more.
    pub fn new(bytes: &'m [u8], unit: Unit) -> Option<Mapped<'m>>
        ensures some { IfSome result (λ m. mapped_medium (grain_of m.unit m.sector) m.bytes.now ≡ mapped_medium
            (in_place_grain unit) bytes.now) }
        ensures none { IfNone result (2 ^ 32 ≤ length bytes.now) }
    {
        Mapped::with_sector(bytes, unit, Sector::none())
    }

    /// Returns the medium of `bytes`, which is written in units of `unit`: after an erase of its sectors of `sector` bytes, or in place if
    /// `sector` is 0.
    ///
    /// None if `sector` is neither 0 nor a multiple of 256 up to 262,144, or if there are 2^32 bytes or more.
    pub fn with_sectors(bytes: &'m [u8], unit: Unit, sector: u32) -> Option<Mapped<'m>>
        ensures some { IfSome result (λ m. mapped_medium (grain_of m.unit m.sector) m.bytes.now
            ≡ mapped_medium (record { unit = unit; sector = sector }) bytes.now) }
        ensures none { IfNone result ((sector % 256 ≡ 0) → (sector ≤ 2 ^ 18) → 2 ^ 32 ≤ length bytes.now) }
        ensures refused { IfSome result (λ m. (sector % 256 ≡ 0) × (sector ≤ 2 ^ 18)) }
    {
        Mapped::with_sector(bytes, unit, Sector::new(sector)?)
    }

    /// Returns the medium of `bytes`, as `with_sectors` does, for a `sector` that is known to be valid; None if there are 2^32 bytes or
    /// more.
    pub(crate) fn with_sector(bytes: &'m [u8], unit: Unit, sector: Sector) -> Option<Mapped<'m>>
        ensures some { IfSome result (λ m. mapped_medium (grain_of m.unit m.sector) m.bytes.now ≡ mapped_medium
            (grain_of unit sector) bytes.now) }
        ensures parts { IfSome result (λ m. (m.unit ≡ unit) × (m.sector ≡ sector) × (m.bytes.now ≡ bytes.now)) }
        ensures none { IfNone result (2 ^ 32 ≤ length bytes.now) }
    {
        if bytes.len() > 0xffff_ffff {
            return None;
        }
        Some(Mapped {
            bytes,
            unit,
            sector,
        })
    }
}

impl<'m> Medium for Mapped<'m> {
    ghost state = { λ m. mapped_medium (grain_of m.unit m.sector) m.bytes.now };

    fn len(&self) -> u32 {
        self.bytes.len() as u32
    }

    fn unit(&self) -> Unit {
        self.unit
    }

    fn sector(&self) -> u32 {
        self.sector.size()
    }

    // The CRC of a mapped flash uses small tables, because a library in a bootloader must be small.
    fn has_small_tables(&self) -> bool {
        true
    }

    fn read(&self, at: u32, out: &mut [u8]) {
        let from = at as usize;
        read_flash(&self.bytes[from..from + out.len()], out);
    }

    fn write(&mut self, _at: u32, _bytes: &[u8]) -> Result<(), Failed> {
        Err(Failed)
    }

    fn erase(&mut self, _at: u32) -> Result<(), Failed> {
        Err(Failed)
    }
}

/// Note of the active image: its slot, and that slot's header. A call that finds this header in that slot doesn't need to read the image.
#[derive(Clone, Copy, Drop)]
pub struct Noted {
    /// True if the active image is in the second slot, false if it is in the first.
    pub second: bool,
    /// Header of the active image's slot.
    pub header: [u8; 16],
}

impl Noted {
    /// Returns the note of the active image of `flash`. The call reads the image of each open slot.
    ///
    /// None exactly if the flash has no active image, or 2^32 bytes or more.
    pub fn find(flash: &[u8], unit: Unit, sector: Sector) -> Option<Noted>
        ensures some { IfSome result (λ n. IsNoteOfMedium n (mapped_medium (grain_of unit sector) flash.now)) }
        ensures image { IfSome result (λ n. HasImage (mapped_medium (grain_of unit sector) flash.now)) }
        ensures none { IfNone result (¬ HasImage (mapped_medium (grain_of unit sector) flash.now)) }
    {
        let medium = Mapped::with_sector(flash, unit, sector)?;
        match check(&medium) {
            Ok(places) => Some(Noted {
                second: places.active != 0,
                header: header_of(&medium, places.active),
            }),
            Err(_) => {
                // The proof uses the clause `refused` of this call's contract.
                active_image_is_one();
                None
            }
        }
    }
}

/// View of a call's flash: offsets and lengths that follow from the note of the active image.
#[derive(Clone, Copy, Drop)]
pub(crate) struct View {
    /// Offset of the active slot.
    pub(crate) active: u32,
    /// Offset of the spare slot.
    pub(crate) spare: u32,
    /// Largest number of bytes of an image that a slot can hold.
    pub(crate) room: u32,
    /// Length of the active image.
    pub(crate) len: u32,
}

// Returns true if a header of flash equals `other`. A loop takes less code than `==`.
fn are_same(one: &[u8], other: &[u8; 16]) -> bool
    requires { length one.now ≡ 16 }
    ensures { IsTrue result ↔ (one.now ≡ other.now) }
{
    for i in 0..16 {
        if flash_byte_at(one, i) != other[i] {
            return false;
        }
    }
    true
}

/// Returns the view of `medium` if it consists of two slots, and the noted slot is open, has the noted header, and is large enough for the
/// image length in that header; else None.
#[inline(never)]
pub(crate) fn look(medium: &Mapped<'_>, noted: &Noted) -> Option<View>
    ensures stands { let m = mapped_medium (grain_of medium.now.unit medium.now.sector) medium.now.bytes.now in
        IfSome result (λ v. NotedIsOnFlash noted.now m) }
    ensures view { let m = mapped_medium (grain_of medium.now.unit medium.now.sector) medium.now.bytes.now in
        IfSome result (λ v. IsNoteView v noted.now m) }
    ensures none { let m = mapped_medium (grain_of medium.now.unit medium.now.sector) medium.now.bytes.now in
        IfNone result (¬ NotedIsOnFlash noted.now m) }
{
    if !is_sized(medium) {
        return None;
    }
    let half = medium.len() / 2;
    let (active, spare) = if noted.second { (half, 0) } else { (0, half) };
    if !is_open(medium, active) {
        return None;
    }
    let from = (active + gate_of(medium)) as usize;
    if !are_same(&medium.bytes[from..from + 16], &noted.header) {
        return None;
    }
    let (room, len) = (capacity_of(medium), length_in(&noted.header));
    if len > room {
        return None;
    }
    Some(View {
        active,
        spare,
        room,
        len,
    })
}

// Returns true if `end` is at most `room`, and `held` is the number of bytes by which `end` exceeds a multiple of the unit.
fn puts_may_end_at(unit: Unit, held: usize, end: u32, room: u32) -> bool
    ensures { IsTrue result ↔ ((end ≤ room) × (held ≡ end % unit_size unit)) }
{
    end <= room && held == (end % unit.size()) as usize
}

impl Asking {
    /// Returns true if the kept fields agree with `medium` and `view`, and a block memory of `room` bytes is large enough.
    #[inline(never)]
    pub(crate) fn kept_fields_fit(&self, room: usize, medium: &Mapped<'_>, view: &View) -> bool
        requires unit { medium.now.unit ≡ self.now.unit }
        requires sector { medium.now.sector ≡ self.now.sector }
        requires view { IsNoteView view.now self.now.noted (mapped_medium (grain_of self.now.unit self.now.sector) medium.now.bytes.now) }
        ensures kept { (block held : List ℕ) → length block ≡ room → HasRoom self.now.unit held →
            IsDeviceOn self.now block held medium.now.bytes.now → IsTrue result }
        ensures block_fits { IsTrue result → RoomForBlocks self.now room }
        ensures end { IsTrue result → self.now.put_end ≤ view.now.room }
        ensures held { IsTrue result → self.now.held_len ≤ self.now.put_end }
    {
        if self.block_len > room
            || usize::from(self.config.functional().transfer) > room.min(4096)
        {
            return false;
        }
        if !puts_may_end_at(self.unit, self.held_len, self.put_end, view.room) {
            return false;
        }
        let seen = PutSoFar {
            room: view.room,
            begun: !is_open(medium, view.spare),
            end: self.put_end,
        };
        is_filled(seen, self.mode, self.block_len)
    }
}
