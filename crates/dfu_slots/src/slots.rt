//! The slot store: two image slots on a medium, of which one holds the active image.
ghost use Rattle.std.specs.Prelude.{◌≡◌, ◌≢◌, [], ◌+◌, ◌*◌, ◌≤◌, ◌↔◌, length, take, slice_range, OnOk, OnErr, IfErr, IfOk, IsOk, true};
ghost use Rattle.dfu_slots.specs.Medium.{CountRose, AllWrites, BrokenWrites};
ghost use Rattle.dfu_slots.specs.Medium.Fuse.{Whole, Armed, Lying};
ghost use Rattle.dfu_slots.specs.Image.{gate_of, capacity_of, active_at, Active, HasImage};
ghost use Rattle.dfu_slots.specs.StoreView.{store_on, image_of, is_begun, room_of, is_shaped, format_series};
ghost use Rattle.dfu_slots.specs.Changes.{CanFormat, IsFormatFault, FirstOpenFault};
ghost use Rattle.dfu_slots.specs.Store.{IsStore};
ghost use Rattle.dfu_slots.specs.CallResults.{FuseResult};

use crate::layout::{capacity_of, is_sized};
use crate::places::{Places, check, look};
use crate::puts::Puts;
use crate::read::{data_at, header_len, is_open, read_data};
use crate::{Faulty, FormatFault, Medium, OpenFault, WriteFault, format};
use std::marker::Model;

/// Two image slots on a medium. The active slot holds the current image; the other one is the spare, which receives the next image piece by
/// piece. The store finds the active slot when it formats, opens or reopens the medium, and again after each `commit`.
///
/// The medium is written in whole units; bytes put that don't fill a unit yet are held back.
#[derive(Drop)]
pub struct Slots<M: Medium> {
    pub(crate) medium: M,
    pub(crate) puts: Puts,
    // Cached until the next `commit`, because a search computes a CRC register over each open slot.
    pub(crate) places: Places,
}

impl<M: Medium> Model for Slots<M> {
    ghost use Rattle.dfu_slots.specs.StoreView.{SlotsState, store_of};
    ghost use Rattle.dfu_slots.specs.inside.PlaceMemory.{RemembersPlaces};

    ghost Value = { SlotsState };

    ghost view = { λ s. store_of (M.state s.medium) s.puts.held.items s.puts.end };

    ghost invariant = { λ s. RemembersPlaces (store_of (M.state s.medium) s.puts.held.items s.puts.end) s.places.active s.places.spare };
}

impl<M: Medium> Slots<M> {
    /// Writes an image into the first slot and makes it the active one, regardless of what the medium held before.
    ///
    /// # Errors
    ///
    /// `WrongSize` if the medium's length is not 2 * (2 * G + C), with C from 1 to 16,777,216 and a multiple of the unit and of the sector,
    /// and G the largest of 16, the unit's size and the sector's, or if the sector is neither 0 nor a multiple of 256 up to 262,144;
    /// `TooLarge` if the image has more than C bytes; `Failed` if a write failed, or other bytes were read back. The errors are checked in
    /// this order. The first two return the medium unchanged.
    pub fn format(medium: M, image: &[u8]) -> Result<Slots<M>, (FormatFault, M)>
        ensures writes { IfOk result (λ slots.
            AllWrites (M.state medium) (format_series (M.state medium) image.now) slots.medium) }
        ensures active { IfOk result (λ slots. Active slots.medium image.now) }
        ensures image { IfOk result (λ slots. image_of slots ≡ image.now) }
        ensures shape { IfOk result (λ slots. is_shaped slots ≡ true) }
        ensures fresh { IfOk result (λ slots. slots ≡ store_on slots.medium) }
        ensures end { IfOk result (λ slots. slots.put_end ≡ 0) }
        ensures formats { OnOk result (CanFormat (M.state medium) image.now) }

        ensures fault { IfErr result (λ e. IsFormatFault e.0 (M.state medium) image.now) }
        ensures unchanged { IfErr result (λ e. e.0 ≢ FormatFault.Failed → e.1 ≡ medium) }
        ensures failed { IfErr result (λ e. e.0 ≡ FormatFault.Failed → (fault : WriteFault) ×
            BrokenWrites fault (M.state medium) (format_series (M.state medium) image.now) (M.state e.1)) }
        ensures rose { IfErr result (λ e. e.0 ≡ FormatFault.Failed →
            CountRose (M.state medium).failures (M.state e.1).failures) }
    {
        if !is_sized(&medium) {
            return Err((FormatFault::WrongSize, medium));
        }
        if image.len() as u64 > u64::from(capacity_of(&medium)) {
            return Err((FormatFault::TooLarge, medium));
        }
        let mut medium = medium;
        match format::write_image(&mut medium, image) {
            Ok(()) => {
                let places = look(&medium);
                Ok(Slots {
                    medium,
                    puts: Puts::nothing(),
                    places,
                })
            }
            Err(_) => Err((FormatFault::Failed, medium)),
        }
    }

    /// Opens a medium that has an active image. Writes nothing.
    ///
    /// # Errors
    ///
    /// The first fault of the medium, in the order of `OpenFault`, with the unchanged medium.
    pub fn open(medium: M) -> Result<Slots<M>, (OpenFault, M)>
        ensures ok { IfOk result (λ slots. slots.medium ≡ M.state medium) }
        ensures opens { IsOk result ↔ HasImage (M.state medium) }
        ensures has_image { OnOk result (HasImage (M.state medium)) }
        ensures active { IfOk result (λ slots. Active slots.medium (image_of slots)) }
        ensures shape { IfOk result (λ slots. is_shaped slots ≡ true) }
        ensures fresh { IfOk result (λ slots. slots ≡ store_on slots.medium) }
        ensures end { IfOk result (λ slots. slots.put_end ≡ 0) }

        ensures err { IfErr result (λ e. e.1 ≡ medium) }
        ensures fault { IfErr result (λ e. FirstOpenFault e.0 (M.state medium)) }
        ensures refused { OnErr result (¬ HasImage (M.state medium)) }
    {
        match check(&medium) {
            Ok(places) => Ok(Slots {
                medium,
                puts: Puts::nothing(),
                places,
            }),
            Err(fault) => Err((fault, medium)),
        }
    }

    /// Returns the largest length of an image in bytes: C, from 1 to 16,777,216.
    pub fn capacity(&self) -> u32
        ensures value { result ≡ capacity_of self.now.medium }
        ensures room { result ≡ room_of self.now }
        ensures shape { is_shaped self.now ≡ true }
        ensures image { Active self.now.medium (image_of self.now) }
    {
        capacity_of(&self.medium)
    }

    /// Returns the number of bytes that were put and not discarded since, from 0 to the capacity. If it is 0, no bytes are held back.
    pub fn put_end(&self) -> u32
        ensures value { result ≡ self.now.put_end }
        ensures room { result ≤ room_of self.now }
        ensures nothing { result ≡ 0 → self.now.held ≡ [] }
    {
        self.puts.end
    }

    /// Returns the bytes held back: the last bytes put, which don't fill a unit of the medium yet.
    pub fn held(&self) -> &[u8]
        ensures held { result.now ≡ self.now.held }
        ensures store { IsStore self.now }
    {
        self.puts.held.as_slice()
    }

    /// Returns true if the gate of the spare slot is closed, so that `put` and `commit` don't return `NotBegun`.
    #[tactic(auto, unfolding(crate::specs::StoreView::is_begun))]
    pub fn is_begun(&self) -> bool
        ensures { result ≡ is_begun self.now }
    {
        !is_open(&self.medium, self.places.spare)
    }

    /// Returns the length of the active image in bytes, from 0 to the capacity.
    pub fn active_len(&self) -> u32
        ensures image { result ≡ length (image_of self.now) }
        ensures active { Active self.now.medium (image_of self.now) }
        ensures has_image { HasImage self.now.medium }
    {
        match header_len(&self.medium, self.places.active) {
            Some(len) => len,
            None => unreachable!(),
        }
    }

    /// Returns the offset on the medium of the active image's first byte, from which a program may run the image. The offset is valid until
    /// the next `commit`.
    pub fn image_at(&self) -> u32
        ensures value { let m = self.now.medium in result ≡ active_at (gate_of m) m.bytes + 2 * gate_of m }
        ensures within { result + length (image_of self.now) ≤ length self.now.medium.bytes }
        ensures bytes { let image = image_of self.now in
            slice_range self.now.medium.bytes result (result + length image) ≡ image }
    {
        data_at(&self.medium, self.places.active)
    }

    /// Reads `out.len()` bytes of the active image, the first one at offset `at`. The range must lie within the image.
    pub fn read_active(&self, at: u32, out: &mut [u8])
        requires { at + length out.old ≤ length (image_of self.now) }
        ensures bytes { out.new ≡ slice_range (image_of self.now) at (at + length out.old) }
        ensures active { Active self.now.medium (image_of self.now) }
    {
        read_data(&self.medium, self.places.active, at, out);
    }

    /// Opens the store's own medium again, as after a power loss: the bytes put are discarded. The call never fails, because the medium has
    /// an active image. Writes nothing.
    pub fn reopen(&mut self)
        ensures store { self.new ≡ store_on self.old.medium }
        ensures image { image_of self.new ≡ image_of self.old }
        ensures shape { is_shaped self.new ≡ true }
    {
        self.puts.clear();
        match check(&self.medium) {
            Ok(places) => self.places = places,
            Err(_) => unreachable!(),
        }
    }

    /// Returns the medium for reading. Bytes that are held back are not on it.
    pub fn medium(&self) -> &M
        ensures medium { M.state result.now ≡ self.now.medium }
        ensures active { Active self.now.medium (image_of self.now) }
    {
        &self.medium
    }

    /// Returns the medium. Bytes that are held back are not written to it.
    pub fn into_medium(self) -> M
        ensures medium { M.state result ≡ self.medium }
        ensures has_image { HasImage (M.state result) }
    {
        let Slots {
            medium,
            puts: _,
            places: _,
        } = self;
        medium
    }
}

impl<M: Faulty> Slots<M> {
    /// Arms the medium, as `Faulty::arm` does. Changes no byte.
    pub fn arm(&mut self, writes: u32, tear: &[u8], stop: bool)
        ensures { FuseResult self.old (Armed writes (take 4096 tear.now) stop) self.new }
    {
        self.medium.arm(writes, tear, stop);
    }

    /// Arms the medium to lie, as `Faulty::arm_lie` does. Changes no byte.
    pub fn arm_lie(&mut self, writes: u32, tear: &[u8])
        ensures { FuseResult self.old (Lying writes (take 4096 tear.now)) self.new }
    {
        self.medium.arm_lie(writes, tear);
    }

    /// Clears the fuse of the medium, as `Faulty::disarm` does. Changes no byte.
    pub fn disarm(&mut self)
        ensures { FuseResult self.old (Whole) self.new }
    {
        self.medium.disarm();
    }
}
