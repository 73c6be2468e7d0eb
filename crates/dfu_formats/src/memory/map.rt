//! A memory map.

ghost use Rattle.std.specs.Prelude.{◌≡◌, ◌≤◌, ◌<◌, ◌^◌, ◌↔◌, length, true, IsTrue, Ok, Err, IfOk, IfSome};
ghost use Rattle.std.specs.List.{All};
ghost use Rattle.dfu_formats.specs.memory.Ranges.{IsRange, are_apart};
ghost use Rattle.dfu_formats.specs.memory.Reading.{MapContent, map_at};
ghost use Rattle.dfu_formats.specs.declared.memory.fault.MapFault.{MapFault};
ghost use Rattle.dfu_formats.specs.memory.Grammar.{IsMap, FirstMapFault};
ghost use Rattle.dfu_formats.specs.memory.Lookups.{range_at, page_at, end_of_page, AllGranted};

use crate::memory::apart::are_apart;
use crate::memory::fault::MapFault;
use crate::memory::limits::MOST_RANGES;
use crate::memory::lookups;
use crate::memory::name::take_name;
use crate::memory::pages::{Access, Page, Pages};
use crate::memory::place::take_address;
use crate::memory::ranges::take_ranges;
use arrayvec::ArrayVec;
use std::marker::Model;

/// A memory map: the name of a memory, and its ranges of pages, which share no address.
#[derive(Drop)]
pub struct Map<'t> {
    name: &'t [u8],
    ranges: ArrayVec<Pages, MOST_RANGES>,
}

impl<'t> Model for Map<'t> {
    ghost use Rattle.std.specs.Prelude.{◌≡◌, true};
    ghost use Rattle.std.specs.List.{All};
    ghost use Rattle.dfu_formats.specs.memory.Ranges.{IsRange, are_apart};
    ghost use Rattle.dfu_formats.specs.memory.Reading.{MapContent};

    ghost Value = { MapContent };

    ghost view = { λ m. record { name = m.name.now; ranges = m.ranges.items } };

    ghost invariant = { λ m. All IsRange m.ranges.items × (are_apart m.ranges.items ≡ true) };
}

/// Reads a map from `text`.
///
/// # Errors
///
/// The first fault of `text`.
#[tactic(auto, using(std::proofs::lemmas::Bool::Decides::nat_tests), unfolding(crate::specs::memory::Reading::map_at))]
fn read_map(text: &[u8]) -> Result<Map<'_>, MapFault>
    ensures { result ≡ map_at text.now }
{
    let named = match take_name(text) {
        Ok(named) => named,
        Err(fault) => return Err(fault),
    };
    let place = match take_address(named.rest) {
        Ok(place) => place,
        Err(fault) => return Err(fault),
    };
    let ranges = match take_ranges(place.value, place.rest) {
        Ok(ranges) => ranges,
        Err(fault) => return Err(fault),
    };
    if !are_apart(&ranges) {
        return Err(MapFault::Overlaps);
    }
    Ok(Map {
        name: named.name,
        ranges,
    })
}

impl<'t> Map<'t> {
    /// Reads the map in `text`, the string of an alternate setting.
    ///
    /// # Errors
    ///
    /// The first fault of the string, read from its front, or Overlaps if two ranges share an address.
    pub fn read(text: &'t [u8]) -> Result<Map<'t>, MapFault>
        // By the grammar, the string is a text of the returned map.
        ensures found { IfOk result (λ m. IsMap m text.now) }
        // Every map that follows the grammar is read.
        ensures only { (m : MapContent) → IsMap m text.now → result ≡ Ok m }
        // For any other string, the result is its first fault.
        ensures fault { (fault : MapFault) → (result ≡ Err fault) ↔ FirstMapFault fault text.now }
    {
        read_map(text)
    }

    /// Returns the name of the memory.
    pub fn name(&self) -> &'t [u8]
        ensures { result.now ≡ self.now.name }
    {
        self.name
    }

    /// Returns the ranges, at most 32, in the order of the string.
    pub fn ranges(&self) -> &[Pages]
        ensures value { result.now ≡ self.now.ranges }
        ensures sound { All IsRange result.now }
        ensures apart { are_apart result.now ≡ true }
        ensures at_most_32 { length result.now ≤ 32 }
    {
        &self.ranges
    }

    /// Returns the range that contains `address`, or None if no range contains it.
    pub fn range_at(&self, address: u32) -> Option<Pages>
        ensures { result ≡ range_at address self.now.ranges }
    {
        lookups::range_at(address as u64, &self.ranges)
    }

    /// Returns the page that contains `address`, or None if no range contains it.
    pub fn page_at(&self, address: u32) -> Option<Page>
        ensures value { result ≡ page_at address self.now.ranges }
        ensures has { IfSome result (λ p. (p.start ≤ address) × (address < end_of_page p) × (end_of_page p ≤ 2 ^ 32)) }
    {
        lookups::page_at(address as u64, &self.ranges)
    }

    /// Returns true if each address from `start` to before `end` is in a range that grants `wanted`.
    pub fn grants(&self, wanted: Access, start: u64, end: u64) -> bool
        ensures { IsTrue result ↔ AllGranted wanted start end self.now.ranges }
    {
        lookups::all_granted(wanted, start, end, &self.ranges)
    }
}
