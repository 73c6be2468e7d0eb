//! Memory maps, as records for C.

ghost use Rattle.std.specs.Prelude.{◌≡◌, ◌⊎◌, pos};
ghost use Rattle.dfu_host_c.specs.dfuse.Maps.{access_number, map_record, range_record, HasMapRecord, HasRangeRecord, HasNoRange, IsNoMap};
ghost use Rattle.dfu_host_c.specs.Refusals.{no_range};

use crate::refusals::{HostRefusal, NO_RANGE};
use dfu_formats::memory::{Access, Map, Pages};

/// `struct dfuse_map`: the numbers of a map. The header explains each of them.
#[repr(C)]
#[derive(Drop)]
pub struct DfuseMap {
    /// Length in bytes of the name, which follows the `@`.
    pub name: u64,
    /// Number of ranges, 1 to 32.
    pub ranges: u64,
}

/// `struct dfuse_range`: pages of one size. The header explains each number.
#[repr(C)]
#[derive(Drop)]
pub struct DfuseRange {
    /// Address of the first byte.
    pub start: u64,
    /// Number of bytes of each page.
    pub size: u64,
    /// Number of pages.
    pub count: u32,
    /// Access to each page: bit 0 to read, bit 1 to erase, bit 2 to write.
    pub access: u32,
}

fn map_record(map: &Map<'_>) -> DfuseMap
    ensures { result ≡ map_record map.now }
{
    DfuseMap {
        name: map.name().len() as u64,
        ranges: map.ranges().len() as u64,
    }
}

/// Returns the access to pages as a number: bit 0 to read, bit 1 to erase, bit 2 to write.
fn access_number(access: Access) -> u32
    ensures { result ≡ access_number access }
{
    u32::from(access.is_readable)
        + 2 * u32::from(access.is_erasable)
        + 4 * u32::from(access.is_writable)
}

fn range_record(pages: &Pages) -> DfuseRange
    ensures { result ≡ range_record pages.now }
{
    DfuseRange {
        start: u64::from(pages.start),
        size: pages.size,
        count: pages.count,
        access: access_number(pages.access),
    }
}

/// Reads `text`, the string of an alternate setting, into `out`. Returns 0, or the number of its first fault.
#[unsafe(no_mangle)]
pub extern "C" fn dfuse_read_map(text: &[u8], out: &mut DfuseMap) -> i32
    ensures outcome { ((result ≡ pos 0) × HasMapRecord text.now out.new) ⊎ (IsNoMap text.now result × (out.new ≡ out.old)) }
{
    match Map::read(text) {
        Ok(map) => {
            *out = map_record(&map);
            0
        }
        Err(fault) => HostRefusal::Map(fault).number(),
    }
}

/// Reads range `number` of the map `text` into `out`. Returns 0, or the number of the string's first fault, or `NO_RANGE` if the map has no
/// such range.
#[unsafe(no_mangle)]
pub extern "C" fn dfuse_read_range(text: &[u8], number: u32, out: &mut DfuseRange) -> i32
    ensures outcome { ((result ≡ pos 0) × HasRangeRecord text.now number out.new)
        ⊎ ((result ≡ no_range) × HasNoRange text.now number × (out.new ≡ out.old))
        ⊎ (IsNoMap text.now result × (out.new ≡ out.old)) }
{
    let map = match Map::read(text) {
        Ok(map) => map,
        Err(fault) => return HostRefusal::Map(fault).number(),
    };
    match map.ranges().get(number as usize) {
        Some(pages) => {
            *out = range_record(pages);
            0
        }
        None => NO_RANGE,
    }
}
