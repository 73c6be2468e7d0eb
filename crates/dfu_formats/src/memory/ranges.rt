//! The ranges of a map.

ghost use Rattle.std.specs.Prelude.{◌≡◌, ◌<◌, ◌≤◌, ◌^◌, IfOk};
ghost use Rattle.std.specs.List.{All};
ghost use Rattle.dfu_formats.specs.memory.Ranges.{IsRange, end_of_range, ranges_are_apart, is_apart_from, are_apart};
ghost use Rattle.dfu_formats.specs.memory.Reading.{ranges_at};
ghost use Rattle.dfu_formats.specs.inside.Listing.{IsRangeResult};

use crate::memory::fault::MapFault;
use crate::memory::group::take_group;
use crate::memory::limits::MOST_RANGES;
use crate::memory::pages::Pages;
use crate::memory::place::take_next;
use arrayvec::ArrayVec;

/// Returns the address after the last byte of range `pages`, at most 2^32.
pub(crate) fn end_of(pages: &Pages) -> u64
    requires { IsRange pages.now }
    ensures value { result ≡ end_of_range pages.now }
    ensures at_most_4_gib { result ≤ 2 ^ 32 }
{
    pages.start as u64 + pages.count as u64 * pages.size
}

/// Reads at most 32 ranges, up to the end of the text. The first begins at `start`. Returns them, or the first fault.
pub(crate) fn take_ranges(start: u64, text: &[u8]) -> Result<ArrayVec<Pages, MOST_RANGES>, MapFault>
    requires { start < 2 ^ 33 }
    ensures value { IsRangeResult result (ranges_at 32 start text.now) }
    ensures sound { IfOk result (λ ranges. All IsRange ranges.items) }
{
    let mut ranges = ArrayVec::new();
    let mut at = start;
    let mut rest = text;
    loop {
        let group = match take_group(at, rest) {
            Ok(group) => group,
            Err(fault) => return Err(fault),
        };
        if ranges.is_full() {
            return Err(MapFault::TooManyRanges);
        }
        ranges.push(group.pages);
        match take_next(end_of(&group.pages), group.rest) {
            Ok(None) => return Ok(ranges),
            Ok(Some(next)) => {
                at = next.value;
                rest = next.rest;
            }
            Err(fault) => return Err(fault),
        }
    }
}
