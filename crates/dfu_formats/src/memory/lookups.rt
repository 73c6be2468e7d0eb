//! Lookups of an address in ranges.

ghost use Rattle.std.specs.Prelude.{◌≡◌, ◌≤◌, ◌<◌, ◌+◌, ◌^◌, ◌↔◌, true, IsTrue, IfSome};
ghost use Rattle.std.specs.List.{All};
ghost use Rattle.dfu_formats.specs.memory.Ranges.{IsRange, end_of_range, are_apart};
ghost use Rattle.dfu_formats.specs.memory.Lookups.{range_has, range_at, page_at, page_in, end_of_page, AllGranted};

use crate::memory::pages::{Access, Page, Pages};
use crate::memory::ranges::end_of;

/// Returns true if range `pages` contains `address`.
fn has(address: u64, pages: &Pages) -> bool
    requires { IsRange pages.now }
    ensures { result ≡ range_has address pages.now }
{
    pages.start as u64 <= address && address < end_of(pages)
}

/// Returns the range that contains `address`, or None if none contains it.
#[tactic(auto, unfolding(crate::specs::memory::Lookups::range_at))]
pub(crate) fn range_at(address: u64, ranges: &[Pages]) -> Option<Pages>
    requires { All IsRange ranges.now }
    ensures value { result ≡ range_at address ranges.now }
    ensures sound { IfSome result (λ p. IsRange p × (p.start ≤ address) × (address < end_of_range p)) }
{
    for pages in ranges {
        if has(address, pages) {
            return Some(*pages);
        }
    }
    None
}

/// Returns the page of range `pages` that contains `address`. The range must contain the address.
fn page_in(address: u64, pages: &Pages) -> Page
    requires range { IsRange pages.now }
    requires from { pages.now.start ≤ address }
    requires to { address < end_of_range pages.now }
    ensures value { result ≡ page_in address pages.now }
    ensures from { result.start ≤ address }
    ensures to { address < end_of_page result }
    ensures within { end_of_page result ≤ end_of_range pages.now }
{
    let start = pages.start as u64;
    let number = (address - start) / pages.size;
    Page {
        start: (start + number * pages.size) as u32,
        size: pages.size,
        access: pages.access,
    }
}

/// Returns the page that contains `address`, or None if no range contains it.
pub(crate) fn page_at(address: u64, ranges: &[Pages]) -> Option<Page>
    requires { All IsRange ranges.now }
    ensures value { result ≡ page_at address ranges.now }
    ensures has { IfSome result (λ p. (p.start ≤ address) × (address < end_of_page p) × (end_of_page p ≤ 2 ^ 32)) }
{
    match range_at(address, ranges) {
        Some(pages) => Some(page_in(address, &pages)),
        None => None,
    }
}

/// Returns true if each address from `start` to before `end` is in a range that grants `wanted`.
pub(crate) fn all_granted(wanted: Access, start: u64, end: u64, ranges: &[Pages]) -> bool
    requires sound { All IsRange ranges.now }
    requires apart { are_apart ranges.now ≡ true }
    ensures { IsTrue result ↔ AllGranted wanted start end ranges.now }
{
    let mut at = start;
    while at < end {
        match range_at(at, ranges) {
            Some(pages) if pages.access.grants(wanted) => at = end_of(&pages),
            _ => return false,
        }
    }
    true
}
