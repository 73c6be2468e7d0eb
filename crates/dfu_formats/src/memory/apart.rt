//! Test for ranges that share no address.

ghost use Rattle.std.specs.Prelude.{◌≡◌};
ghost use Rattle.std.specs.List.{All};
ghost use Rattle.dfu_formats.specs.memory.Ranges.{IsRange, ranges_are_apart, is_apart_from, are_apart};

use crate::memory::pages::Pages;
use crate::memory::ranges::end_of;

/// Returns true if `one` and `other` share no address.
fn is_apart(one: &Pages, other: &Pages) -> bool
    requires one { IsRange one.now }
    requires other { IsRange other.now }
    ensures { result ≡ ranges_are_apart one.now other.now }
{
    end_of(one) <= other.start as u64 || end_of(other) <= one.start as u64
}

/// Returns true if `one` shares no address with any of `others`.
fn is_apart_from(one: &Pages, others: &[Pages]) -> bool
    requires one { IsRange one.now }
    requires others { All IsRange others.now }
    ensures { result ≡ is_apart_from one.now others.now }
{
    for other in others {
        if !is_apart(one, other) {
            return false;
        }
    }
    true
}

/// Returns true if no two of `ranges` share an address.
pub(crate) fn are_apart(ranges: &[Pages]) -> bool
    requires { All IsRange ranges.now }
    ensures { result ≡ are_apart ranges.now }
{
    let mut count = 0;
    for one in ranges {
        count += 1;
        let (_, others) = ranges.split_at(count);
        if !is_apart_from(one, others) {
            return false;
        }
    }
    true
}
