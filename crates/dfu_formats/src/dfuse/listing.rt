//! Lists of elements for a session.

ghost use Rattle.std.specs.Prelude.{◌≡◌, ◌+◌, ◌<◌, ◌≤◌, ◌++◌, length, take, map, MatchOption};
ghost use Rattle.dfu_formats.specs.dfuse.Found.{piece_of};
ghost use Rattle.dfu_formats.specs.dfuse.Images.{ElementsListedBehind};

use crate::dfuse::element::Element;
use crate::dfuse::elements::Elements;

/// Writes elements to `room`, after the first `from` slots. Returns the number of slots in use after that, or None if the elements don't
/// fit.
pub(crate) fn put<'f>(
    elements: Elements<'f>,
    from: usize,
    room: &mut [Element<'f>],
) -> Option<usize>
    requires { from ≤ length room.old }
    ensures size { length room.new ≡ length room.old }
    ensures listed { ElementsListedBehind from elements.entry room.old result room.new }
{
    let mut left = elements;
    let mut count = from;
    while let Some(element) = left.next_element() {
        if count == room.len() {
            return None;
        }
        room[count] = element;
        count += 1;
    }
    Some(count)
}

/// Writes elements that `dfu_formats::images` has read to the front of `room`, in their order. Returns their number, or None if they don't
/// fit. The elements of one file are sorted by address, as a session needs them.
pub fn list<'p>(pieces: &'p [crate::images::Element], room: &mut [Element<'p>]) -> Option<usize>
    ensures size { length room.new ≡ length room.old }
    ensures listed { ElementsListedBehind 0 pieces.now room.old result room.new }
{
    if pieces.len() > room.len() {
        return None;
    }
    let mut count: usize = 0;
    while count < pieces.len() {
        let piece = &pieces[count];
        room[count] = Element {
            address: piece.address(),
            bytes: piece.bytes(),
        };
        count += 1;
    }
    Some(count)
}
