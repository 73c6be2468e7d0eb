//! The elements of a target.

ghost use Rattle.std.specs.Prelude.{◌≡◌, ◌==◌, if◌then◌else◌, [], ◌∷◌, length, MatchOption, Ok, Err};
ghost use Rattle.dfu_formats.specs.dfuse.Reading.{front_element, elements_at};
ghost use Rattle.dfu_formats.specs.dfuse.Found.{piece_of, fault_of_result};

use crate::dfuse::element::Element;
use crate::dfuse::fault::FileFault;
use crate::dfuse::numbers::number_at;
use std::marker::Model;

/// An element and the bytes after it.
#[derive(Drop)]
struct ElementAndRest<'f> {
    element: Element<'f>,
    rest: &'f [u8],
}

impl<'f> Model for ElementAndRest<'f> {
    ghost use Rattle.dfu_formats.specs.dfuse.Reading as reading;
    ghost use Rattle.dfu_formats.specs.dfuse.Found.{piece_of};

    ghost Value = { reading.SplitElement };

    ghost view = { λ s. record { element = piece_of s.element; rest = s.rest.now } };
}

/// Splits an element off the front of `bytes`, or returns the fault of this element.
#[tactic(auto, using(std::proofs::lemmas::Bool::Decides::nat_tests), unfolding(crate::specs::dfuse::Reading::front_element))]
fn take_element(bytes: &[u8]) -> Result<ElementAndRest<'_>, FileFault>
    ensures { result ≡ front_element bytes.now }
{
    if bytes.len() < 8 {
        return Err(FileFault::ElementPastTheTarget);
    }
    let address = number_at(0, bytes);
    let size = number_at(4, bytes);
    let (_, behind) = bytes.split_at(8);
    if behind.len() < size as usize {
        return Err(FileFault::ElementPastTheTarget);
    }
    if size == 0 {
        return Err(FileFault::EmptyElement);
    }
    if address as u64 + size as u64 > 0x1_0000_0000 {
        return Err(FileFault::AddressPastTheEnd);
    }
    let (content, rest) = behind.split_at(size as usize);
    Ok(ElementAndRest {
        element: Element {
            address,
            bytes: content,
        },
        rest,
    })
}

/// Checks that `rest` is empty.
///
/// # Errors
///
/// `fault` if `rest` has a byte.
pub(crate) fn check_end(rest: &[u8], fault: FileFault) -> Result<(), FileFault>
    ensures { result ≡ (if length rest.now == 0 then Ok tt else Err fault) }
{
    if rest.is_empty() { Ok(()) } else { Err(fault) }
}

/// Checks that `bytes` are the encoding of `count` elements, and nothing more.
pub(crate) fn check_elements(count: u32, bytes: &[u8]) -> Result<(), FileFault>
    ensures { result ≡ fault_of_result (elements_at count bytes.now) }
{
    let mut rest = bytes;
    for _ in 0..count {
        match take_element(rest) {
            Ok(split) => rest = split.rest,
            Err(fault) => return Err(fault),
        }
    }
    check_end(rest, FileFault::BadTargetSize)
}

/// Iterator over the elements of a target, in the order of the file.
#[derive(Drop)]
pub struct Elements<'f> {
    left: u32,
    rest: &'f [u8],
}

impl<'f> Model for Elements<'f> {
    ghost use Rattle.std.specs.Prelude.{◌≡◌, List, Ok};
    ghost use Rattle.dfu_formats.specs.images.Elements.{Piece};
    ghost use Rattle.dfu_formats.specs.dfuse.Reading.{elements_at};
    ghost use Rattle.dfu_formats.specs.dfuse.Found.{list_or_empty};

    ghost Value = { List Piece };

    ghost view = { λ e. list_or_empty (elements_at e.left e.rest.now) };

    ghost invariant = { λ e. elements_at e.left e.rest.now ≡ Ok (list_or_empty (elements_at e.left e.rest.now)) };
}

impl<'f> Elements<'f> {
    ghost use Rattle.dfu_formats.specs.dfuse.Found.{list_or_empty};

    /// Returns an iterator over the next `left` elements of `rest`, which `check_elements` must have accepted.
    pub(crate) fn new(left: u32, rest: &'f [u8]) -> Elements<'f>
        requires { elements_at left rest.now ≡ Ok (list_or_empty (elements_at left rest.now)) }
        ensures { result ≡ list_or_empty (elements_at left rest.now) }
    {
        Elements { left, rest }
    }

    /// Returns the number of elements that are left.
    pub fn len(&self) -> u32
        ensures { result ≡ length self.now }
    {
        self.left
    }

    /// Removes and returns the first element. Returns None if no element is left.
    pub fn next_element(&mut self) -> Option<Element<'f>>
        ensures { MatchOption result ((self.old ≡ []) × (self.new ≡ [])) (λ e. self.old ≡ piece_of e ∷ self.new) }
    {
        if self.left == 0 {
            return None;
        }
        match take_element(self.rest) {
            Ok(split) => {
                self.left -= 1;
                self.rest = split.rest;
                Some(split.element)
            }
            Err(_) => None,
        }
    }
}
