//! Elements that are gathered from the records of a file.

ghost use Rattle.std.specs.Prelude.{◌≡◌, ◌+◌, ◌≤◌, ◌<◌, ◌^◌, length, IfOk, Ok, Err};
ghost use Rattle.dfu_formats.specs.images.Reading.{IsReadResult};
ghost use Rattle.dfu_formats.specs.images.Elements.{empty_gathering, element_place, elements_with_inserted, completed_elements, element_begun, element_grown, bytes_added, shared_address, gathered_elements, AreApart, IsElementResult};

use crate::images::element::Element;
use crate::images::fault::ImageFault;
use crate::images::limits::{MAX_ELEMENTS, MAX_IMAGE};
use std::alloc::Global;
use std::marker::Model;

/// Complete elements, sorted by address, and the element to which records still append.
#[derive(Drop)]
pub(crate) struct Gathering {
    complete: Vec<Element>,
    address: u64,
    bytes: Vec<u8>,
    total: usize,
}

impl Model for Gathering {
    ghost use Rattle.std.specs.Prelude.{◌+◌, ◌≤◌, ◌^◌, length};
    ghost use Rattle.dfu_formats.specs.images.Elements as elements;

    ghost Value = { elements.Gathering };

    ghost view = { λ g. record {
      complete = g.complete.items;
      growing = record { address = g.address; bytes = g.bytes.items };
      total = g.total;
    } };

    ghost invariant = { λ g. (g.total ≤ 16777216) × (g.address + length g.bytes.items ≤ 2 ^ 32) };
}

/// Returns the number of leading `elements` that begin at or before `address`.
fn place_of(address: u32, elements: &[Element]) -> usize
    ensures value { result ≡ element_place address elements.now }
    ensures within { result ≤ length elements.now }
{
    let mut count: usize = 0;
    for element in elements {
        if address < element.address() {
            return count;
        }
        count += 1;
    }
    count
}

/// Inserts `element` into `elements`, after those with the same or a lower address.
fn insert_element(mut elements: Vec<Element>, element: Element) -> Result<Vec<Element>, ImageFault>
    ensures { IsElementResult result (Ok (elements_with_inserted element elements.items)) }
{
    let place = place_of(element.address(), &elements);
    match elements.insert(place, element) {
        Ok(()) => Ok(elements),
        Err(_) => Err(ImageFault::NoMemory),
    }
}

/// Inserts the element of `bytes` at `address` into `elements`, unless `bytes` is empty.
#[tactic(auto, using(std::proofs::lemmas::Bool::Decides::nat_tests), unfolding(crate::specs::images::Elements::completed_elements))]
fn insert_grown(
    elements: Vec<Element>,
    address: u64,
    bytes: Vec<u8>,
) -> Result<Vec<Element>, ImageFault>
    requires { address + length bytes.items ≤ 2 ^ 32 }
    ensures { IsElementResult result (Ok (completed_elements elements.items (record { address = address; bytes = bytes.items }))) }
{
    if bytes.len() == 0 {
        return Ok(elements);
    }
    insert_element(elements, Element::new(address, bytes))
}

/// Begins an element with `bytes` at `address`, unless 1,024 elements or more are `complete`.
#[tactic(auto, using(std::proofs::lemmas::Bool::Decides::nat_tests), unfolding(crate::specs::images::Elements::element_begun))]
fn begin_element(
    alloc: Global,
    at: usize,
    total: usize,
    complete: Vec<Element>,
    address: u64,
    bytes: &[u8],
) -> Result<Gathering, ImageFault>
    requires ends { address + length bytes.now ≤ 2 ^ 32 }
    requires few { total ≤ 16777216 }
    ensures { IsReadResult result (element_begun at total complete.items (record { address = address; bytes = bytes.now })) }
{
    if complete.len() >= MAX_ELEMENTS {
        return Err(ImageFault::TooManyElements(at));
    }
    match Vec::from_slice(alloc, bytes) {
        Ok(bytes) => Ok(Gathering {
            complete,
            address,
            bytes,
            total,
        }),
        Err(_) => Err(ImageFault::NoMemory),
    }
}

/// Returns the address of the first element that begins before the end of its predecessor, or None if there is none.
#[tactic(auto, unfolding(crate::specs::images::Elements::shared_address))]
fn shared(elements: &[Element]) -> Option<u32>
    ensures { result ≡ shared_address 0 elements.now }
{
    let mut end: u64 = 0;
    for element in elements {
        if (element.address() as u64) < end {
            return Some(element.address());
        }
        end = element.end();
    }
    None
}

impl Gathering {
    /// Returns a gathering without elements.
    pub(crate) fn new(alloc: Global) -> Gathering
        ensures { result ≡ empty_gathering }
    {
        Gathering {
            complete: Vec::new(alloc),
            address: 0,
            bytes: Vec::new(alloc),
            total: 0,
        }
    }

    /// Appends `bytes` to the growing element if they begin at its end. Otherwise completes it and begins another at `address`.
    #[tactic(auto, using(std::proofs::lemmas::Bool::Decides::nat_tests), unfolding(crate::specs::images::Elements::element_grown))]
    fn grow(
        self,
        alloc: Global,
        at: usize,
        address: u64,
        bytes: &[u8],
    ) -> Result<Gathering, ImageFault>
        requires ends { address + length bytes.now ≤ 2 ^ 32 }
        requires few { self.total + length bytes.now ≤ 16777216 }
        ensures { IsReadResult result (element_grown at self (record { address = address; bytes = bytes.now })) }
    {
        let Gathering {
            complete,
            address: from,
            bytes: mut growing,
            total,
        } = self;
        let total = total + bytes.len();
        if from + growing.len() as u64 == address {
            return match growing.extend_from_slice(bytes) {
                Ok(()) => Ok(Gathering {
                    complete,
                    address: from,
                    bytes: growing,
                    total,
                }),
                Err(_) => Err(ImageFault::NoMemory),
            };
        }
        match insert_grown(complete, from, growing) {
            Ok(complete) => begin_element(alloc, at, total, complete, address, bytes),
            Err(fault) => Err(fault),
        }
    }

    /// Adds `bytes`, if there are any, at `address`. TooLarge and TooManyElements contain `at`, the number of the line, block or segment
    /// with the bytes.
    #[tactic(auto, using(std::proofs::lemmas::Bool::Decides::nat_tests), unfolding(crate::specs::images::Elements::bytes_added))]
    pub(crate) fn add(
        self,
        alloc: Global,
        at: usize,
        address: u64,
        bytes: &[u8],
    ) -> Result<Gathering, ImageFault>
        requires { address + length bytes.now ≤ 2 ^ 32 }
        ensures { IsReadResult result (bytes_added at self (record { address = address; bytes = bytes.now })) }
    {
        if bytes.len() == 0 {
            return Ok(self);
        }
        if bytes.len() > MAX_IMAGE - self.total {
            return Err(ImageFault::TooLarge(at));
        }
        self.grow(alloc, at, address, bytes)
    }

    /// Completes the growing element, and returns all elements.
    ///
    /// # Errors
    ///
    /// Overlaps, with the address of the first element that begins before the end of its predecessor; NoMemory if an allocation was
    /// refused.
    #[tactic(auto, using(std::proofs::lemmas::Bool::Decides::nat_tests), unfolding(crate::specs::images::Elements::gathered_elements))]
    pub(crate) fn finish(self) -> Result<Vec<Element>, ImageFault>
        ensures value { IsElementResult result (gathered_elements self) }
        ensures apart { IfOk result (λ v. AreApart 0 v.items) }
    {
        let Gathering {
            complete,
            address,
            bytes,
            ..
        } = self;
        let elements = match insert_grown(complete, address, bytes) {
            Ok(elements) => elements,
            Err(fault) => return Err(fault),
        };
        match shared(&elements) {
            Some(address) => Err(ImageFault::Overlaps(address)),
            None => Ok(elements),
        }
    }
}
