//! Elements of an image.

ghost use Rattle.std.specs.Prelude.{◌≡◌, ◌+◌, ◌≤◌, ◌^◌, length};
ghost use Rattle.dfu_formats.specs.images.Elements.{end_of_piece};

use std::marker::Model;

/// Consecutive bytes, and the address of the first one. There is at least one byte, and the last one has a 32-bit address.
#[derive(Drop)]
pub struct Element {
    address: u32,
    bytes: Vec<u8>,
}

impl Model for Element {
    ghost use Rattle.std.specs.Prelude.{◌+◌, ◌≤◌, ◌^◌, length};
    ghost use Rattle.dfu_formats.specs.images.Elements.{Piece};

    ghost Value = { Piece };

    ghost view = { λ e. record { address = e.address; bytes = e.bytes.items } };

    ghost invariant = { λ e. (1 ≤ length e.bytes.items) × (e.address + length e.bytes.items ≤ 2 ^ 32) };
}

impl Element {
    /// Returns the element of `bytes` at `address`. There must be at least one byte, and the element must end at or before 2^32.
    pub(crate) fn new(address: u64, bytes: Vec<u8>) -> Element
        requires some { 1 ≤ length bytes.items }
        requires ends { address + length bytes.items ≤ 2 ^ 32 }
        ensures { result ≡ record { address = address; bytes = bytes.items } }
    {
        Element {
            address: address as u32,
            bytes,
        }
    }

    /// Returns the address of the first byte.
    pub fn address(&self) -> u32
        ensures { result ≡ self.now.address }
    {
        self.address
    }

    /// Returns the bytes of the element.
    pub fn bytes(&self) -> &[u8]
        ensures { result.now ≡ self.now.bytes }
    {
        &self.bytes
    }

    /// Returns the address after the last byte, at most 2^32.
    pub fn end(&self) -> u64
        ensures value { result ≡ end_of_piece self.now }
        ensures at_most_4_gib { result ≤ 2 ^ 32 }
    {
        self.address as u64 + self.bytes.len() as u64
    }
}
