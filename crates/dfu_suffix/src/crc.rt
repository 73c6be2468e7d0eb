//! The CRC register of USB DFU 1.1, appendix B, eight bytes at a time.

ghost use Rattle.std.specs.Prelude.{◌≡◌, ℕ, List, ◌++◌, ◌<◌, [], length, slice_index, slice_index_or, bit_and};

use crate::table::TABLES;
use crate::{folding, small};
use byteorder::{ByteOrder, LittleEndian};
use std::marker::Model;

/// The CRC register over the bytes so far: reflected CRC-32 with the polynomial EDB88320h and the start value FFFFFFFFh, without a final
/// complement. Its complement is the usual CRC-32.
#[derive(Clone, Copy)]
pub struct Crc {
    register: u32,
}

impl Model for Crc {
    ghost Value = { ℕ };

    ghost view = { λ c. c.register };

    ghost inverse = { λ v. record { register = v } };
}

impl Crc {
    ghost use Rattle.dfu_suffix.specs.Register.{after_bits, bits_of, register};

    /// Returns the register over no bytes, FFFFFFFFh.
    pub fn new() -> Self
        ensures { result ≡ register [] }
    {
        Crc {
            register: 0xffff_ffff,
        }
    }

    /// Adds bytes to the register, after those that were added before. A program that calls `update` links 8,192 bytes of tables, which
    /// `update_small` doesn't need.
    pub fn update(&mut self, bytes: &[u8])
        ensures bits { self.new ≡ after_bits self.old (bits_of bytes.now) }
        ensures more { (before : List ℕ) → self.old ≡ register before → self.new ≡ register (before ++ bytes.now) }
    {
        *self = Crc {
            register: after_bytes(self.register, bytes),
        };
    }

    /// Adds bytes like `update`, in about half as many instructions for 65,536 bytes. 4,096 bytes or more are folded first, which needs
    /// 6,064 bytes of stack.
    pub fn update_long(&mut self, bytes: &[u8])
        ensures bits { self.new ≡ after_bits self.old (bits_of bytes.now) }
        ensures more { (before : List ℕ) → self.old ≡ register before → self.new ≡ register (before ++ bytes.now) }
    {
        *self = Crc {
            register: folding::after_bytes(self.register, bytes),
        };
    }

    /// Adds bytes like `update`, with a table of 64 bytes, in over four times as many instructions. It is meant for devices without room
    /// for the large tables, which are only left out of a program that never calls `update` or `update_long`.
    pub fn update_small(&mut self, bytes: &[u8])
        ensures bits { self.new ≡ after_bits self.old (bits_of bytes.now) }
        ensures more { (before : List ℕ) → self.old ≡ register before → self.new ≡ register (before ++ bytes.now) }
    {
        *self = Crc {
            register: small::after_bytes(self.register, bytes),
        };
    }

    /// Returns the register over the bytes so far. For all bytes of a file before its dwCRC, this is the dwCRC.
    pub fn value(&self) -> u32
        ensures { result ≡ self.now }
    {
        self.register
    }
}

ghost use Rattle.byteorder.specs.Endian.{little_number};
ghost use Rattle.dfu_suffix.specs.Register.{after_bits, bits_of, low_bits, shifts};
ghost use Rattle.dfu_suffix.specs.declared.table.TheConstants.{TABLES};

// Returns the table at index `place`. Only this function names all tables, because proofs about code that names them are slow.
#[inline(always)]
fn table(place: usize) -> &'static [u32; 256]
    requires { place < 8 }
    ensures { result.now ≡ slice_index_or TABLES place [] }
{
    &TABLES[place]
}

// Returns the table's entry for the low byte of a number.
#[inline(always)]
fn entry(table: &[u32; 256], number: u32) -> u32
    ensures { result ≡ slice_index table.now (bit_and number 255) }
{
    table[(number & 0xff) as usize]
}

// Returns the register after one more byte.
#[inline(always)]
fn after_byte(register: u32, byte: u8) -> u32
    ensures { result ≡ after_bits register (low_bits 8 byte) }
{
    (register >> 8) ^ entry(table(7), register ^ u32::from(byte))
}

// Returns the table's entry for a byte.
#[inline(always)]
fn byte_entry(table: &[u32; 256], byte: u8) -> u32
    ensures { result ≡ slice_index table.now byte }
{
    table[usize::from(byte)]
}

// Returns the CRC shift of a four-byte number by 32 bits.
#[inline(always)]
fn after_32_zeros(bytes: &[u8]) -> u32
    requires { length bytes.now ≡ 4 }
    ensures { result ≡ shifts 32 (little_number 4 bytes.now) }
{
    byte_entry(table(4), bytes[0])
        ^ byte_entry(table(5), bytes[1])
        ^ byte_entry(table(6), bytes[2])
        ^ byte_entry(table(7), bytes[3])
}

// Returns the CRC shift of a number by 64 bits.
#[inline(always)]
fn after_64_zeros(number: u32) -> u32
    ensures { result ≡ shifts 64 number }
{
    entry(table(0), number)
        ^ entry(table(1), number >> 8)
        ^ entry(table(2), number >> 16)
        ^ entry(table(3), number >> 24)
}

// Returns the register after eight more bytes. The first four are combined with the register as one number. The other four are loaded one
// by one, because this takes fewer instructions than splitting a word into bytes.
#[inline(always)]
fn after_eight(register: u32, bytes: &[u8]) -> u32
    requires { length bytes.now ≡ 8 }
    ensures { result ≡ after_bits register (bits_of bytes.now) }
{
    let (first, second) = bytes.split_at(4);
    after_32_zeros(second) ^ after_64_zeros(register ^ LittleEndian::read_u32(first))
}

// Returns the register after more bytes, one at a time.
#[inline(always)]
fn after_each(start: u32, bytes: &[u8]) -> u32
    ensures { result ≡ after_bits start (bits_of bytes.now) }
{
    let mut register = start;
    for byte in bytes {
        register = after_byte(register, *byte);
    }
    register
}

// Returns the register after sixteen more bytes.
#[inline(always)]
fn after_sixteen(register: u32, bytes: &[u8]) -> u32
    requires { length bytes.now ≡ 16 }
    ensures { result ≡ after_bits register (bits_of bytes.now) }
{
    let (first, second) = bytes.split_at(8);
    after_eight(after_eight(register, first), second)
}

// Returns the register after more bytes. The first eight are processed at once, if there are as many, and the others one by one.
fn after_few(register: u32, bytes: &[u8]) -> u32
    ensures { result ≡ after_bits register (bits_of bytes.now) }
{
    match bytes.split_first_chunk::<8>() {
        Some((eight, more)) => after_each(after_eight(register, eight), more),
        None => after_each(register, bytes),
    }
}

/// Returns the register `start` after `bytes`, sixteen at a time, because this halves the number of loop iterations.
pub(crate) fn after_bytes(start: u32, bytes: &[u8]) -> u32
    ensures { result ≡ after_bits start (bits_of bytes.now) }
{
    let mut register = start;
    let mut rest = bytes;
    while let Some((front, more)) = rest.split_first_chunk::<16>() {
        register = after_sixteen(register, front);
        rest = more;
    }
    after_few(register, rest)
}
