//! Faults for which a string is refused.

use std::fmt;
use thiserror::Error;

/// Faults of a string that isn't a memory map. The string is read from the front, and its first fault is returned; Overlaps is checked once
/// all ranges are read.
#[derive(Clone, Copy, Error)]
pub enum MapFault {
    /// The string doesn't begin with `@`, or has no `/` after the name.
    NoMap,
    /// After a `/` there is no address of one to eight hexadecimal digits, with or without `0x`, followed by another `/`.
    BadAddress,
    /// A range lacks a count of one to five digits, from 1 on, and a `*`.
    BadCount,
    /// A range lacks a size of one to five digits, from 1 on.
    BadSize,
    /// After the size and its unit there is no letter from `a` to `g`.
    BadType,
    /// The pages of a range end past address FFFFFFFFh.
    PastTheEnd,
    /// The map has over 32 ranges.
    TooManyRanges,
    /// After a range there is neither the end of the string, nor `,`, nor `/`.
    Trailing,
    /// Two ranges share an address.
    Overlaps,
}

impl fmt::Debug for MapFault {
    fn fmt<W: fmt::Write>(&self, f: &mut fmt::Formatter<W>) -> fmt::Result {
        #[rattlefmt::skip]
        static NAMES: [&str; 9] = [
            "NoMap", "BadAddress", "BadCount", "BadSize", "BadType", "PastTheEnd", "TooManyRanges", "Trailing",
            "Overlaps",
        ];
        f.write_str(NAMES[*self as usize])
    }
}

/// Text of each fault, in the order of the enum.
static TEXTS: [&str; 9] = [
    "the string has no memory map",
    "the memory map has a bad address",
    "the memory map has a bad count of pages",
    "the memory map has a bad page size",
    "the memory map has a bad letter for what may be done with pages",
    "the memory map has pages behind address FFFFFFFF",
    "the memory map has over 32 ranges",
    "the memory map has bytes behind its last range",
    "two ranges of the memory map overlap",
];

impl fmt::Display for MapFault {
    fn fmt<W: fmt::Write>(&self, f: &mut fmt::Formatter<W>) -> fmt::Result {
        f.write_str(TEXTS[*self as usize])
    }
}
