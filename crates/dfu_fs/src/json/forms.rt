//! Forms of the printed lines.

use crate::json::name::Name;
use crate::json::part::LinePart;
use crate::json::part::LinePart::{Blank, List, Pair, Rest, Says, Value, Without};
use crate::json::part::WordKind::{Flag, Inner, Number, Word};

/// Forms of the printed lines, in the order in which they are tried.
#[rattlefmt::skip]
pub(crate) static FORMS: [[LinePart; 8]; 15] = [
    // Form of the line of `dfu check`.
    [Says(Name::Verdict, Name::Ok), Pair(Name::Payload, Number), Pair(Name::Suffix, Number), Pair(Name::Device, Word),
        Pair(Name::Product, Word), Pair(Name::Vendor, Word), Pair(Name::Dfu, Word), Pair(Name::Crc, Word)],
    // Forms that the lines of all three commands may have.
    [Says(Name::Verdict, Name::Refused), Value(Name::Why, Word), Blank, Blank, Blank, Blank, Blank, Blank],
    [Says(Name::Verdict, Name::Refused), Value(Name::Why, Word), Value(Name::Line, Number), Blank, Blank, Blank, Blank, Blank],
    [Says(Name::Verdict, Name::Fault), Value(Name::Why, Word), Blank, Blank, Blank, Blank, Blank, Blank],
    // Forms of the lines of `dfu show`.
    [Says(Name::Show, Name::Functional), Pair(Name::Download, Flag), Pair(Name::Upload, Flag), Pair(Name::Tolerant, Flag),
        Pair(Name::WillDetach, Flag), Pair(Name::Detach, Number), Pair(Name::Transfer, Number), Pair(Name::Version, Word)],
    [Says(Name::Show, Name::Status), Value(Name::Status, Word), Pair(Name::Poll, Number), Pair(Name::State, Word),
        Pair(Name::String, Number), Blank, Blank, Blank],
    [Says(Name::Show, Name::State), Value(Name::State, Word), Blank, Blank, Blank, Blank, Blank, Blank],
    [Says(Name::Show, Name::Setup), Value(Name::Request, Word), Pair(Name::Kind, Word), Pair(Name::Number, Word),
        Pair(Name::Value, Number), Pair(Name::Index, Number), Pair(Name::Length, Number), Blank],
    [Says(Name::Show, Name::Configuration), Value(Name::Value, Number), Blank, Blank, Blank, Blank, Blank, Blank],
    [Says(Name::Show, Name::Interface), Value(Name::Number, Number), Pair(Name::Alternate, Number), Pair(Name::Mode, Word),
        Pair(Name::String, Number), Blank, Blank, Blank],
    // Forms of the lines of `dfu judge`.
    [Pair(Name::Departs, Number), Value(Name::Request, Word), List(Name::In, Name::States), Blank, Blank, Blank, Blank, Blank],
    [Pair(Name::Allowed, Inner(Name::State)), Value(Name::Request, Word), Value(Name::Answer, Word), Value(Name::Next, Word),
        Value(Name::Source, Word), Rest(Name::For), Blank, Blank],
    [Says(Name::Verdict, Name::Kept), List(Name::By, Name::Habits), Pair(Name::Events, Number), Pair(Name::Single, Number),
        List(Name::States, Name::States), Blank, Blank, Blank],
    [Says(Name::Verdict, Name::Kept), Without(Name::Habits), Pair(Name::Events, Number), Pair(Name::Single, Number),
        List(Name::States, Name::States), Blank, Blank, Blank],
    [Says(Name::Verdict, Name::NotKept), Pair(Name::Events, Number), Pair(Name::Single, Number), Blank, Blank, Blank, Blank, Blank],
];
