//! Parts of the form of a line.

use crate::json::name::Name;

/// Kind of a word, which determines the form of the word's value in an object.
#[derive(Clone, Copy)]
pub(crate) enum WordKind {
    /// A decimal number. Its value in the object is a number.
    Number,
    /// `yes` or `no`. Its value in the object is `true` or `false`.
    Flag,
    /// Any word. Its value in the object is a string.
    Word,
    /// Any word. Its value in the object is an inner object with one member, which has this name, and the word as its string. A later part
    /// closes the inner object.
    Inner(Name),
}

/// Part of a form. Most parts consume words of a line and add a member to the object.
#[derive(Clone, Copy)]
pub(crate) enum LinePart {
    /// The text of the second name. It becomes the string of the member with the first name.
    Says(Name, Name),
    /// A word, which becomes the value of the member with this name.
    Value(Name, WordKind),
    /// The text of this name, and the next word, which becomes the value of the member with this name.
    Pair(Name, WordKind),
    /// The text of the first name, and all words after it up to ` events ` or the end of the line. These words become the array of the
    /// member with the second name.
    List(Name, Name),
    /// All remaining words, which become the array of the member with this name. This part closes the inner object.
    Rest(Name),
    /// No word. The member with this name has an empty array as its value.
    Without(Name),
    /// No word and no member.
    Blank,
}
