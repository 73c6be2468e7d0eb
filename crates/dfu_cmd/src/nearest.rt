//! Names of the parts in a table, and the name most similar to a given one.

use dfu_plan::row_in;
use std::alloc::{AllocError, Global};

/// Likeness to a word that a name must exceed to be similar to the word.
const LEAST_LIKENESS: usize = 3;

/// Names of the parts in a table, and the one most similar to a given word.
#[derive(Drop)]
pub(crate) struct KnownParts<'t> {
    /// All names, separated by commas.
    pub names: String,
    /// The name most similar to the word; empty if none is similar.
    pub nearest: &'t str,
    likeness: usize,
    last: &'t str,
}

/// Returns the number of leading bytes that two words share, ignoring case.
fn shared_prefix_length(one: &str, other: &str) -> usize {
    let one = one.as_bytes();
    let other = other.as_bytes();
    let most = one.len().min(other.len());
    for at in 0..most {
        if !one[at].eq_ignore_ascii_case(&other[at]) {
            return at;
        }
    }
    most
}

/// Returns the likeness of a name to a word, which is the number of shared leading bytes. The likeness is maximal if the name contains the
/// word and the word has at least three bytes, such as `f407`.
fn likeness(name: &str, word: &str) -> usize {
    if word.len() >= 3 && name.contains(word) {
        return usize::MAX;
    }
    shared_prefix_length(name, word)
}

impl<'t> KnownParts<'t> {
    /// Adds a name, unless it equals the previous one. Keeps it as the nearest name if it is more similar to `word` than all earlier names.
    fn take(&mut self, name: &'t str, word: &str) -> Result<(), AllocError> {
        if name == self.last {
            return Ok(());
        }
        if !self.names.is_empty() {
            self.names.push_str(", ")?;
        }
        self.names.push_str(name)?;
        self.last = name;
        let likeness = likeness(name, word);
        if likeness > self.likeness {
            self.likeness = likeness;
            self.nearest = name;
        }
        Ok(())
    }
}

/// Returns the names on the valid lines of a table of parts, and the one most similar to `word`.
pub(crate) fn known_parts_in<'t>(
    alloc: Global,
    table: &'t [u8],
    word: &str,
) -> Result<KnownParts<'t>, AllocError> {
    let mut known = KnownParts {
        names: String::new(alloc),
        nearest: "",
        likeness: LEAST_LIKENESS,
        last: "",
    };
    for line in table.split(|byte| *byte == b'\n') {
        if let Ok(Some(row)) = row_in(line) {
            known.take(std::str::from_utf8(row.name).unwrap_or(""), word)?;
        }
    }
    Ok(known)
}
