//! Words of a line. A single space separates two words, and the line neither begins nor ends with a space.

ghost use Rattle.std.specs.Prelude.{◌≡◌, ◌≤◌, codes, length, nat_eq, None, Some, MatchOption};
ghost use Rattle.std.specs.List.{position, position_or_len, starts_with};
ghost use Rattle.dfu_fs.specs.Parts.{is_space, list_length, rest_after, word_in};

/// Text that ends a list before the end of a line.
const EVENTS: &[u8] = b" events ";

/// Returns the index of the first space of `line`, or None if there is none.
fn first_space(line: &[u8]) -> Option<usize>
    ensures { result ≡ position is_space line.now }
{
    line.iter().position(|byte| *byte == b' ')
}

/// Returns the length of the first word of `line` in bytes.
fn word_length(line: &[u8]) -> usize
    ensures value { result ≡ position_or_len is_space line.now }
    ensures within { result ≤ length line.now }
{
    match first_space(line) {
        Some(at) => at,
        None => line.len(),
    }
}

/// Returns the first word of `line` and the words after it. Returns None if the first word is empty, or if the line ends with the space
/// after it.
pub(crate) fn word_in(line: &[u8]) -> Option<(&[u8], &[u8])>
    ensures { MatchOption result (word_in line.now ≡ None) (λ w. word_in line.now ≡ Some (w.0.now, w.1.now)) }
{
    let length = word_length(line);
    if length == 0 || line.len() - length == 1 {
        return None;
    }
    let (word, behind) = line.split_at(length);
    if behind.is_empty() {
        return Some((word, behind));
    }
    let (_, rest) = line.split_at(length + 1);
    Some((word, rest))
}

/// Returns the words of `line` after `text`. Returns None if `line` doesn't begin with `text`, or if the text isn't followed by the end of
/// a word.
#[tactic(auto, unfolding(crate::specs::Parts::after_word))]
pub(crate) fn rest_after<'l>(line: &'l [u8], text: &str) -> Option<&'l [u8]>
    ensures { MatchOption result (rest_after line.now text.now ≡ None) (λ r. rest_after line.now text.now ≡ Some r.now) }
{
    if !line.starts_with(text.as_bytes()) {
        return None;
    }
    let (_, behind) = line.split_at(text.len());
    if behind.is_empty() {
        return Some(behind);
    }
    if behind[0] != b' ' || behind.len() == 1 {
        return None;
    }
    Some(&behind[1..])
}

/// Returns the length in bytes of the list at the beginning of `line`, which ends before ` events ` or at the end of the line.
pub(crate) fn list_length(line: &[u8]) -> usize
    ensures value { result ≡ list_length line.now }
    ensures within { result ≤ length line.now }
{
    let mut count = 0usize;
    'bytes: while count < line.len() {
        let (_, rest) = line.split_at(count);
        if rest.starts_with(EVENTS) {
            return count;
        }
        count += 1;
    }
    count
}
