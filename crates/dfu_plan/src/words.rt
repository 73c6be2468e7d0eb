//! Lines of a table, and their words.

ghost use Rattle.std.specs.Prelude.{◌≡◌, ◌<◌, ◌≤◌, length, IfSome};
ghost use Rattle.std.specs.Option.{ForSome};
ghost use Rattle.std.specs.List.{position};
ghost use Rattle.dfu_plan.specs.Words.{without_front_blanks, cut_at, first_line, is_space_or_tab, is_line_feed_byte, is_in_word, lines_after_first, next_word};

/// Returns true for a space or a tab.
pub(crate) fn is_space_or_tab(byte: u8) -> bool
    ensures { result ≡ is_space_or_tab byte }
{
    byte == b' ' || byte == b'\t'
}

/// Returns the index of the first blank, which is a space or a tab, or None if there is none.
fn first_blank(text: &[u8]) -> Option<usize>
    ensures value { result ≡ position is_space_or_tab text.now }
    ensures within { IfSome result (λ at. at < length text.now) }
{
    text.iter().position(|byte| is_space_or_tab(*byte))
}

/// Returns the index of the first byte that is neither a space nor a tab, or None if there is none.
fn first_word_byte(text: &[u8]) -> Option<usize>
    ensures value { result ≡ position is_in_word text.now }
    ensures within { IfSome result (λ at. at < length text.now) }
{
    text.iter().position(|byte| !is_space_or_tab(*byte))
}

/// Returns the index of the first line feed, or None if there is none.
fn first_line_feed(text: &[u8]) -> Option<usize>
    ensures value { result ≡ position is_line_feed_byte text.now }
    ensures within { IfSome result (λ at. at < length text.now) }
{
    text.iter().position(|byte| *byte == b'\n')
}

/// Splits a text at an index. Without an index, returns the text and an empty one.
fn cut_at(place: Option<usize>, text: &[u8]) -> (&[u8], &[u8])
    requires within { ForSome place (λ at. at < length text.now) }
    ensures front { result.0.now ≡ (cut_at place text.now).0 }
    ensures rest { result.1.now ≡ (cut_at place text.now).1 }
{
    match place {
        Some(at) => text.split_at(at),
        None => (text, &[]),
    }
}

/// Returns the text after its leading blanks.
pub(crate) fn without_front_blanks(text: &[u8]) -> &[u8]
    ensures { result.now ≡ without_front_blanks text.now }
{
    let (_, rest) = cut_at(first_word_byte(text), text);
    rest
}

/// Returns the first word, empty if there is none, and the text after it.
pub(crate) fn next_word(text: &[u8]) -> (&[u8], &[u8])
    ensures word { result.0.now ≡ (next_word text.now).0 }
    ensures rest { result.1.now ≡ (next_word text.now).1 }
{
    let text = without_front_blanks(text);
    cut_at(first_blank(text), text)
}

/// Returns the first line without its line feed, and the text after the line feed. That text is empty if there is no line feed.
pub(crate) fn next_line(text: &[u8]) -> (&[u8], &[u8])
    ensures line { result.0.now ≡ first_line text.now }
    ensures rest { result.1.now ≡ lines_after_first text.now }
{
    match first_line_feed(text) {
        Some(at) => {
            let (line, _) = text.split_at(at);
            let (_, rest) = text.split_at(at + 1);
            (line, rest)
        }
        None => (text, &[]),
    }
}
