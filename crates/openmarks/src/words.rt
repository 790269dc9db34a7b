//! Lines and words of the input.
ghost use Rattle.std.specs.Prelude.{◌<◌, length};

/// Whether a byte parts words: a space, a tab or the carriage return before a line's end.
fn parts_words(b: u8) -> bool {
    matches!(b, b' ' | b'\t' | b'\r')
}

// A line and what follows it, as the tests ask for them: an iterator over lines would have a closure's type, which no function can name.
/// The first line, without its end, and what follows it.
pub(crate) fn first_line(bytes: &[u8]) -> (&[u8], &[u8])
    ensures { 0 < length bytes.now → length result.1.now < length bytes.now }
{
    match bytes.iter().position(|b| *b == b'\n') {
        Some(end) => (&bytes[..end], &bytes[end + 1..]),
        None => (bytes, &[]),
    }
}

/// The words of a line, one after the other.
#[derive(Clone, Copy)]
pub(crate) struct Words<'a> {
    rest: &'a [u8],
}

impl<'a> Words<'a> {
    pub(crate) fn new(line: &'a [u8]) -> Self {
        Words { rest: line }
    }

    // Two searches and no `split`, which would stop at every blank of a long run.
    /// The next word, or none at the end of the line.
    pub(crate) fn next_word(&mut self) -> Option<&'a [u8]> {
        let start = self.rest.iter().position(|b| !parts_words(*b))?;
        let line = &self.rest[start..];
        let end = line.iter().position(|b| parts_words(*b));
        let (word, rest) = line.split_at(end.unwrap_or(line.len()));
        self.rest = rest;
        Some(word)
    }
}

/// Whether the word is digits and nothing else.
fn is_digits(word: &[u8]) -> bool {
    !word.is_empty() && word.iter().all(|b| b.is_ascii_digit())
}

/// The number with one digit more, if the byte is one and the number fits 32 bits.
fn with_digit(number: u32, b: u8) -> Option<u32> {
    let digit = char::from(b).to_digit(10)?;
    number.checked_mul(10)?.checked_add(digit)
}

// In one pass and no `parse`, which wants text: it ends at the first byte that is no digit or takes the number past 32 bits.
/// The number that decimal digits spell, if it fits 32 bits.
pub(crate) fn decimal(word: &[u8]) -> Option<u32> {
    if word.is_empty() {
        return None;
    }
    word.iter().try_fold(0, |number, b| with_digit(number, *b))
}

/// Whether the word is digits, perhaps after a minus sign.
pub(crate) fn looks_like_integer(word: &[u8]) -> bool {
    is_digits(word.strip_prefix(b"-").unwrap_or(word))
}
