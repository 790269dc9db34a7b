//! From a `&str` to its bytes and back: a `&str` holds well-formed text, and all well-formed text can be one.
ghost use Rattle.std.specs.Prelude.{◌≡◌, MatchOption};
ghost use Rattle.measures.specs.Rfc3629.{Utf8Octets};

use crate::judge::well_formed;
use std::str::from_utf8_unchecked;

/// The bytes of `text`, which are well-formed.
pub fn bytes_of(text: &str) -> &[u8]
    ensures { (result.now ≡ text.now) × Utf8Octets result.now }
{
    text.as_bytes()
}

/// The text that `bytes` are, or `None` where they are not well-formed.
pub fn text_from(bytes: &[u8]) -> Option<&str>
    ensures { MatchOption result (Utf8Octets bytes.now → ⊥) (λ text. (text.now ≡ bytes.now) × Utf8Octets text.now) }
{
    if well_formed(bytes) {
        Some(unsafe { from_utf8_unchecked(bytes) })
    } else {
        None
    }
}
