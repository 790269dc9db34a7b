//! The measure that counts bytes.
ghost use Rattle.std.specs.Prelude.{length};
ghost use Rattle.measures.specs.Laws.{bytes_laws};

use crate::measure::Measure;
use crate::width::{Width, width_of};

/// Counts the bytes of a text.
#[derive(Clone, Copy)]
pub struct Utf8;

impl Measure for Utf8 {
    ghost width = { λ _. length };

    ghost laws = { λ _. bytes_laws };

    fn width(&self, text: &[u8]) -> Width {
        width_of(text.len() as u64)
    }
}
