//! The measure that counts code units of UTF-16.
ghost use Rattle.measures.specs.Counts.{utf16_units};
ghost use Rattle.measures.specs.Laws.{utf16_laws};

use crate::counts::{fours_at, points_at};
use crate::measure::Measure;
use crate::width::{Width, joined_width, width_of};

/// Counts the code units that a text has in UTF-16: one for each code point, and one more for each of four bytes.
#[derive(Clone, Copy)]
pub struct Utf16;

impl Measure for Utf16 {
    ghost width = { λ _. utf16_units };

    ghost laws = { λ _. utf16_laws };

    fn width(&self, text: &[u8]) -> Width {
        let mut points: u64 = 0;
        let mut pairs: u64 = 0;
        for b in text {
            points += points_at(*b);
            pairs += fours_at(*b);
        }
        joined_width(width_of(points), width_of(pairs))
    }
}
