//! The measure that counts code points.
ghost use Rattle.measures.specs.Counts.{code_points};
ghost use Rattle.measures.specs.Laws.{code_points_laws};

use crate::counts::points_at;
use crate::measure::Measure;
use crate::width::{Width, width_of};

/// Counts the code points of a text.
#[derive(Clone, Copy)]
pub struct CodePoints;

impl Measure for CodePoints {
    ghost width = { λ _. code_points };

    ghost laws = { λ _. code_points_laws };

    fn width(&self, text: &[u8]) -> Width {
        let mut points: u64 = 0;
        for b in text {
            points += points_at(*b);
        }
        width_of(points)
    }
}
