//! What a measure of text is.
ghost use Rattle.std.specs.Prelude.{ℕ, List};
ghost use Rattle.measures.specs.Widths.{Widths, Says};

use crate::width::Width;

/// A measure: widths of texts, by data of its own if it holds any, that keep the laws of `Widths`.
pub trait Measure {
    ghost width: { Self → List ℕ → ℕ };

    ghost laws: { (m : Self) → Widths (width m) };

    /// The width of `text`.
    fn width(&self, text: &[u8]) -> Width
        ensures { Says result (width self.now text.now) };
}
