//! The answer to how wide a text is.
ghost use Rattle.std.specs.Prelude.{ℕ, ◌+◌};
ghost use Rattle.measures.specs.Widths.{Says};

/// A width up to 4,294,967,295, or none where it is larger.
pub type Width = Option<u32>;

/// What is answered of the width `n`.
pub fn width_of(n: u64) -> Width
    ensures { Says result n }
{
    u32::try_from(n).ok()
}

/// The width of two texts joined, from that of each.
pub fn joined_width(front: Width, back: Width) -> Width
    ensures { (m n : ℕ) → Says front m → Says back n → Says result (m + n) }
{
    front?.checked_add(back?)
}
