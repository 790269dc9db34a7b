//! What one byte adds to the counts of the measures.
ghost use Rattle.std.specs.Prelude.{◌≡◌, ◌≤◌};
ghost use Rattle.measures.specs.Counts.{points, fours, CountsCharacters, CountsUnits};

// Two functions, not one with a range: the first counts what is outside its range, the second what is inside.

/// How many code points begin at the byte `b`.
pub(crate) fn points_at(b: u8) -> u64
    ensures value { result ≡ points b }
    ensures most { result ≤ 1 }
{
    match b {
        0x80..=0xBF => 0,
        _ => 1,
    }
}

/// How many four-byte forms begin at the byte `b`.
pub(crate) fn fours_at(b: u8) -> u64
    ensures value { result ≡ fours b }
    ensures most { result ≤ 1 }
{
    match b {
        0xF0..=0xFF => 1,
        _ => 0,
    }
}

/// States that what is counted in the bytes of a text is what its characters have.
pub fn counts_stand()
    ensures characters { CountsCharacters }
    ensures units { CountsUnits }
{}
