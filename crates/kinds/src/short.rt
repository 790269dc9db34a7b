//! Content of at most 32 bytes, held in place.
ghost use Rattle.std.specs.Prelude.{◌≡◌, ℕ, ◌≤◌, length, slice_index};

/// At most 32 bytes. Those not in use are 0, so equal content is an equal value.
#[derive(Clone, Copy, Debug)]
pub struct ShortBytes {
    // An array and its length, not a `Vec`: values are `Copy`, and the library takes no memory of its own.
    pub(crate) held: [u8; 32],
    pub(crate) len: u8,
    ghost room: { length held ≡ 32 },
    ghost most: { len ≤ 32 },
    ghost zeros: { (k : ℕ) → len ≤ k → slice_index held k ≡ 0 },
}
