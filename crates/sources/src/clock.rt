//! A clock, held in place.
ghost use Rattle.std.specs.Prelude.{◌≡◌, ◌≤◌, length};

/// A number for each of at most 64 actors: how far the actor's ids are known.
#[derive(Clone, Copy)]
pub struct Clock {
    // An array and its length, not a `Vec`: a clock is `Copy`, and the library takes no memory of its own.
    pub(crate) numbers: [u64; 64],
    pub(crate) len: usize,
    ghost room: { length numbers ≡ 64 },
    ghost most: { len ≤ 64 },
}
