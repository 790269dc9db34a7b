//! The index of a section: places from which any item is found in few steps.
ghost use Rattle.std.specs.Prelude.{◌≡◌, ℕ, ◌+◌, ◌*◌, ◌/◌, ◌<◌, length, ◌≢◌, slice_index};
ghost use Rattle.file.specs.Indexed.{Indexed};

// Arrays: places are noted without a heap.
/// The places of items 0 to 255, and of items 0, 256, 512 and so on up to 65280.
#[derive(Clone, Copy)]
pub(crate) struct Index {
    pub(crate) near: [usize; 256],
    pub(crate) far: [usize; 256],
}

/// Puts `at` at the place `k` of `places`; nothing where there is no such place.
fn put(places: &mut [usize], k: usize, at: usize)
    ensures noted { k < length places.old → slice_index places.new k ≡ at }
    ensures others { (j : ℕ) → (j ≢ k) → slice_index places.new j ≡ slice_index places.old j }
{
    // An index in place of `get_mut`: with that, what the places are afterwards stayed open.
    if k < places.len() {
        places[k] = at;
    }
}

// `Indexed` relates an index to the places of a file, which is no field of it.
impl Index {
    /// An index of no items.
    pub(crate) fn empty() -> Index
        ensures { (place : ℕ → ℕ) → Indexed place 0 result }
    {
        Index {
            near: [0; 256],
            far: [0; 256],
        }
    }

    /// Notes the place of item `i`, behind the items below `i`.
    pub(crate) fn note(&mut self, i: u32, at: usize)
        ensures { (place : ℕ → ℕ) → Indexed place i self.old → at ≡ place i → Indexed place (i + 1) self.new }
    {
        put(&mut self.near, i as usize, at);
        if i % 256 == 0 {
            put(&mut self.far, (i / 256) as usize, at);
        }
    }

    /// The place of item `i`, which is below 256.
    pub(crate) fn near(&self, i: u16) -> usize
        requires { i < 256 }
        ensures { (place : ℕ → ℕ) (n : ℕ) → Indexed place n self.now → i < n → result ≡ place i }
    {
        self.near[usize::from(i)]
    }

    /// The place of the last 256th item up to item `i`.
    pub(crate) fn far(&self, i: u16) -> usize
        ensures { (place : ℕ → ℕ) (n : ℕ) → Indexed place n self.now → i < n → result ≡ place (i / 256 * 256) }
    {
        self.far[usize::from(i / 256)]
    }
}
