//! A memory that is lent, of which the first places are in use.
ghost use Rattle.std.specs.Prelude.{◌≤◌, length};

/// A lent memory; the first `used` places hold items, and past them anything may stand.
#[derive(Drop)]
pub struct Places<'a, T> {
    // A slice and a count, not a `Vec`: the memory is the caller's, and the library takes none of its own.
    slots: &'a mut [T],
    used: usize,
    ghost within: { used ≤ length slots.now },
}

/// Why an item was not put in.
#[derive(Clone, Copy, PartialEq, Eq, Debug)]
pub enum NoPlace {
    /// Every place is in use.
    Full,
    /// The place asked for is past the end of those in use.
    Outside,
}

impl<'a, T: Copy> Places<'a, T> {
    ghost use Rattle.std.specs.Prelude.{◌≡◌, [], take};
    ghost use Rattle.places.specs.Held.{held, size};
    ghost use Rattle.places.specs.Changes.{Pushed, Inserts, Removes};

    /// The whole of `slots`, with no place in use.
    pub fn new(slots: &'a mut [T]) -> Self
        ensures empty { held result ≡ [] }
        ensures size { size result ≡ length slots.old }
        ensures lent { (result.slots.now ≡ slots.old) × (result.slots.ghost_name ≡ slots.entry.ghost_name) }
    {
        Places { slots, used: 0 }
    }

    /// How many places are in use.
    pub fn len(&self) -> usize
        ensures { result ≡ length (held self.now) }
    {
        self.all().len()
    }

    /// How many places there are.
    pub fn capacity(&self) -> usize
        ensures { result ≡ size self.now }
    {
        self.slots.len()
    }

    /// The items, in their order.
    pub fn all(&self) -> &[T]
        ensures { result.now ≡ held self.now }
    {
        &self.slots[..self.used]
    }

    // `size` and `lent` of the changes compare a memory with itself after the call, which no type can hold.

    /// Puts an item after the others.
    pub fn push(&mut self, item: T) -> Result<(), NoPlace>
        ensures pushed { Pushed (held self.old) (size self.old) item result (held self.new) }
        ensures size { size self.new ≡ size self.old }
        ensures lent { self.new.slots.ghost_name ≡ self.old.slots.ghost_name }
    {
        if self.used == self.capacity() {
            return Err(NoPlace::Full);
        }
        self.slots[self.used] = item;
        self.used += 1;
        Ok(())
    }

    /// Puts an item at the place `at`, and those from there on one place up.
    pub fn insert(&mut self, at: usize, item: T) -> Result<(), NoPlace>
        ensures inserts { Inserts (held self.old) (size self.old) at item result (held self.new) }
        ensures size { size self.new ≡ size self.old }
        ensures lent { self.new.slots.ghost_name ≡ self.old.slots.ghost_name }
    {
        if at > self.used {
            return Err(NoPlace::Outside);
        }
        if self.used >= self.capacity() {
            return Err(NoPlace::Full);
        }
        self.slots.copy_within(at..self.used, at + 1);
        self.slots[at] = item;
        self.used += 1;
        Ok(())
    }

    /// Takes the item at the place `at` out, and puts those past it one place down.
    pub fn remove(&mut self, at: usize) -> Option<T>
        ensures removes { Removes (held self.old) at result (held self.new) }
        ensures size { size self.new ≡ size self.old }
        ensures lent { self.new.slots.ghost_name ≡ self.old.slots.ghost_name }
    {
        if at >= self.used {
            return None;
        }
        let item = self.slots[at];
        self.slots.copy_within(at + 1..self.used, at);
        self.used -= 1;
        Some(item)
    }
}
