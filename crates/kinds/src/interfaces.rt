//! What the library asks of ids, names and values; everything above is proved once, from this.
ghost use Rattle.std.specs.Prelude.{◌≡◌, ℕ, Bool, true, Option};
ghost use Rattle.kinds.specs.Order.{TotalOrder, OrderedBy, Equality};
ghost use Rattle.std.specs.Ordering.{MatchOrdering};

use std::cmp::Ordering;

/// What has an `Ord` that is a total order, in which only the same tie: `cmp` tells which of two is below the other.
pub trait Ordered: Copy + Ord {
    ghost below: { Self → Self → Bool };

    ghost orders: { OrderedBy Self.cmp below };
}

// Three interfaces, not one of a whole kind: callers mix any id, name and value.
// The order is a member of ids and of names, not a supertrait: a type may be an id by one order and a name by another, and its own `==` and
// `cmp` are left alone.

/// An id: a total order, an actor, a counter, and a predecessor or none.
pub trait Id: Copy {
    ghost below: { Self → Self → Bool };

    ghost actor: { Self → ℕ };

    ghost counter: { Self → ℕ };

    ghost previous: { Self → Option Self };

    fn order(&self, other: &Self) -> Ordering
        ensures { MatchOrdering result (below self.now other.now ≡ true) (self.now ≡ other.now) (below other.now self.now ≡ true) };

    fn actor(&self) -> usize
        ensures { result ≡ actor self.now };

    fn counter(&self) -> u64
        ensures { result ≡ counter self.now };

    fn prev(&self) -> Option<Self>
        ensures { result ≡ previous self.now };

    ghost ordered: { TotalOrder below };
}

/// A name: a total order, in which only equal names tie.
pub trait Name: Copy {
    ghost below: { Self → Self → Bool };

    fn order(&self, other: &Self) -> Ordering
        ensures { MatchOrdering result (below self.now other.now ≡ true) (self.now ≡ other.now) (below other.now self.now ≡ true) };

    ghost ordered: { TotalOrder below };
}

/// A value: an equality of its own, and a null; what is equal to the null is null.
pub trait Value: Copy {
    ghost equal: { Self → Self → Bool };

    ghost null: { Self };

    fn same(&self, other: &Self) -> bool
        ensures { result ≡ equal self.now other.now };

    fn null() -> Self
        ensures { result ≡ null };

    fn is_null(&self) -> bool
        ensures { result ≡ equal self.now null };

    ghost equality: { Equality equal };
}
