//! The document kind: operations are its ids, short texts its names, scalar values its values.
ghost use Rattle.kinds.specs.Operations.{op_below, op_previous};
ghost use Rattle.kinds.specs.Ranks.{operations_ranked};
ghost use Rattle.std.proofs.Common.{rules};

pub use crate::float::FloatBits;
use crate::interfaces::{Id, Ordered};
pub use crate::short::ShortBytes;
pub use crate::text::ShortStr;
pub use crate::value::ScalarValue;
use std::cmp::Ordering;

/// An operation of a document: the counter of its actor, and the actor.
#[derive(Clone, Copy, PartialEq, Eq, PartialOrd, Ord, Debug)]
pub struct OpId {
    pub counter: u32,
    pub actor: u32,
}

impl Ordered for OpId {
    ghost below = { op_below };

    ghost orders = { record { ordered = Prim.search rules; answers = operations_ranked } };
}

impl Id for OpId {
    ghost below = { op_below };

    ghost actor = { λ id. id.actor };

    ghost counter = { λ id. id.counter };

    ghost previous = { op_previous };

    ghost ordered = { Prim.search rules };

    /// By counter, then by actor.
    fn order(&self, other: &OpId) -> Ordering {
        self.cmp(other)
    }

    fn actor(&self) -> usize {
        self.actor as usize
    }

    fn counter(&self) -> u64 {
        u64::from(self.counter)
    }

    /// The actor's operation before this one.
    fn prev(&self) -> Option<OpId> {
        let counter = self.counter.checked_sub(1)?;
        Some(OpId {
            counter,
            actor: self.actor,
        })
    }
}
