//! The places of a detector's input, which are the ids of its kind.
ghost use Rattle.kinds.specs.Detector.{place_below, place_before};
ghost use Rattle.kinds.specs.Ranks.{places_ranked};
ghost use Rattle.std.proofs.Common.{rules};

use crate::interfaces::{Id, Ordered};
use std::cmp::Ordering;

/// The actor of every place: a detector has no other.
const ONLY_ACTOR: usize = 0;

/// A place in a detector's input, by its number.
#[derive(Clone, Copy, PartialEq, Eq, PartialOrd, Ord, Debug)]
pub struct DetectorId {
    pub number: u64,
}

impl Ordered for DetectorId {
    ghost below = { place_below };

    ghost orders = { record { ordered = Prim.search rules; answers = places_ranked } };
}

impl Id for DetectorId {
    ghost below = { place_below };

    ghost actor = { λ _. 0 };

    ghost counter = { λ id. id.number };

    ghost previous = { place_before };

    ghost ordered = { Prim.search rules };

    fn order(&self, other: &DetectorId) -> Ordering {
        self.cmp(other)
    }

    fn actor(&self) -> usize {
        ONLY_ACTOR
    }

    fn counter(&self) -> u64 {
        self.number
    }

    /// The place before this one.
    fn prev(&self) -> Option<DetectorId> {
        let number = self.number.checked_sub(1)?;
        Some(DetectorId { number })
    }
}
