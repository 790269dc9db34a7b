//! The channels of a detector, which are the names of its kind.
ghost use Rattle.kinds.specs.Detector.{channel_below};
ghost use Rattle.kinds.specs.Ranks.{channels_ranked};
ghost use Rattle.std.proofs.Common.{rules};

use crate::interfaces::{Name, Ordered};
use std::cmp::Ordering;

/// A channel of a detector, by its number.
#[derive(Clone, Copy, PartialEq, Eq, PartialOrd, Ord, Debug)]
pub struct Channel {
    pub number: u16,
}

impl Ordered for Channel {
    ghost below = { channel_below };

    ghost orders = { record { ordered = Prim.search rules; answers = channels_ranked } };
}

impl Name for Channel {
    ghost below = { channel_below };

    ghost ordered = { Prim.search rules };

    fn order(&self, other: &Channel) -> Ordering {
        self.cmp(other)
    }
}
