//! Items of a section: what names and values have in common.
ghost use Rattle.std.specs.Prelude.{◌≡◌, ℕ, ◌+◌, ◌≤◌, List, Option, length};
ghost use Rattle.house.specs.declared.bad.Part.{Part};
ghost use Rattle.house.specs.Fields.{Field, AllGood, Judged};

use crate::place::Place;
use house::bad::{BadFile, Part};

/// The items of a section: the place of their count, and of an item at a place its fields, its width and what it holds.
pub(crate) trait Item: Copy {
    /// What an item holds.
    type Held;

    ghost count: { Part };

    ghost head: { List ℕ → ℕ };

    ghost fields: { List ℕ → ℕ → List Field };

    ghost width: { List ℕ → ℕ → ℕ };

    ghost standing: { List ℕ → ℕ → Option Self.Held };

    /// The part that their count is.
    fn part() -> Part
        ensures { result ≡ count };

    /// Checks the item at a place, and answers the place behind it.
    fn check<'a>(place: &Place<'a>) -> Result<Place<'a>, BadFile>
        ensures { let d = place.now.bytes.now in Judged d (fields d place.now.at) result (λ q. (q.bytes.now ≡ d) × (q.at ≡ place.now.at + width d place.now.at)) };

    /// The place behind the item at a place.
    fn behind<'a>(place: &Place<'a>) -> Place<'a>
        requires { let d = place.now.bytes.now in place.now.at + width d place.now.at ≤ length d }
        ensures bytes { result.bytes.now ≡ place.now.bytes.now }
        ensures at { result.at ≡ place.now.at + width place.now.bytes.now place.now.at };

    /// What a good item at a place holds.
    fn held(place: &Place<'_>) -> Option<Self::Held>
        requires { let d = place.now.bytes.now in ∥ AllGood d (fields d place.now.at) ∥₁ }
        ensures { result ≡ standing place.now.bytes.now place.now.at };
}
