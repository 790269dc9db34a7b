//! What `==` says of names, values and what they are made of.
ghost use Rattle.std.specs.Prelude.{◌≡◌, nat_eq, Decides};
ghost use Rattle.std.specs.Cmp.Lexicographic.{pointwise};
ghost use Rattle.std.specs.Ordering.{on};
ghost use Rattle.kinds.specs.Contents.{content};
ghost use Rattle.kinds.specs.Detector.{grade_equal};
ghost use Rattle.kinds.specs.Names.{spelled};
ghost use Rattle.kinds.specs.Values.{unsigned_zero, value_equal};
ghost use Rattle.kinds.specs.declared.grade.Grade.{Grade};
ghost use Rattle.kinds.specs.declared.short.ShortBytes.{ShortBytes};
ghost use Rattle.kinds.specs.declared.text.ShortStr.{ShortStr};
ghost use Rattle.kinds.specs.declared.value.ScalarValue.{ScalarValue};

use crate::grade::Grade;
use crate::short::ShortBytes;
use crate::text::ShortStr;
use crate::value::ScalarValue;

/// States that short bytes and texts are equal where they are the same, which is where their contents or spellings are; values where they are
/// the same once a zero has lost its sign, which is where they are of one kind and one content; and grades where their levels are.
pub fn equality_stands()
    ensures short_bytes { (a b : ShortBytes) → Decides (⟦<ShortBytes as PartialEq>⟧.eq a b) (a ≡ b) }
    ensures short_texts { (a b : ShortStr) → Decides (⟦<ShortStr as PartialEq>⟧.eq a b) (a ≡ b) }
    ensures contents { (a b : ShortBytes) → ⟦<ShortBytes as PartialEq>⟧.eq a b ≡ on content (pointwise nat_eq) a b }
    ensures spellings { (a b : ShortStr) → ⟦<ShortStr as PartialEq>⟧.eq a b ≡ on spelled (pointwise nat_eq) a b }
    ensures values { (x y : ScalarValue) → Decides (⟦<ScalarValue as PartialEq>⟧.eq x y) (unsigned_zero x ≡ unsigned_zero y) }
    ensures compared { (x y : ScalarValue) → ⟦<ScalarValue as PartialEq>⟧.eq x y ≡ value_equal x y }
    ensures grades { (x y : Grade) → ⟦<Grade as PartialEq>⟧.eq x y ≡ grade_equal x y }
{}
