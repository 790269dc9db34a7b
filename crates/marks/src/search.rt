//! The search of an id among open marks.
ghost use Rattle.std.specs.Prelude.{length};
ghost use Rattle.std.specs.List.Sorted.{IsSearchInRange};
ghost use Rattle.marks.specs.Open.{Ascending, Found};

use crate::mark::OpenMark;
use kinds::interfaces::{Id, Name, Value};

/// Where `target` stands among marks in the order of their ids, or the place where it would go.
// Any slice may be given, so that its marks ascend is a premise and no part of its type.
pub fn find<I: Id, N: Name, V: Value>(
    marks: &[OpenMark<I, N, V>],
    target: I,
) -> Result<usize, usize>
    ensures within { IsSearchInRange result (length marks.now) }
    ensures found { Ascending I.below marks.now → Found I.below marks.now target result }
{
    marks.binary_search_by(|mark| mark.id.order(&target))
}
