//! The set that open marks give: each name has the value of its greatest open id.
ghost use Rattle.std.specs.Prelude.{◌≡◌, ◌&&◌};
ghost use Rattle.std.specs.List.{slice_get};
ghost use Rattle.marks.specs.Open.{Ascending};
ghost use Rattle.marks.specs.Set.{given, entries, ValueOf, EntryAt};
ghost use Rattle.marks.specs.Past.{past, ahead, first_past, EntryPast};

use crate::mark::{Entry, OpenMark};
use kinds::interfaces::{Id, Name, Value};

/// The value of the last mark under a name.
pub(crate) fn last_value<I: Id, N: Name, V: Value>(
    marks: &[OpenMark<I, N, V>],
    name: N,
) -> Option<V>
    ensures { result ≡ given N.below marks.now name }
{
    marks
        .iter()
        .rfind(|mark| mark.name.order(&name).is_eq())
        .map(|mark| mark.value)
}

/// Whether a name is past `last` and ahead of `best`, where there are such.
fn improves<N: Name, V: Value>(last: Option<N>, best: Option<Entry<N, V>>, name: &N) -> bool
    ensures { result ≡ (past N.below last name.now && ahead N.below best name.now) }
{
    last.is_none_or(|passed| passed.order(name).is_lt())
        && best.is_none_or(|entry| name.order(&entry.name).is_lt())
}

/// The first entry of the set past a name.
fn next_entry<I: Id, N: Name, V: Value>(
    marks: &[OpenMark<I, N, V>],
    last: Option<N>,
) -> Option<Entry<N, V>>
    ensures { result ≡ first_past N.below last (entries N.below marks.now) }
{
    let mut best = None;
    for mark in marks.iter().rev() {
        if improves(last, best, &mark.name) {
            best = Some(Entry {
                name: mark.name,
                value: mark.value,
            });
        }
    }
    best
}

/// The set of open marks, by name.
// Any slice may be given, so the order of its marks is a premise of what its calls promise.
#[derive(Clone, Copy)]
pub struct MarkSet<'a, I: Id, N: Name, V: Value> {
    marks: &'a [OpenMark<I, N, V>],
}

impl<'a, I: Id, N: Name, V: Value> MarkSet<'a, I, N, V> {
    /// The set that these open marks give.
    pub fn new(marks: &'a [OpenMark<I, N, V>]) -> Self
        ensures { result.marks.now ≡ marks.now }
    {
        MarkSet { marks }
    }

    /// The value of a name: that of its greatest open id.
    pub fn value_of(&self, name: N) -> Option<V>
        ensures value { result ≡ given N.below self.now.marks.now name }
        ensures greatest { Ascending I.below self.now.marks.now → ValueOf I.below self.now.marks.now name result }
    {
        last_value(self.marks, name)
    }

    /// The first entry past a name, or the first of all, in name order.
    pub fn entry_past(&self, last: Option<N>) -> Option<Entry<N, V>>
        ensures value { result ≡ first_past N.below last (entries N.below self.now.marks.now) }
        ensures entry { Ascending I.below self.now.marks.now → EntryPast I.below N.below self.now.marks.now last result }
    {
        next_entry(self.marks, last)
    }

    /// Entry `k` in name order, or none.
    pub fn entry(&self, k: usize) -> Option<Entry<N, V>>
        ensures value { result ≡ slice_get (entries N.below self.now.marks.now) k }
        ensures entry { Ascending I.below self.now.marks.now → EntryAt I.below N.below self.now.marks.now k result }
    {
        let mut found = next_entry(self.marks, None)?;
        for _ in 0..k {
            found = next_entry(self.marks, Some(found.name))?;
        }
        Some(found)
    }
}
