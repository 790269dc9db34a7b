//! The open marks of a side, in memory that is lent.
ghost use Rattle.std.specs.Prelude.{◌≤◌, length, Decides};
ghost use Rattle.std.specs.List.{insert};
ghost use Rattle.places.specs.Held.{held};
ghost use Rattle.marks.specs.Open.{Ascending, ascending_once};
ghost use Rattle.marks.specs.Set.{Differ};

use crate::mark::{Entry, OpenMark};
use crate::search::find;
use crate::set::{MarkSet, last_value};
use kinds::interfaces::{Id, Name, Value};
use kinds::refusal::Refusal;
use places::places::Places;

/// The marks that are open at a point of a side, in the order of their ids.
#[derive(Drop)]
pub struct MarkStateMachine<'a, I: Id, N, V> {
    state: Places<'a, OpenMark<I, N, V>>,
    ghost in_order: { Ascending I.below (held state) } by { ascending_once I.below (held state) },
}

impl<'a, I: Id, N: Name, V: Value> MarkStateMachine<'a, I, N, V> {
    ghost use Rattle.std.specs.Prelude.{◌≡◌, []};
    ghost use Rattle.std.specs.List.{slice_get};
    ghost use Rattle.std.specs.List.Sorted.{IsSearchInRange};
    ghost use Rattle.marks.specs.Open.{Found};
    ghost use Rattle.marks.specs.Set.{given, entries, ValueOf, EntryAt};
    ghost use Rattle.marks.specs.Answers.{Begins, Ends};
    ghost use Rattle.marks.specs.Side.{opened, places};

    /// No mark is open, and each place of the memory may hold one.
    pub fn new(memory: &'a mut [OpenMark<I, N, V>]) -> Self
        ensures none { opened result ≡ [] }
        ensures places { places result ≡ length memory.old }
        ensures in_order { Ascending I.below (opened result) }
    {
        MarkStateMachine {
            state: Places::new(memory),
        }
    }

    /// The set that the open marks give.
    pub fn current(&self) -> MarkSet<'_, I, N, V>
        ensures marks { result.marks.now ≡ opened self.now }
        ensures in_order { Ascending I.below result.marks.now }
    {
        MarkSet::new(self.state.all())
    }

    /// How many ids are open.
    pub fn open_ids(&self) -> usize
        ensures { result ≡ length (opened self.now) }
    {
        self.state.len()
    }

    /// The value of a name: that of its greatest open id.
    pub fn value_of(&self, name: N) -> Option<V>
        ensures value { result ≡ given N.below (opened self.now) name }
        ensures greatest { ValueOf I.below (opened self.now) name result }
    {
        self.current().value_of(name)
    }

    /// Entry `k` of the set in name order, or none.
    pub fn entry(&self, k: usize) -> Option<Entry<N, V>>
        ensures value { result ≡ slice_get (entries N.below (opened self.now)) k }
        ensures entry { EntryAt I.below N.below (opened self.now) k result }
    {
        self.current().entry(k)
    }

    /// Where an id stands among the open marks, or the place where it would go.
    fn place_of(&self, id: I) -> Result<usize, usize>
        ensures within { IsSearchInRange result (length (opened self.now)) }
        ensures found { Found I.below (opened self.now) id result }
    {
        find(self.state.all(), id)
    }

    /// Whether the set differs by a mark at the place `at`: none above has its name, and the nearest below has not its value.
    fn altered_by(&self, at: usize, mark: &OpenMark<I, N, V>) -> bool
        requires within { at ≤ length (opened self.now) }
        ensures { Decides result (Differ N.below V.equal (opened self.now) (insert (opened self.now) at mark.now)) }
    {
        let marks = self.state.all();
        last_value(&marks[at..], mark.name).is_none()
            && last_value(&marks[..at], mark.name).is_none_or(|below| !below.same(&mark.value))
    }

    /// Opens a mark, and says whether the set changed; an id that is open keeps its first data.
    pub fn mark_begin(&mut self, id: I, name: N, value: V) -> Result<bool, Refusal>
        ensures places { places self.new ≡ places self.old }
        ensures begins { Begins I.below N.below V.equal (places self.old) (record { id = id; name = name; value = value }) (opened self.old) result (opened self.new) }
    {
        let Err(at) = self.place_of(id) else {
            return Ok(false);
        };
        let mark = OpenMark { id, name, value };
        let changed = self.altered_by(at, &mark);
        self.state
            .insert(at, mark)
            .map_err(|_| Refusal::NoOpenPlace)?;
        Ok(changed)
    }

    /// Closes the mark of the predecessor of `id`, and says whether the set changed.
    pub fn mark_end(&mut self, id: I) -> Result<bool, Refusal>
        ensures places { places self.new ≡ places self.old }
        ensures ends { Ends I.below N.below V.equal (I.Id.previous id) (opened self.old) result (opened self.new) }
    {
        let begun = id.prev().ok_or(Refusal::NoPredecessor)?;
        let Ok(at) = self.place_of(begun) else {
            return Ok(false);
        };
        let Some(mark) = self.state.remove(at) else {
            unreachable()
        };
        Ok(self.altered_by(at, &mark))
    }
}
