//! Scenes that every kind of id, name and value plays.
use kinds::interfaces::{Id, Name, Value};
use kinds::refusal::Refusal;
use marks::machine::MarkStateMachine;
use marks::mark::OpenMark;
use std::process::Abort;

/// Three ids that follow one another, two names in their order, and two values that differ.
#[derive(Clone, Copy)]
pub(crate) struct Cast<I, N, V> {
    pub(crate) first: I,
    pub(crate) second: I,
    pub(crate) third: I,
    pub(crate) name: N,
    pub(crate) later: N,
    pub(crate) value: V,
    pub(crate) other: V,
}

/// Whether a name has the value.
pub(crate) fn has<I: Id, N: Name, V: Value>(
    side: &MarkStateMachine<'_, I, N, V>,
    name: N,
    value: V,
) -> bool {
    side.value_of(name).is_some_and(|found| found.same(&value))
}

/// Whether entry `k` has the name and the value.
fn lists<I: Id, N: Name, V: Value>(
    side: &MarkStateMachine<'_, I, N, V>,
    k: usize,
    name: N,
    value: V,
) -> bool {
    side.entry(k).is_some_and(|entry| entry.name.order(&name).is_eq() && entry.value.same(&value))
}

/// Whether the first entry past `last` has the name.
fn leads_to<I: Id, N: Name, V: Value>(
    side: &MarkStateMachine<'_, I, N, V>,
    last: Option<N>,
    name: N,
) -> bool {
    side.current()
        .entry_past(last)
        .is_some_and(|entry| entry.name.order(&name).is_eq())
}

/// The greater of two open ids gives the value, and the older one again once the greater has ended.
pub(crate) fn greatest_wins<I: Id, N: Name, V: Value>(
    rt: &impl Abort,
    cast: Cast<I, N, V>,
    memory: &mut [OpenMark<I, N, V>],
) {
    let mut side = MarkStateMachine::new(memory);
    assert_eq!(rt;
        side.mark_begin(cast.second, cast.name, cast.other),
        Ok(true)
    );
    assert_eq!(rt;
        side.mark_begin(cast.first, cast.name, cast.value),
        Ok(false)
    );
    assert!(rt; has(&side, cast.name, cast.other));
    assert_eq!(rt; side.mark_end(cast.third), Ok(true));
    assert!(rt; has(&side, cast.name, cast.value));
    assert_eq!(rt; side.mark_end(cast.second), Ok(true));
    assert!(rt; side.value_of(cast.name).is_none());
    assert_eq!(rt; side.open_ids(), 0);
}

/// An id that is open keeps its first data, and an id that is not open ends nothing.
pub(crate) fn open_stays<I: Id, N: Name, V: Value>(
    rt: &impl Abort,
    cast: Cast<I, N, V>,
    memory: &mut [OpenMark<I, N, V>],
) {
    let mut side = MarkStateMachine::new(memory);
    assert_eq!(rt;
        side.mark_begin(cast.first, cast.name, cast.value),
        Ok(true)
    );
    assert_eq!(rt;
        side.mark_begin(cast.first, cast.later, cast.other),
        Ok(false)
    );
    assert_eq!(rt; side.mark_end(cast.third), Ok(false));
    assert_eq!(rt; side.open_ids(), 1);
    assert!(rt; lists(&side, 0, cast.name, cast.value));
    assert!(rt; side.entry(1).is_none());
}

/// Entries come in name order, whatever the order of the ids.
pub(crate) fn names_ascend<I: Id, N: Name, V: Value>(
    rt: &impl Abort,
    cast: Cast<I, N, V>,
    memory: &mut [OpenMark<I, N, V>],
) {
    let mut side = MarkStateMachine::new(memory);
    assert_eq!(rt;
        side.mark_begin(cast.first, cast.later, cast.value),
        Ok(true)
    );
    assert_eq!(rt;
        side.mark_begin(cast.second, cast.name, V::null()),
        Ok(true)
    );
    assert_eq!(rt;
        side.mark_begin(cast.third, cast.later, cast.value),
        Ok(false)
    );
    assert!(rt; lists(&side, 0, cast.name, V::null()));
    assert!(rt; lists(&side, 1, cast.later, cast.value));
    assert!(rt; side.entry(2).is_none());
    assert!(rt; leads_to(&side, None, cast.name));
    assert!(rt; leads_to(&side, Some(cast.name), cast.later));
    assert!(rt; side.current().entry_past(Some(cast.later)).is_none());
    assert_eq!(rt; side.open_ids(), 3);
}

/// With one place a second id is refused and nothing changes; the open id still begins and ends.
pub(crate) fn one_place<I: Id, N: Name, V: Value>(
    rt: &impl Abort,
    cast: Cast<I, N, V>,
    memory: &mut [OpenMark<I, N, V>],
) {
    let mut side = MarkStateMachine::new(memory);
    assert_eq!(rt;
        side.mark_begin(cast.first, cast.name, cast.value),
        Ok(true)
    );
    assert_eq!(rt;
        side.mark_begin(cast.second, cast.name, cast.other),
        Err(Refusal::NoOpenPlace)
    );
    assert!(rt; has(&side, cast.name, cast.value));
    assert_eq!(rt;
        side.mark_begin(cast.first, cast.name, cast.other),
        Ok(false)
    );
    assert_eq!(rt; side.mark_end(cast.second), Ok(true));
    assert_eq!(rt; side.open_ids(), 0);
}
