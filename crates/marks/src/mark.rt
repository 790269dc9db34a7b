//! A mark that is open, and an entry of a set of marks.

/// An open mark: the id that began it, with the name and value of that begin.
#[derive(Clone, Copy)]
pub struct OpenMark<I, N, V> {
    pub id: I,
    pub name: N,
    pub value: V,
}

/// A name with the value that a set gives it.
#[derive(Clone, Copy)]
pub struct Entry<N, V> {
    pub name: N,
    pub value: V,
}
