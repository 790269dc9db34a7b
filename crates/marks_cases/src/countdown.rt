//! The scenes of a kind whose types have no `==` and no `cmp`: a step of a countdown is an id by one order and a name by another.
ghost use Rattle.std.specs.Prelude.{◌+◌, ◌/◌, cond, Some, None, ◌==◌, nat_lt};
ghost use Rattle.std.proofs.Common.{rules};

use crate::scenes::{Cast, greatest_wins, names_ascend, one_place, open_stays};
use kinds::interfaces::{Id, Name, Value};
use kinds::refusal::Refusal;
use marks::machine::MarkStateMachine;
use marks::mark::OpenMark;
use std::cmp::Ordering;

/// The actor of every step.
const ONLY_ACTOR: usize = 0;

/// A step of a countdown, by what is left.
#[derive(Clone, Copy)]
struct Step {
    left: u32,
}

// As an id a step is below those with less left.
impl Id for Step {
    ghost below = { λ x y. nat_lt y.left x.left };

    ghost actor = { λ _. 0 };

    ghost counter = { λ step. step.left };

    ghost previous = { λ step. cond (step.left == 4294967295) None (Some (record { left = step.left + 1 })) };

    ghost ordered = { Prim.search rules };

    fn order(&self, other: &Step) -> Ordering {
        other.left.cmp(&self.left)
    }

    fn actor(&self) -> usize {
        ONLY_ACTOR
    }

    fn counter(&self) -> u64 {
        u64::from(self.left)
    }

    /// The step with one more left.
    fn prev(&self) -> Option<Step> {
        let left = self.left.checked_add(1)?;
        Some(Step { left })
    }
}

// As a name it is below those with more left.
impl Name for Step {
    ghost below = { λ x y. nat_lt x.left y.left };

    ghost ordered = { Prim.search rules };

    fn order(&self, other: &Step) -> Ordering {
        self.left.cmp(&other.left)
    }
}

/// A shade, of which sixteen that follow one another are equal; the darkest are null.
#[derive(Clone, Copy)]
struct Shade {
    level: u8,
}

impl Value for Shade {
    ghost equal = { λ x y. x.level / 16 == y.level / 16 };

    ghost null = { record { level = 0 } };

    ghost equality = { Prim.search rules };

    fn same(&self, other: &Shade) -> bool {
        self.level / 16 == other.level / 16
    }

    fn null() -> Shade {
        Shade { level: 0 }
    }

    fn is_null(&self) -> bool {
        self.level / 16 == 0
    }
}

fn cast() -> Cast<Step, Step, Shade> {
    Cast {
        first: Step { left: 9 },
        second: Step { left: 8 },
        third: Step { left: 7 },
        name: Step { left: 1 },
        later: Step { left: 2 },
        value: Shade { level: 40 },
        other: Shade { level: 50 },
    }
}

fn free() -> OpenMark<Step, Step, Shade> {
    OpenMark {
        id: Step { left: 0 },
        name: Step { left: 0 },
        value: Shade { level: 0 },
    }
}

#[test]
fn scenes(rt: HostRuntime) {
    let mut memory = [free(); 3];
    greatest_wins(&rt, cast(), &mut memory);
    open_stays(&rt, cast(), &mut memory);
    names_ascend(&rt, cast(), &mut memory);
    one_place(&rt, cast(), &mut memory[0..1]);
}

/// The step with the most left has no predecessor to end, and an equal shade changes no set.
#[test]
fn first_step_ends_nothing(rt: HostRuntime) {
    let mut memory = [free(); 2];
    let mut side = MarkStateMachine::new(&mut memory);
    let name = Step { left: 5 };
    assert_eq!(rt;
        side.mark_end(Step { left: u32::MAX }),
        Err(Refusal::NoPredecessor)
    );
    assert_eq!(rt;
        side.mark_begin(Step { left: 9 }, name, Shade { level: 40 }),
        Ok(true)
    );
    assert_eq!(rt;
        side.mark_begin(Step { left: 8 }, name, Shade { level: 47 }),
        Ok(false)
    );
}
