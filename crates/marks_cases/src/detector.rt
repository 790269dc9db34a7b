//! The scenes of the detector kind.
use crate::scenes::{Cast, greatest_wins, names_ascend, one_place, open_stays};
use kinds::detector::{Channel, DetectorId, Grade};
use kinds::refusal::Refusal;
use marks::machine::MarkStateMachine;
use marks::mark::OpenMark;

fn cast() -> Cast<DetectorId, Channel, Grade> {
    Cast {
        first: DetectorId { number: 70 },
        second: DetectorId { number: 71 },
        third: DetectorId { number: 72 },
        name: Channel { number: 3 },
        later: Channel { number: 400 },
        value: Grade { level: 8 },
        other: Grade { level: 9 },
    }
}

fn free() -> OpenMark<DetectorId, Channel, Grade> {
    OpenMark {
        id: DetectorId { number: 0 },
        name: Channel { number: 0 },
        value: Grade { level: 0 },
    }
}

#[test]
fn scenes(rt: HostRuntime) {
    let mut memory = [free(); 3];
    greatest_wins(&rt, cast(), &mut memory);
    open_stays(&rt, cast(), &mut memory);
    names_ascend(&rt, cast(), &mut memory);
    one_place(&rt, cast(), &mut memory[0..1]);
}

/// Place 0 has no predecessor to end.
#[test]
fn first_place_ends_nothing(rt: HostRuntime) {
    let mut memory = [free(); 1];
    let mut side = MarkStateMachine::new(&mut memory);
    assert_eq!(rt;
        side.mark_end(DetectorId { number: 0 }),
        Err(Refusal::NoPredecessor)
    );
    assert_eq!(rt; side.mark_end(DetectorId { number: 1 }), Ok(false));
}
