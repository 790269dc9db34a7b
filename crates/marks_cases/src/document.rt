//! The scenes and the worked examples of the document kind.
use crate::scenes::{Cast, greatest_wins, has, names_ascend, one_place, open_stays};
use kinds::document::{FloatBits, OpId, ScalarValue, ShortStr};
use kinds::refusal::Refusal;
use marks::machine::MarkStateMachine;
use marks::mark::OpenMark;
use std::test::Fail;

fn op(counter: u32, actor: u32) -> OpId {
    OpId { counter, actor }
}

fn cast() -> Result<Cast<OpId, ShortStr, ScalarValue>, Refusal> {
    Ok(Cast {
        first: op(3, 1),
        second: op(4, 1),
        third: op(5, 1),
        name: ShortStr::new(b"movement")?,
        later: ShortStr::new(b"void")?,
        value: ScalarValue::Boolean(true),
        other: ScalarValue::Int(-2),
    })
}

fn free() -> Result<OpenMark<OpId, ShortStr, ScalarValue>, Refusal> {
    Ok(OpenMark {
        id: op(0, 0),
        name: ShortStr::new(b"")?,
        value: ScalarValue::Null,
    })
}

#[test]
fn scenes(rt: HostRuntime) -> Result<(), Fail> {
    let mut memory = [free()?; 3];
    greatest_wins(&rt, cast()?, &mut memory);
    open_stays(&rt, cast()?, &mut memory);
    names_ascend(&rt, cast()?, &mut memory);
    one_place(&rt, cast()?, &mut memory[0..1]);
    Ok(())
}

/// Begin 1@0 void=1, begin 3@1 void=2, end 4@1: void is 1.
#[test]
fn older_value_stands_again(rt: HostRuntime) -> Result<(), Fail> {
    let mut memory = [free()?; 2];
    let mut side = MarkStateMachine::new(&mut memory);
    let void = ShortStr::new(b"void")?;
    assert_eq!(rt;
        side.mark_begin(op(1, 0), void, ScalarValue::Int(1)),
        Ok(true)
    );
    assert_eq!(rt;
        side.mark_begin(op(3, 1), void, ScalarValue::Int(2)),
        Ok(true)
    );
    assert_eq!(rt; side.mark_end(op(4, 1)), Ok(true));
    assert!(rt; has(&side, void, ScalarValue::Int(1)));
    Ok(())
}

/// Of 1@0 and 1@1 the greater actor wins, and 0@0 has no predecessor to end.
#[test]
fn actors_break_ties(rt: HostRuntime) -> Result<(), Fail> {
    let mut memory = [free()?; 2];
    let mut side = MarkStateMachine::new(&mut memory);
    let void = ShortStr::new(b"void")?;
    assert_eq!(rt;
        side.mark_begin(op(1, 1), void, ScalarValue::Boolean(true)),
        Ok(true)
    );
    assert_eq!(rt;
        side.mark_begin(op(1, 0), void, ScalarValue::Boolean(false)),
        Ok(false)
    );
    assert!(rt; has(&side, void, ScalarValue::Boolean(true)));
    assert_eq!(rt; side.mark_end(op(0, 1)), Err(Refusal::NoPredecessor));
    assert_eq!(rt; side.open_ids(), 2);
    Ok(())
}

/// Zeros of either sign are equal, so a begin of one over the other changes no set.
#[test]
fn equal_values_change_nothing(rt: HostRuntime) -> Result<(), Fail> {
    let mut memory = [free()?; 2];
    let mut side = MarkStateMachine::new(&mut memory);
    let weight = ShortStr::new(b"weight")?;
    assert_eq!(rt;
        side.mark_begin(op(1, 0), weight, ScalarValue::F64(FloatBits { bits: 0 })),
        Ok(true)
    );
    assert_eq!(rt;
        side.mark_begin(
            op(2, 0),
            weight,
            ScalarValue::F64(FloatBits { bits: 1 << 63 })
        ),
        Ok(false)
    );
    assert_eq!(rt; side.mark_end(op(3, 0)), Ok(false));
    Ok(())
}

/// No places, no open mark: an id is refused, and an end finds nothing.
#[test]
fn without_memory(rt: HostRuntime) -> Result<(), Fail> {
    let mut memory = [free()?; 0];
    let mut side = MarkStateMachine::new(&mut memory);
    let void = ShortStr::new(b"void")?;
    assert_eq!(rt;
        side.mark_begin(op(1, 0), void, ScalarValue::Null),
        Err(Refusal::NoOpenPlace)
    );
    assert_eq!(rt; side.mark_end(op(2, 0)), Ok(false));
    assert!(rt; side.entry(0).is_none());
    Ok(())
}
