//! Lines that are operations, and lines that are none.
use crate::operation::{Mistake, Operation, Problem, read_operation};
use crate::words::first_line;
use kinds::document::{OpId, ScalarValue, ShortStr};
use marks::mark::OpenMark;
use std::process::Abort;
use std::test::Fail;

/// The mark that a line begins.
fn begun(line: &[u8]) -> Result<OpenMark<OpId, ShortStr, ScalarValue>, Problem> {
    match read_operation(line)? {
        Operation::Begin { id, name, value } => Ok(OpenMark { id, name, value }),
        Operation::End { .. } => Err(Problem::Mistaken(Mistake::UnknownWord)),
    }
}

/// A line begins this mark.
fn begins(
    rt: &impl Abort,
    line: &[u8],
    id: OpId,
    name: &[u8],
    value: ScalarValue,
) -> Result<(), Fail> {
    let mark = begun(line)?;
    assert_eq!(rt; mark.id, id);
    assert!(rt; mark.name.bytes() == name);
    assert!(rt; mark.value == value);
    Ok(())
}

/// The id that a line ends, if it is an end.
fn ends(line: &[u8]) -> Result<Option<OpId>, Problem> {
    match read_operation(line)? {
        Operation::End { id } => Ok(Some(id)),
        Operation::Begin { .. } => Ok(None),
    }
}

/// The number with which the library refuses what a line spells.
fn refused(line: &[u8]) -> Option<u8> {
    match read_operation(line) {
        Err(Problem::Refused(refusal)) => Some(refusal.number()),
        _ => None,
    }
}

/// What is wrong with a line that is no operation.
fn wrong(rt: &HostRuntime, line: &[u8]) -> Result<String, Fail> {
    match read_operation(line) {
        Err(Problem::Mistaken(mistake)) => Ok(mistake.to_string(rt.alloc())?),
        _ => Err(Fail::new("an operation")),
    }
}

fn op(counter: u32, actor: u32) -> OpId {
    OpId { counter, actor }
}

#[test]
fn operations(rt: HostRuntime) -> Result<(), Fail> {
    let lane = b" begin\t4294967295@0  lane -12 \r";
    begins(
        &rt,
        b"begin 3@1 void true",
        op(3, 1),
        b"void",
        ScalarValue::Boolean(true),
    )?;
    begins(&rt, lane, op(4294967295, 0), b"lane", ScalarValue::Int(-12))?;
    begins(
        &rt,
        b"begin 0@0 \xC3\xA9 null",
        op(0, 0),
        b"\xC3\xA9",
        ScalarValue::Null,
    )?;
    assert_eq!(rt; ends(b"end 4@1")?, Some(op(4, 1)));
    Ok(())
}

#[test]
fn what_the_library_refuses(rt: HostRuntime) {
    assert_eq!(rt; refused(b"begin 1@0 \xED\xA0\x80 1"), Some(1));
    assert_eq!(rt; refused(b"begin 1@0 void \xFF"), Some(1));
    assert_eq!(rt;
        refused(b"begin 1@0 abcdefghijklmnopqrstuvwxyz0123456 1"),
        Some(15)
    );
    assert_eq!(rt;
        refused(b"begin 1@0 abcdefghijklmnopqrstuvwxyz012345 1"),
        None
    );
}

#[test]
fn no_operations(rt: HostRuntime) -> Result<(), Fail> {
    assert_eq!(rt; wrong(&rt, b"")?.as_str(), "The line is empty.");
    assert_eq!(rt;
        wrong(&rt, b"open 1@0")?.as_str(),
        "An operation begins with begin or end."
    );
    assert_eq!(rt; wrong(&rt, b"end")?.as_str(), "The id is missing.");
    assert_eq!(rt;
        wrong(&rt, b"end 1")?.as_str(),
        "An id is counter@actor, two numbers of 32 bits."
    );
    assert_eq!(rt;
        wrong(&rt, b"end 4294967296@0")?.as_str(),
        "An id is counter@actor, two numbers of 32 bits."
    );
    assert_eq!(rt;
        wrong(&rt, b"end 1@0@0")?.as_str(),
        "An id is counter@actor, two numbers of 32 bits."
    );
    assert_eq!(rt; wrong(&rt, b"begin 1@0")?.as_str(), "The name is missing.");
    assert_eq!(rt;
        wrong(&rt, b"begin 1@0 void")?.as_str(),
        "The value is missing."
    );
    assert_eq!(rt;
        wrong(&rt, b"begin 1@0 void -9223372036854775809")?.as_str(),
        "The integer does not fit 64 bits."
    );
    assert_eq!(rt;
        wrong(&rt, b"end 1@0 2@0")?.as_str(),
        "More words follow than the operation has."
    );
    Ok(())
}

#[test]
fn lines(rt: HostRuntime) {
    let (line, rest) = first_line(b"one\n\ntwo");
    assert!(rt; line == b"one".as_slice() && rest == b"\ntwo".as_slice());
    let (empty, last) = first_line(rest);
    assert!(rt; empty.is_empty() && last == b"two".as_slice());
    let (line, rest) = first_line(last);
    assert!(rt; line == b"two".as_slice() && rest.is_empty());
}
