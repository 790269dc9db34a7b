//! Reads mark operations, a line each, and prints the set of open marks after each of them.
#![tactic(auto)]

mod operation;
mod report;
#[cfg(test)]
mod tests;
mod words;

use crate::operation::{Operation, Problem, read_operation};
use crate::report::{Tally, answer};
use crate::words::first_line;
use anyhow::anyhow;
use kinds::document::{OpId, ScalarValue, ShortStr};
use marks::machine::MarkStateMachine;
use marks::mark::OpenMark;
use std::env;
use std::io::Read;

/// How many marks may be open at a time, unless the first argument says another number.
const PLACES: usize = 256;

type Side<'a> = MarkStateMachine<'a, OpId, ShortStr, ScalarValue>;

/// What the library makes of a line: whether the set changed, or why the line changes nothing.
fn taken(side: &mut Side<'_>, line: &[u8]) -> Result<bool, Problem> {
    match read_operation(line)? {
        Operation::Begin { id, name, value } => Ok(side.mark_begin(id, name, value)?),
        Operation::End { id } => Ok(side.mark_end(id)?),
    }
}

/// How many places the first argument asks for.
fn places(rt: &HostRuntime) -> anyhow::Result<usize> {
    let mut args = env::args(rt)?;
    let _program = args.next();
    let Some(word) = args.next() else {
        return Ok(PLACES);
    };
    word.as_str()
        .parse()
        .map_err(|_| anyhow!("the argument is not a number of places"))
}

fn run(rt: &HostRuntime) -> anyhow::Result<()> {
    let heap = rt.alloc();
    let Ok(name) = ShortStr::new(b"") else {
        return Err(anyhow!("the empty name is refused"));
    };
    let id = OpId {
        counter: 0,
        actor: 0,
    };
    let value = ScalarValue::Null;
    let free = OpenMark { id, name, value };
    let Ok(mut memory) = vec![in heap; free; places(rt)?] else {
        return Err(anyhow!("there is no memory for so many places"));
    };
    let mut side = MarkStateMachine::new(memory.as_mut_slice());
    let mut input = Vec::new(heap);
    let _count = rt.stdin().read_to_end(&mut input)?;
    let mut rest = input.as_slice();
    let mut tally = Tally::default();
    while !rest.is_empty() {
        let (line, after) = first_line(rest);
        let outcome = taken(&mut side, line);
        answer(rt, &mut tally, &side, outcome)?;
        rest = after;
    }
    rt.println(tally)?;
    Ok(())
}

fn main(rt: HostRuntime) -> anyhow::Result<()> {
    run(&rt)
}
