//! What is printed of an operation.
use crate::Side;
use crate::operation::Problem;
use kinds::document::ScalarValue;
use std::iter::successors;
use std::{fmt, io};

/// How many lines there were, by what became of them.
#[derive(Clone, Copy, Default)]
pub(crate) struct Tally {
    lines: u64,
    taken: u64,
    refused: u64,
    mistaken: u64,
}

impl Tally {
    /// Counts a line.
    fn count(&mut self, outcome: &Result<bool, Problem>) {
        let column = match outcome {
            Ok(_) => &mut self.taken,
            Err(Problem::Refused(_)) => &mut self.refused,
            Err(Problem::Mistaken(_)) => &mut self.mistaken,
        };
        *column = column.saturating_add(1);
        self.lines = self.lines.saturating_add(1);
    }
}

impl fmt::Display for Tally {
    fn fmt<W: fmt::Write>(&self, f: &mut fmt::Formatter<W>) -> fmt::Result {
        let taken = self.taken;
        let refused = self.refused;
        let mistaken = self.mistaken;
        write!(
            f,
            "{taken} taken, {refused} refused, {mistaken} no operation"
        )
    }
}

/// A value as it is written.
#[derive(Clone, Copy)]
struct Shown(ScalarValue);

impl fmt::Display for Shown {
    fn fmt<W: fmt::Write>(&self, f: &mut fmt::Formatter<W>) -> fmt::Result {
        match self.0 {
            ScalarValue::Int(number) => write!(f, "{number}"),
            ScalarValue::Boolean(truth) => write!(f, "{truth}"),
            ScalarValue::Null => write!(f, "null"),
            ScalarValue::Str(text) => {
                let text = text.as_str();
                write!(f, "{text}")
            }
            other => {
                let kind = other.kind_number();
                write!(f, "kind {kind}")
            }
        }
    }
}

/// Prints the set in name order.
fn print_set(rt: &HostRuntime, side: &Side<'_>) -> io::Result<()> {
    let set = side.current();
    let entries = successors(set.entry_past(None), |last| set.entry_past(Some(last.name)));
    for entry in entries.take(side.open_ids()) {
        let name = entry.name.as_str();
        let value = Shown(entry.value);
        print!(rt; " {name}={value}")?;
    }
    Ok(())
}

/// Counts a line, and prints what became of it.
pub(crate) fn answer(
    rt: &HostRuntime,
    tally: &mut Tally,
    side: &Side<'_>,
    outcome: Result<bool, Problem>,
) -> io::Result<()> {
    tally.count(&outcome);
    let line = tally.lines;
    match outcome {
        Ok(changed) => {
            let verb = if changed { "changed" } else { "same" };
            let open = side.open_ids();
            print!(rt; "{line}: {verb}, {open} open:")?;
            print_set(rt, side)?;
            println!(rt; "")
        }
        Err(problem) => println!(rt; "{line}: {problem}"),
    }
}
