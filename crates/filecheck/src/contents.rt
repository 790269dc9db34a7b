//! What a good file holds, as it is printed.
use file::house_file::HouseFile;
use kinds::kind::ValueKind;
use measures::code_points::CodePoints;
use measures::judge::well_formed;
use measures::measure::Measure;
use sources::record::{Action, Diff};
use std::{fmt, io};

/// How many records have each tag.
#[derive(Clone, Copy, Default)]
struct ByTag {
    same: u32,
    add: u32,
    del: u32,
}

impl ByTag {
    fn count(&mut self, tag: Diff) {
        let column = match tag {
            Diff::Same => &mut self.same,
            Diff::Add => &mut self.add,
            Diff::Del => &mut self.del,
        };
        *column = column.saturating_add(1);
    }

    fn is_empty(self) -> bool {
        let ByTag { same, add, del } = self;
        same == 0 && add == 0 && del == 0
    }
}

impl fmt::Display for ByTag {
    fn fmt<W: fmt::Write>(&self, f: &mut fmt::Formatter<W>) -> fmt::Result {
        let ByTag { same, add, del } = *self;
        write!(f, "{same} Same, {add} Add, {del} Del")
    }
}

/// How many of a section's items can be asked for by number.
fn referred(count: u32) -> u16 {
    u16::try_from(count).unwrap_or(u16::MAX)
}

/// Prints how many items there are past those that records can refer to, if any.
fn print_rest(rt: &HostRuntime, count: u32) -> io::Result<()> {
    match count.saturating_sub(u32::from(u16::MAX)) {
        0 => Ok(()),
        rest => println!(rt; "  and {rest} more, to which no record can refer"),
    }
}

/// A good file, and where it is printed.
#[derive(Clone, Copy)]
pub(crate) struct Contents<'a> {
    pub(crate) rt: &'a HostRuntime,
    pub(crate) file: &'a HouseFile<'a>,
}

impl<'a> Contents<'a> {
    fn print_names(&self) -> io::Result<()> {
        let count = self.file.names();
        println!(self.rt; "{count} names")?;
        for (i, name) in (0..referred(count)).filter_map(|i| Some((i, self.file.name(i)?))) {
            let text = name.as_str();
            println!(self.rt; "  {i} {text:?}")?;
        }
        print_rest(self.rt, count)
    }

    // Arrays and no maps: once the input is read, nothing takes memory, so no good file is printed in part for want of it.
    /// How many values there are of each kind, in the order of the kinds' numbers.
    fn by_kind(&self) -> [u32; 10] {
        let mut numbers = [0u32; 10];
        for value in (0..referred(self.file.values())).filter_map(|i| self.file.value(i)) {
            if let Some(number) = numbers.get_mut(usize::from(value.kind_number())) {
                *number = number.saturating_add(1);
            }
        }
        numbers
    }

    fn print_values(&self) -> io::Result<()> {
        let count = self.file.values();
        println!(self.rt; "{count} values")?;
        let kinds = (0..u8::MAX).filter_map(|number| ValueKind::try_from(number).ok());
        for (kind, number) in kinds.zip(self.by_kind()) {
            if number > 0 {
                println!(self.rt; "  {number} {kind}")?;
            }
        }
        print_rest(self.rt, count)
    }

    /// How many records of each action have each tag, in the order of the actions' numbers.
    fn by_action(&self) -> [ByTag; 8] {
        let mut numbers = [ByTag::default(); 8];
        for record in (0..self.file.records()).filter_map(|i| self.file.record(i)) {
            if let Some(by_tag) = numbers.get_mut(usize::from(record.action.number())) {
                by_tag.count(record.tag);
            }
        }
        numbers
    }

    fn print_records(&self) -> io::Result<()> {
        let count = self.file.records();
        println!(self.rt; "{count} records")?;
        let actions = (0..u8::MAX).filter_map(|number| Action::try_from(number).ok());
        for (action, by_tag) in actions.zip(self.by_action()) {
            if !by_tag.is_empty() {
                println!(self.rt; "  {action}: {by_tag}")?;
            }
        }
        Ok(())
    }

    fn print_text(&self) -> io::Result<()> {
        let text = self.file.text();
        let bytes = text.len();
        if !well_formed(text) {
            return println!(self.rt; "{bytes} bytes of text, not well-formed as a whole");
        }
        match CodePoints.width(text) {
            Some(points) => println!(self.rt; "{bytes} bytes of text, {points} code points"),
            None => println!(self.rt; "{bytes} bytes of text, more than 4294967295 code points"),
        }
    }

    /// Prints the names, the values by kind, the records by action and tag, and the size of the text.
    pub(crate) fn print(&self) -> io::Result<()> {
        self.print_names()?;
        self.print_values()?;
        self.print_records()?;
        self.print_text()
    }
}
