//! The source over a file, alone and under layers.
use crate::small::SMALL;
use file::house_file::HouseFile;
use file_source::FileSource;
use house::bad::BadFile;
use kinds::refusal::Refusal;
use sources::clock::Clock;
use sources::clocked::Clocked;
use sources::fault::Fault;
use sources::record::Action;
use sources::source::Source;
use sources::window::Window;
use std::process::Abort;
use std::test::Fail;

/// The first record has this row and action.
fn first<S: Source>(rt: &impl Abort, source: &mut S, row: u64, action: Action) -> Result<(), Fail> {
    let Some(record) = source.look()? else {
        return Err(Fail::new("no record"));
    };
    assert_eq!(rt; record.row, row);
    assert_eq!(rt; record.action, action);
    Ok(())
}

#[test]
fn alone(rt: HostRuntime) -> Result<(), Fail> {
    let mut file = HouseFile::empty();
    file.read(&SMALL)?;
    let mut source = FileSource::new(file);
    assert_eq!(rt; source.height(), 0);
    first(&rt, &mut source, 0, Action::Mark)?;
    assert_eq!(rt; source.text(0), None);
    source.step();
    first(&rt, &mut source, 1, Action::Set)?;
    assert_eq!(rt; source.text(1), Some(b'0'));
    assert_eq!(rt; source.text(2), None);
    assert_eq!(rt; source.text(u64::MAX), None);
    source.step();
    first(&rt, &mut source, 2, Action::MakeMap)?;
    source.step();
    assert!(rt; matches!(source.look(), Ok(None)));
    source.step();
    assert!(rt; matches!(source.look(), Ok(None)));
    Ok(())
}

#[test]
fn under_layers(rt: HostRuntime) -> Result<(), Fail> {
    let mut file = HouseFile::empty();
    file.read(&SMALL)?;
    let Some(clock) = Clock::new(&[3]) else {
        return Err(Fail::new("no clock"));
    };
    let covered = Clocked::new(Window::new(FileSource::new(file), 1, 9), clock);
    let mut pile = Window::new(covered, 0, 5);
    assert_eq!(rt; pile.height(), 3);
    first(&rt, &mut pile, 1, Action::Set)?;
    assert_eq!(rt; pile.text(0), Some(b'0'));
    pile.step();
    assert!(rt; matches!(pile.look(), Ok(None)));
    Ok(())
}

#[test]
fn a_fault_from_within(rt: HostRuntime) -> Result<(), Fail> {
    let mut file = HouseFile::empty();
    file.read(&SMALL)?;
    let Some(clock) = Clock::new(&[]) else {
        return Err(Fail::new("no clock"));
    };
    let covered = Clocked::new(Window::new(FileSource::new(file), 1, 9), clock);
    let mut pile = Window::new(covered, 0, 5);
    let Err(fault) = pile.look() else {
        return Err(Fail::new("no fault"));
    };
    assert_eq!(rt;
        fault,
        Fault {
            refusal: Refusal::ActorUnknown,
            row: 1,
            height: 2,
        }
    );
    Ok(())
}
