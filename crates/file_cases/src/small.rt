//! A file of one name, one value, three records and two bytes of text, and what it holds.
use file::fields::FileRecord;
use file::house_file::HouseFile;
use house::bad::BadFile;
use kinds::document::{OpId, ScalarValue};
use sources::record::{Action, Diff};
use std::process::Abort;
use std::test::Fail;

/// The bytes of the file.
pub(crate) const SMALL: [u8; 99] = [
    0x01, 0x00, 0x00, 0x00, 0x04, 0x76, 0x6f, 0x69, 0x64, 0x01, 0x00, 0x00, 0x00, 0x07, 0x00, 0x01,
    0x01, 0x03, 0x00, 0x00, 0x00, 0x01, 0x07, 0x00, 0x00, 0x00, 0x00, 0x00, 0x00, 0x01, 0x00, 0x00,
    0x00, 0x00, 0x00, 0x00, 0x00, 0x00, 0x00, 0x00, 0x00, 0x00, 0x00, 0x00, 0x00, 0x01, 0x03, 0xff,
    0xff, 0xff, 0xff, 0x00, 0x00, 0x03, 0x00, 0x00, 0x00, 0x00, 0x00, 0x00, 0x00, 0x00, 0x00, 0x00,
    0x00, 0x02, 0x00, 0x00, 0x00, 0x01, 0x00, 0xff, 0xff, 0xff, 0xff, 0x00, 0x00, 0x04, 0x00, 0x00,
    0x00, 0x00, 0x00, 0x00, 0x00, 0x00, 0x00, 0x00, 0x00, 0x00, 0x00, 0x00, 0x00, 0x02, 0x00, 0x00,
    0x00, 0x30, 0x30,
];

fn has_record(
    rt: &impl Abort,
    record: Option<FileRecord>,
    action: Action,
    counter: u32,
) -> Result<(), Fail> {
    let Some(record) = record else {
        return Err(Fail::new("no record"));
    };
    assert_eq!(rt; record.tag, Diff::Add);
    assert_eq!(rt; record.action, action);
    assert_eq!(rt; record.id, OpId { counter, actor: 0 });
    Ok(())
}

#[test]
fn what_it_holds(rt: HostRuntime) -> Result<(), Fail> {
    let mut file = HouseFile::empty();
    file.read(&SMALL)?;
    assert_eq!(rt; file.names(), 1);
    let Some(name) = file.name(0) else {
        return Err(Fail::new("no name"));
    };
    assert_eq!(rt; name.as_str(), "void");
    assert!(rt; matches!(file.name(1), None));
    assert_eq!(rt; file.values(), 1);
    let Some(value) = file.value(0) else {
        return Err(Fail::new("no value"));
    };
    assert!(rt; value == ScalarValue::Boolean(true));
    assert!(rt; matches!(file.value(1), None));
    assert!(rt; file.text() == b"00".as_slice());
    Ok(())
}

#[test]
fn its_records(rt: HostRuntime) -> Result<(), Fail> {
    let mut file = HouseFile::empty();
    file.read(&SMALL)?;
    assert_eq!(rt; file.records(), 3);
    has_record(&rt, file.record(0), Action::Mark, 1)?;
    has_record(&rt, file.record(1), Action::Set, 3)?;
    has_record(&rt, file.record(2), Action::MakeMap, 4)?;
    assert!(rt; matches!(file.record(3), None));
    let Some(set) = file.record(1) else {
        return Err(Fail::new("no record"));
    };
    assert!(rt; matches!((set.name, set.value), (None, None)));
    let Some(text) = set.text else {
        return Err(Fail::new("no text"));
    };
    assert!(rt; text.start == 0 && text.len == 2);
    Ok(())
}

/// What is refused leaves the file that was read before.
#[test]
fn a_refusal_changes_nothing(rt: HostRuntime) -> Result<(), Fail> {
    let mut file = HouseFile::empty();
    assert!(rt;
        file.names() == 0 && file.values() == 0 && file.records() == 0 && file.text().is_empty()
    );
    file.read(&SMALL)?;
    assert!(rt; file.read(&[1, 0, 0, 0, 33]).is_err());
    assert_eq!(rt; file.records(), 3);
    assert!(rt; file.text() == b"00".as_slice());
    Ok(())
}
