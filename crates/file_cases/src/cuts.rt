//! Every front of the small file is refused at the field that it cuts.
use crate::small::SMALL;
use file::house_file::HouseFile;
use house::bad::Part;
use kinds::refusal::Refusal;
use std::test::Fail;

/// The fields of the small file: which part each is, its first byte, and how many it has.
const FIELDS: [(Part, usize, usize); 41] = [
    (Part::NamesCount, 0, 4),
    (Part::NameLength, 4, 1),
    (Part::NameBytes, 5, 4),
    (Part::ValuesCount, 9, 4),
    (Part::ValueKind, 13, 1),
    (Part::TypeCode, 14, 1),
    (Part::ValueLength, 15, 1),
    (Part::ValueBytes, 16, 1),
    (Part::RecordsCount, 17, 4),
    (Part::Tag, 21, 1),
    (Part::Action, 22, 1),
    (Part::NameNumber, 23, 2),
    (Part::ValueNumber, 25, 2),
    (Part::FirstZero, 27, 1),
    (Part::SecondZero, 28, 1),
    (Part::Counter, 29, 4),
    (Part::Actor, 33, 4),
    (Part::TextStart, 37, 4),
    (Part::TextLength, 41, 4),
    (Part::Tag, 45, 1),
    (Part::Action, 46, 1),
    (Part::NameNumber, 47, 2),
    (Part::ValueNumber, 49, 2),
    (Part::FirstZero, 51, 1),
    (Part::SecondZero, 52, 1),
    (Part::Counter, 53, 4),
    (Part::Actor, 57, 4),
    (Part::TextStart, 61, 4),
    (Part::TextLength, 65, 4),
    (Part::Tag, 69, 1),
    (Part::Action, 70, 1),
    (Part::NameNumber, 71, 2),
    (Part::ValueNumber, 73, 2),
    (Part::FirstZero, 75, 1),
    (Part::SecondZero, 76, 1),
    (Part::Counter, 77, 4),
    (Part::Actor, 81, 4),
    (Part::TextStart, 85, 4),
    (Part::TextLength, 89, 4),
    (Part::TextCount, 93, 4),
    (Part::Text, 97, 2),
];

/// The field that is cut where the file ends before byte `end`.
fn cut_field(end: usize) -> Option<(Part, usize)> {
    let (part, first, _) = FIELDS
        .iter()
        .find(|(_, first, size)| first.saturating_add(*size) > end)?;
    Some((*part, *first))
}

#[test]
fn every_cut(rt: HostRuntime) -> Result<(), Fail> {
    for end in 0..99 {
        let mut file = HouseFile::empty();
        let Err(bad) = file.read(&SMALL[..end]) else {
            return Err(Fail::new("a cut file is good"));
        };
        let Some((part, first)) = cut_field(end) else {
            return Err(Fail::new("no field is cut"));
        };
        assert_eq!(rt; bad.byte, first);
        assert_eq!(rt; bad.part, part);
        assert!(rt; bad.is_cut());
        assert_eq!(rt; bad.refusal(), Refusal::Malformed);
    }
    assert!(rt; matches!(cut_field(99), None));
    Ok(())
}
