//! The small file with one byte changed, for each field that has a rule.
use crate::small::SMALL;
use file::house_file::HouseFile;
use house::bad::{BadFile, Part, Wrong};
use kinds::refusal::Refusal;
use std::test::Fail;

/// A byte that is changed, and what is then reported.
#[derive(Clone, Copy)]
struct Spoilt {
    at: usize,
    byte: u8,
    // A number and no `Refusal`: the test compares the one that the format gives.
    number: u8,
    reported: usize,
    part: Part,
    wrong: Wrong,
}

const SPOILT: [Spoilt; 27] = [
    // a length above 32
    Spoilt {
        at: 4,
        byte: 33,
        number: 15,
        reported: 4,
        part: Part::NameLength,
        wrong: Wrong::Broken(Refusal::TooLong),
    },
    // ill-formed
    Spoilt {
        at: 5,
        byte: 255,
        number: 1,
        reported: 5,
        part: Part::NameBytes,
        wrong: Wrong::Broken(Refusal::IllFormedText),
    },
    // no such kind
    Spoilt {
        at: 13,
        byte: 10,
        number: 14,
        reported: 13,
        part: Part::ValueKind,
        wrong: Wrong::Broken(Refusal::Malformed),
    },
    // a type code
    Spoilt {
        at: 14,
        byte: 1,
        number: 14,
        reported: 14,
        part: Part::TypeCode,
        wrong: Wrong::Broken(Refusal::Malformed),
    },
    // a Boolean of two bytes
    Spoilt {
        at: 15,
        byte: 2,
        number: 14,
        reported: 15,
        part: Part::ValueLength,
        wrong: Wrong::Broken(Refusal::Malformed),
    },
    // a Boolean that is 2
    Spoilt {
        at: 16,
        byte: 2,
        number: 14,
        reported: 16,
        part: Part::ValueBytes,
        wrong: Wrong::Broken(Refusal::Malformed),
    },
    // no such tag
    Spoilt {
        at: 21,
        byte: 3,
        number: 14,
        reported: 21,
        part: Part::Tag,
        wrong: Wrong::Broken(Refusal::Malformed),
    },
    // no such action
    Spoilt {
        at: 22,
        byte: 8,
        number: 14,
        reported: 22,
        part: Part::Action,
        wrong: Wrong::Broken(Refusal::Malformed),
    },
    // a Set with a name
    Spoilt {
        at: 22,
        byte: 3,
        number: 14,
        reported: 23,
        part: Part::NameNumber,
        wrong: Wrong::Broken(Refusal::Malformed),
    },
    // a name that is not there
    Spoilt {
        at: 23,
        byte: 1,
        number: 14,
        reported: 23,
        part: Part::NameNumber,
        wrong: Wrong::Broken(Refusal::Malformed),
    },
    // a Mark with a name and a value that is not there
    Spoilt {
        at: 25,
        byte: 1,
        number: 14,
        reported: 25,
        part: Part::ValueNumber,
        wrong: Wrong::Broken(Refusal::Malformed),
    },
    // not 0
    Spoilt {
        at: 27,
        byte: 1,
        number: 14,
        reported: 27,
        part: Part::FirstZero,
        wrong: Wrong::Broken(Refusal::Malformed),
    },
    // not 0
    Spoilt {
        at: 28,
        byte: 255,
        number: 14,
        reported: 28,
        part: Part::SecondZero,
        wrong: Wrong::Broken(Refusal::Malformed),
    },
    // a Mark with a text start
    Spoilt {
        at: 37,
        byte: 1,
        number: 14,
        reported: 37,
        part: Part::TextStart,
        wrong: Wrong::Broken(Refusal::Malformed),
    },
    // a Mark with a text length
    Spoilt {
        at: 44,
        byte: 1,
        number: 14,
        reported: 41,
        part: Part::TextLength,
        wrong: Wrong::Broken(Refusal::Malformed),
    },
    // a Mark in place of the Set, which has a text
    Spoilt {
        at: 46,
        byte: 7,
        number: 14,
        reported: 65,
        part: Part::TextLength,
        wrong: Wrong::Broken(Refusal::Malformed),
    },
    // a text that begins past the text
    Spoilt {
        at: 61,
        byte: 3,
        number: 14,
        reported: 61,
        part: Part::TextStart,
        wrong: Wrong::Broken(Refusal::Malformed),
    },
    // a text that ends past it
    Spoilt {
        at: 61,
        byte: 1,
        number: 14,
        reported: 65,
        part: Part::TextLength,
        wrong: Wrong::Broken(Refusal::Malformed),
    },
    // a text that is longer than it
    Spoilt {
        at: 65,
        byte: 3,
        number: 14,
        reported: 65,
        part: Part::TextLength,
        wrong: Wrong::Broken(Refusal::Malformed),
    },
    // a block with a name
    Spoilt {
        at: 71,
        byte: 0,
        number: 14,
        reported: 71,
        part: Part::NameNumber,
        wrong: Wrong::Broken(Refusal::Malformed),
    },
    // a block with a value
    Spoilt {
        at: 74,
        byte: 0,
        number: 14,
        reported: 73,
        part: Part::ValueNumber,
        wrong: Wrong::Broken(Refusal::Malformed),
    },
    // no names: the name is read as the count of the values
    Spoilt {
        at: 0,
        byte: 0,
        number: 14,
        reported: 8,
        part: Part::ValueKind,
        wrong: Wrong::Broken(Refusal::Malformed),
    },
    // no values: the value is read as the count of the records
    Spoilt {
        at: 9,
        byte: 0,
        number: 14,
        reported: 17,
        part: Part::Tag,
        wrong: Wrong::Broken(Refusal::Malformed),
    },
    // four records: the text's count is read as a record
    Spoilt {
        at: 17,
        byte: 4,
        number: 14,
        reported: 95,
        part: Part::NameNumber,
        wrong: Wrong::Broken(Refusal::Malformed),
    },
    // two records: the third is read as the text
    Spoilt {
        at: 17,
        byte: 2,
        number: 14,
        reported: 73,
        part: Part::Text,
        wrong: Wrong::Cut,
    },
    // less text than the Set has
    Spoilt {
        at: 93,
        byte: 1,
        number: 14,
        reported: 65,
        part: Part::TextLength,
        wrong: Wrong::Broken(Refusal::Malformed),
    },
    // more text than there is
    Spoilt {
        at: 93,
        byte: 3,
        number: 14,
        reported: 97,
        part: Part::Text,
        wrong: Wrong::Cut,
    },
];

#[test]
fn every_field(rt: HostRuntime) -> Result<(), Fail> {
    for spoilt in SPOILT {
        let mut bytes = SMALL;
        if let Some(byte) = bytes.get_mut(spoilt.at) {
            *byte = spoilt.byte;
        }
        let mut file = HouseFile::empty();
        let Err(bad) = file.read(&bytes) else {
            return Err(Fail::new("a spoilt file is good"));
        };
        assert_eq!(rt; bad.byte, spoilt.reported);
        assert_eq!(rt; bad.part, spoilt.part);
        assert_eq!(rt; bad.wrong, spoilt.wrong);
        assert_eq!(rt; bad.refusal().number(), spoilt.number);
    }
    Ok(())
}

/// A counter and an actor may be any.
#[test]
fn any_id(rt: HostRuntime) -> Result<(), Fail> {
    // By number: the places of these bytes are what the test is about.
    for at in 29..37 {
        let mut bytes = SMALL;
        bytes[at] = 255;
        let mut file = HouseFile::empty();
        file.read(&bytes)?;
        assert_eq!(rt; file.records(), 3);
    }
    Ok(())
}

/// The small file, in which the Set has the value, and no text.
fn with_value() -> [u8; 99] {
    let mut bytes = SMALL;
    bytes[49] = 0;
    bytes[50] = 0;
    bytes[65] = 0;
    bytes
}

/// A Set may have a value, which is no text.
#[test]
fn a_set_with_a_value(rt: HostRuntime) -> Result<(), Fail> {
    let bytes = with_value();
    let mut file = HouseFile::empty();
    file.read(&bytes)?;
    let Some(set) = file.record(1) else {
        return Err(Fail::new("no record"));
    };
    assert!(rt; matches!((set.value, set.text), (Some(0), None)));
    let mut of_text = with_value();
    of_text[13] = 1;
    let Err(bad) = file.read(&of_text) else {
        return Err(Fail::new("a Set with a value of kind Str is good"));
    };
    assert_eq!(rt; bad.byte, 49);
    assert_eq!(rt; bad.part, Part::ValueNumber);
    Ok(())
}

/// The small file, and a byte behind it.
fn with_one_more() -> [u8; 100] {
    let mut bytes = [0; 100];
    bytes[..99].copy_from_slice(&SMALL);
    bytes
}

/// Nothing may stand behind the text.
#[test]
fn one_byte_more(rt: HostRuntime) -> Result<(), Fail> {
    let bytes = with_one_more();
    let mut file = HouseFile::empty();
    let Err(bad) = file.read(&bytes) else {
        return Err(Fail::new("a byte behind the text is good"));
    };
    assert_eq!(rt; bad.byte, 99);
    assert_eq!(rt; bad.part, Part::End);
    assert!(rt; !bad.is_cut());
    Ok(())
}
