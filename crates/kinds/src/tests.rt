//! Both kinds on examples.
use crate::detector::{Channel, DetectorId, Grade};
use crate::document::{FloatBits, OpId, ScalarValue, ShortBytes, ShortStr};
use crate::interfaces::{Id, Name, Value};
use crate::refusal::Refusal;
use std::cmp::Ordering;
use std::test::Fail;

#[test]
fn operations(rt: HostRuntime) {
    let first = OpId {
        counter: 1,
        actor: 0,
    };
    let second = OpId {
        counter: 1,
        actor: 1,
    };
    let third = OpId {
        counter: 2,
        actor: 0,
    };
    assert_eq!(rt; first.cmp(&second), Ordering::Less);
    assert_eq!(rt; third.cmp(&second), Ordering::Greater);
    assert_eq!(rt; second.cmp(&second), Ordering::Equal);
    assert_eq!(rt; first.order(&second), Ordering::Less);
    assert_eq!(rt; third.order(&second), Ordering::Greater);
    assert_eq!(rt; second.order(&second), Ordering::Equal);
    assert_eq!(rt;
        OpId {
            counter: 4,
            actor: 1,
        }
        .prev(),
        Some(OpId {
            counter: 3,
            actor: 1,
        })
    );
    assert_eq!(rt;
        OpId {
            counter: 0,
            actor: 7,
        }
        .prev(),
        None
    );
}

#[test]
fn detectors(rt: HostRuntime) {
    let place = DetectorId { number: 5 };
    assert_eq!(rt; place.cmp(&DetectorId { number: 6 }), Ordering::Less);
    assert_eq!(rt; place.order(&DetectorId { number: 6 }), Ordering::Less);
    assert_eq!(rt; place.prev(), Some(DetectorId { number: 4 }));
    assert_eq!(rt; DetectorId { number: 0 }.prev(), None);
    assert_eq!(rt;
        Channel { number: 9 }.cmp(&Channel { number: 9 }),
        Ordering::Equal
    );
    assert_eq!(rt;
        Channel { number: 9 }.order(&Channel { number: 9 }),
        Ordering::Equal
    );
    assert!(rt; Grade { level: 0 }.is_null());
    assert!(rt; Grade { level: 1 } != <Grade as Value>::null());
    assert!(rt; !Grade { level: 1 }.same(&<Grade as Value>::null()));
}

#[test]
fn short_bytes(rt: HostRuntime) -> Result<(), Fail> {
    assert_eq!(rt; ShortBytes::new(&[])?.bytes().len(), 0);
    assert_eq!(rt; ShortBytes::new(&[255; 32])?.bytes(), [255; 32].as_slice());
    assert!(rt; ShortBytes::new(&[1; 33]) == Err(Refusal::TooLong));
    Ok(())
}

#[test]
fn names(rt: HostRuntime) -> Result<(), Fail> {
    let a = ShortStr::new(b"a")?;
    let ab = ShortStr::new(b"ab")?;
    let b = ShortStr::new(b"b")?;
    assert_eq!(rt; a.cmp(&ab), Ordering::Less);
    assert_eq!(rt; ab.cmp(&b), Ordering::Less);
    assert_eq!(rt; ab.cmp(&ShortStr::new(b"ab")?), Ordering::Equal);
    assert_eq!(rt; a.order(&ab), Ordering::Less);
    assert_eq!(rt; ab.order(&b), Ordering::Less);
    assert_eq!(rt; ab.order(&ShortStr::new(b"ab")?), Ordering::Equal);
    assert_eq!(rt; ab.as_str(), "ab");
    Ok(())
}

#[test]
fn refused_names(rt: HostRuntime) {
    assert!(rt; ShortStr::new(&[0xC3]) == Err(Refusal::IllFormedText));
    assert!(rt; ShortStr::new(&[0xC3; 33]) == Err(Refusal::TooLong));
    assert_eq!(rt; Refusal::TooLong.number(), 15);
    assert_eq!(rt;
        Refusal::IllFormedText.words(),
        "The bytes are not well-formed UTF-8."
    );
}

#[test]
fn values(rt: HostRuntime) {
    let zero = ScalarValue::F64(FloatBits { bits: 0 });
    let negative_zero = ScalarValue::F64(FloatBits { bits: 1 << 63 });
    let nan = ScalarValue::F64(FloatBits {
        bits: 0x7FF8_0000_0000_0000,
    });
    assert!(rt; zero == negative_zero);
    assert!(rt; nan == nan && nan != zero);
    assert!(rt; ScalarValue::Int(1) != ScalarValue::Counter(1));
    assert!(rt; zero.same(&negative_zero));
    assert!(rt; nan.same(&nan) && !nan.same(&zero));
    assert!(rt; !ScalarValue::Int(1).same(&ScalarValue::Counter(1)));
    assert!(rt; ScalarValue::Null.is_null() && !ScalarValue::Boolean(false).is_null());
    assert_eq!(rt; ScalarValue::Null.kind_number(), 9);
}
