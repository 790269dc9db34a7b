//! A lent memory on examples.
use crate::places::{NoPlace, Places};

#[test]
fn items_keep_their_order(rt: HostRuntime) {
    let mut memory = [9u8; 4];
    let mut places = Places::new(&mut memory);
    assert!(rt; places.insert(0, 3).is_ok());
    assert!(rt; places.insert(0, 1).is_ok());
    assert!(rt; places.insert(1, 2).is_ok());
    assert!(rt; places.push(4).is_ok());
    assert!(rt; places.all() == [1, 2, 3, 4].as_slice());
    assert_eq!(rt; places.push(5), Err(NoPlace::Full));
    assert_eq!(rt; places.insert(2, 5), Err(NoPlace::Full));
    assert!(rt; places.all() == [1, 2, 3, 4].as_slice());
    assert_eq!(rt; places.remove(1), Some(2));
    assert_eq!(rt; places.remove(3), None);
    assert!(rt; places.all() == [1, 3, 4].as_slice());
    assert_eq!(rt; places.len(), 3);
    assert_eq!(rt; places.capacity(), 4);
}

#[test]
fn a_place_past_the_end_is_refused_first(rt: HostRuntime) {
    let mut memory = [0u16; 1];
    let mut places = Places::new(&mut memory);
    assert_eq!(rt; places.insert(1, 7), Err(NoPlace::Outside));
    assert!(rt; places.insert(0, 7).is_ok());
    assert_eq!(rt; places.insert(2, 7), Err(NoPlace::Outside));
    assert_eq!(rt; places.insert(1, 7), Err(NoPlace::Full));
}

#[test]
fn no_memory_holds_nothing(rt: HostRuntime) {
    let mut memory = [0u8; 0];
    let mut places = Places::new(&mut memory);
    assert_eq!(rt; places.push(1), Err(NoPlace::Full));
    assert_eq!(rt; places.remove(0), None);
    assert!(rt; places.all().is_empty());
}
