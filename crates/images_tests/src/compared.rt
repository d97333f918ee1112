// Versions compared, and places where there is none to be compared or saved.
use super::asserting::{assert_published, assert_puts, assert_saved};
use super::examples::{BOBBINS, FULL, ONE, THREE};
use keys::{Bobbin, Id};
use kinds::Refusal;
use std::process::Abort;
use store::start;
use tables::{EntryCell, NodeCell};
use values::{Limit, Register};

// Ids 0, 1 and 16 in two orders. Then id 16 gets another offset, and its own again.
#[test]
fn two_orders(rt: HostRuntime) {
    let mut nodes = [NodeCell::empty(); 8];
    let mut entries: [EntryCell<Id, Register>; 8] = [EntryCell::empty(); 8];
    let Ok(mut store) = start(&mut nodes, &mut entries) else {
        rt.panic("not started")
    };
    let zero = Register {
        stamp: 5,
        offset: 2,
    };
    let one = Register {
        stamp: 7,
        offset: -3,
    };
    let sixteen = Register {
        stamp: 0x0102_0304,
        offset: -32768,
    };
    let other = Register {
        stamp: 0x0102_0304,
        offset: -32767,
    };
    let rising = store.open(0).expect(&rt, "an empty place");
    let falling = store.open(1).expect(&rt, "an empty place");
    assert_eq!(rt; store.compare(0, 1), Ok(true));
    let settings = [
        (Id { number: 0 }, zero, 1),
        (Id { number: 1 }, one, 1),
        (Id { number: 16 }, sixteen, 2),
    ];
    assert_puts(&rt, &mut store, &rising, &settings);
    assert_eq!(rt; store.compare(0, 1), Ok(false));
    let settings = [
        (Id { number: 16 }, sixteen, 1),
        (Id { number: 1 }, one, 1),
        (Id { number: 0 }, zero, 2),
    ];
    assert_puts(&rt, &mut store, &falling, &settings);
    assert_eq!(rt; store.compare(0, 1), Ok(true));
    assert_saved(&rt, &store, 0, &THREE);
    assert_saved(&rt, &store, 1, &THREE);
    assert_puts(&rt, &mut store, &rising, &[(Id { number: 16 }, other, 2)]);
    assert_eq!(rt; store.compare(0, 1), Ok(false));
    assert_eq!(rt; store.compare(1, 0), Ok(false));
    assert_eq!(rt; store.compare(0, 0), Ok(true));
    assert_puts(&rt, &mut store, &rising, &[(Id { number: 16 }, sixteen, 2)]);
    assert_eq!(rt; store.compare(1, 0), Ok(true));
    assert_published(&rt, &mut store, rising);
    assert_published(&rt, &mut store, falling);
}

// Two versions that differ at one of 16 digits.
#[test]
fn each_digit(rt: HostRuntime) {
    let mut nodes = [NodeCell::empty(); 4];
    let mut entries: [EntryCell<Id, Register>; 18] = [EntryCell::empty(); 18];
    let Ok(mut store) = start(&mut nodes, &mut entries) else {
        rt.panic("not started")
    };
    assert_eq!(rt; store.load(0, &FULL), Ok((1, 16)));
    for number in 0..16 {
        let draft = store.open_from(1, 0).expect(&rt, "an empty place");
        let other = Register {
            stamp: number,
            offset: 1,
        };
        assert_puts(&rt, &mut store, &draft, &[(Id { number }, other, 1)]);
        assert_eq!(rt; store.compare(0, 1), Ok(false), "id {number}");
        assert_published(&rt, &mut store, draft);
        assert_eq!(rt; store.retire(1), Ok(()));
    }
}

// Three keys of one hash, of which the first two are those of the other version.
#[test]
fn one_more_of_a_hash(rt: HostRuntime) {
    let mut nodes = [NodeCell::empty(); 18];
    let mut entries: [EntryCell<Bobbin, Limit>; 3] = [EntryCell::empty(); 3];
    let Ok(mut store) = start(&mut nodes, &mut entries) else {
        rt.panic("not started")
    };
    assert_eq!(rt; store.load(0, &BOBBINS), Ok((9, 2)));
    let draft = store.open_from(1, 0).expect(&rt, "an empty place");
    let third = (Bobbin { number: 8 }, Limit { number: 6 }, 9);
    assert_puts(&rt, &mut store, &draft, &[third]);
    assert_eq!(rt; store.compare(0, 1), Ok(false));
    assert_eq!(rt; store.compare(1, 0), Ok(false));
    assert_published(&rt, &mut store, draft);
}

#[test]
fn nothing_there(rt: HostRuntime) {
    let mut nodes = [NodeCell::empty(); 1];
    let mut entries: [EntryCell<Id, Register>; 1] = [EntryCell::empty(); 1];
    let Ok(mut store) = start(&mut nodes, &mut entries) else {
        rt.panic("not started")
    };
    let mut out = [0; 25];
    assert_eq!(rt; store.load(0, &ONE), Ok((1, 1)));
    assert_eq!(rt; store.compare(0, 5), Err(Refusal::NotReadable));
    assert_eq!(rt; store.compare(5, 0), Err(Refusal::NotReadable));
    assert_eq!(rt; store.compare(5, 64), Err(Refusal::NoSuchPlace));
    assert_eq!(rt; store.compare(64, 5), Err(Refusal::NoSuchPlace));
    assert_eq!(rt; store.save(5, &mut out), Err(Refusal::NotReadable));
    assert_eq!(rt; store.save(5, &mut []), Err(Refusal::NotReadable));
    assert_eq!(rt; store.save(64, &mut out), Err(Refusal::NoSuchPlace));
    assert_eq!(rt; store.retire(0), Ok(()));
    assert_eq!(rt; store.save(0, &mut out), Err(Refusal::NotReadable));
    assert_eq!(rt; store.compare(0, 0), Err(Refusal::NotReadable));
    assert!(rt; out.iter().all(|byte| *byte == 0), "{out:?}");
}
