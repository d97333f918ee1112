// Loads that are refused for the place or for want of room, and images that go on after their end.
use super::asserting::{assert_load, assert_published};
use super::examples::{BOBBINS, EMPTY, FULL, ONE, PATH, SIXTEEN, THREE, TWO};
use keys::{Bobbin, Id};
use kinds::{Key, Refusal, Value};
use std::process::Abort;
use store::{Store, start};
use tables::{EntryCell, NodeCell};
use values::{Limit, Register};

// One more byte, or two, behind an image.
fn assert_longer<K: Key, V: Value>(rt: &impl Abort, store: &mut Store<K, V>, image: &[u8]) {
    let at = image.len();
    assert!(rt; at <= 190);
    for byte in [0x00, 0x45, 0x4E, 0x56, 0x5A, 0xFF] {
        let mut longer = [byte; 192];
        longer[..at].copy_from_slice(image);
        assert_load(rt, store, &longer[..at + 1], Err(Refusal::Broken { at }));
        assert_load(rt, store, &longer[..at + 2], Err(Refusal::Broken { at }));
    }
}

#[test]
fn more_after_ids(rt: HostRuntime) {
    let mut nodes = [NodeCell::empty(); 32];
    let mut entries: [EntryCell<Id, Register>; 32] = [EntryCell::empty(); 32];
    let Ok(mut store) = start(&mut nodes, &mut entries) else {
        rt.panic("not started")
    };
    assert_longer(&rt, &mut store, &EMPTY);
    assert_longer(&rt, &mut store, &ONE);
    assert_longer(&rt, &mut store, &TWO);
    assert_longer(&rt, &mut store, &THREE);
    assert_longer(&rt, &mut store, &FULL);
}

#[test]
fn more_after_bobbins(rt: HostRuntime) {
    let mut nodes = [NodeCell::empty(); 32];
    let mut entries: [EntryCell<Bobbin, Limit>; 32] = [EntryCell::empty(); 32];
    let Ok(mut store) = start(&mut nodes, &mut entries) else {
        rt.panic("not started")
    };
    assert_longer(&rt, &mut store, &BOBBINS);
    assert_longer(&rt, &mut store, &SIXTEEN);
}

#[test]
fn places(rt: HostRuntime) {
    let mut nodes = [NodeCell::empty(); 2];
    let mut entries: [EntryCell<Id, Register>; 2] = [EntryCell::empty(); 2];
    let Ok(mut store) = start(&mut nodes, &mut entries) else {
        rt.panic("not started")
    };
    let draft = store.open(1).expect(&rt, "an empty place");
    assert_eq!(rt; store.load(63, &ONE), Ok((1, 1)));
    for image in [&ONE as &[u8], &TWO, &TWO[..30], &PATH, &[]] {
        assert_eq!(rt; store.load(64, image), Err(Refusal::NoSuchPlace));
        assert_eq!(rt; store.load(0xFFFF_FFFF, image), Err(Refusal::NoSuchPlace));
        assert_eq!(rt; store.load(63, image), Err(Refusal::PlaceTaken));
        assert_eq!(rt; store.load(1, image), Err(Refusal::PlaceTaken));
    }
    assert_eq!(rt; store.free(), (1, 1));
    assert_published(&rt, &mut store, draft);
}

// Ids 0 and 16 take two of each table, and the empty map takes nothing. A fault of the image goes before.
fn assert_room<K: Key, V: Value>(
    rt: &impl Abort,
    nodes: &mut [NodeCell],
    entries: &mut [EntryCell<K, V>],
    wanted: Result<(usize, usize), Refusal>,
) {
    let Ok(mut store) = start(nodes, entries) else {
        rt.panic("not started")
    };
    assert_eq!(rt; store.load(0, &TWO[..30]), Err(Refusal::Cut { at: 25 }));
    assert_eq!(rt; store.load(1, &EMPTY), Ok((0, 0)));
    assert_eq!(rt; store.load(0, &TWO), wanted);
}

#[test]
fn room(rt: HostRuntime) {
    let node = NodeCell::empty();
    let entry: EntryCell<Id, Register> = EntryCell::empty();
    assert_room(&rt, &mut [node; 2], &mut [entry; 2], Ok((2, 2)));
    assert_room(&rt, &mut [node; 1], &mut [entry; 2], Err(Refusal::NoRoom));
    assert_room(&rt, &mut [node; 2], &mut [entry; 1], Err(Refusal::NoRoom));
    assert_room(&rt, &mut [node; 0], &mut [entry; 0], Err(Refusal::NoRoom));
}
