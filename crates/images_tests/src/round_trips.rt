// A version that puts made has the image that was worked out, and that image loads as an equal version.
use super::asserting::{assert_published, assert_puts, assert_saved};
use super::examples::{BOBBINS, EMPTY, FULL, ONE, PATH, SIXTEEN, THREE, TWO};
use keys::{Bobbin, Id, Path};
use kinds::{Key, Refusal, Value};
use std::process::Abort;
use store::{Store, start};
use tables::{EntryCell, NodeCell};
use values::{Flags, Limit, Register};

// The version at place 0 and the one that is loaded at place 1 from its image, which takes so many nodes and entries. Then both are gone.
fn assert_loads_back<K: Key, V: Value>(
    rt: &impl Abort,
    store: &mut Store<K, V>,
    image: &[u8],
    took: (usize, usize),
) {
    assert_eq!(rt; store.load(1, image), Ok(took));
    assert_eq!(rt; store.compare(0, 1), Ok(true));
    assert_saved(rt, store, 0, image);
    assert_saved(rt, store, 1, image);
    assert_eq!(rt; store.retire(0), Ok(()));
    assert_saved(rt, store, 1, image);
    assert_eq!(rt; store.retire(1), Ok(()));
    assert_eq!(rt; store.free(), (32, 32));
}

// The puts of a version, with the nodes that each takes, and its image.
fn assert_round_trip<K: Key, V: Value>(
    rt: &impl Abort,
    store: &mut Store<K, V>,
    settings: &[(K, V, usize)],
    image: &[u8],
    took: (usize, usize),
) {
    let draft = store.open(0).expect(rt, "an empty place");
    assert_puts(rt, store, &draft, settings);
    assert_saved(rt, store, 0, image);
    assert_published(rt, store, draft);
    assert_loads_back(rt, store, image, took);
}

#[test]
fn ids(rt: HostRuntime) {
    let zero = Register {
        stamp: 5,
        offset: 2,
    };
    let one = Register {
        stamp: 7,
        offset: -3,
    };
    let sixteen = Register {
        stamp: 0x0102_0304,
        offset: -32768,
    };
    let mut nodes = [NodeCell::empty(); 32];
    let mut entries: [EntryCell<Id, Register>; 32] = [EntryCell::empty(); 32];
    let Ok(mut store) = start(&mut nodes, &mut entries) else {
        rt.panic("not started")
    };
    assert_round_trip(&rt, &mut store, &[], &EMPTY, (0, 0));
    let settings = [(Id { number: 1 }, one, 1)];
    assert_round_trip(&rt, &mut store, &settings, &ONE, (1, 1));
    let settings = [(Id { number: 16 }, sixteen, 1), (Id { number: 0 }, zero, 2)];
    assert_round_trip(&rt, &mut store, &settings, &TWO, (2, 2));
    let settings = [
        (Id { number: 16 }, sixteen, 1),
        (Id { number: 1 }, one, 1),
        (Id { number: 0 }, zero, 2),
    ];
    assert_round_trip(&rt, &mut store, &settings, &THREE, (2, 3));
}

#[test]
fn ids_of_all_digits(rt: HostRuntime) {
    let mut nodes = [NodeCell::empty(); 32];
    let mut entries: [EntryCell<Id, Register>; 32] = [EntryCell::empty(); 32];
    let Ok(mut store) = start(&mut nodes, &mut entries) else {
        rt.panic("not started")
    };
    let none = Register {
        stamp: 0,
        offset: 0,
    };
    let mut settings = [(Id { number: 0 }, none, 1); 16];
    for number in 0..16 {
        let value = Register {
            stamp: number,
            offset: 0,
        };
        settings[number as usize] = (Id { number }, value, 1);
    }
    assert_round_trip(&rt, &mut store, &settings, &FULL, (1, 16));
}

#[test]
fn a_path(rt: HostRuntime) {
    let mut nodes = [NodeCell::empty(); 32];
    let mut entries: [EntryCell<Path, Flags>; 32] = [EntryCell::empty(); 32];
    let Ok(mut store) = start(&mut nodes, &mut entries) else {
        rt.panic("not started")
    };
    let settings = [(
        Path::new(b"a").expect(&rt, "a path"),
        Flags { set: 0x11 },
        1,
    )];
    assert_round_trip(&rt, &mut store, &settings, &PATH, (1, 1));
}

// The highest come first.
#[test]
fn bobbins(rt: HostRuntime) {
    let mut nodes = [NodeCell::empty(); 32];
    let mut entries: [EntryCell<Bobbin, Limit>; 32] = [EntryCell::empty(); 32];
    let Ok(mut store) = start(&mut nodes, &mut entries) else {
        rt.panic("not started")
    };
    let zero = Limit { number: 5 };
    let four = Limit {
        number: 168_496_141,
    };
    let two = [
        (Bobbin { number: 4 }, four, 1),
        (Bobbin { number: 0 }, zero, 9),
    ];
    assert_round_trip(&rt, &mut store, &two, &BOBBINS, (9, 2));
    let mut sixteen = [(Bobbin { number: 60 }, Limit { number: 115 }, 1); 16];
    for i in 1..16 {
        let key = Bobbin { number: 60 - 4 * i };
        let value = Limit {
            number: 115 - u32::from(i),
        };
        sixteen[usize::from(i)] = (key, value, 9);
    }
    assert_round_trip(&rt, &mut store, &sixteen, &SIXTEEN, (9, 16));
}

// Sixteen bobbins that were loaded have no place for another of their hash, but for one of another.
#[test]
fn crowded(rt: HostRuntime) {
    let mut nodes = [NodeCell::empty(); 32];
    let mut entries: [EntryCell<Bobbin, Limit>; 32] = [EntryCell::empty(); 32];
    let Ok(mut store) = start(&mut nodes, &mut entries) else {
        rt.panic("not started")
    };
    let value = Limit { number: 116 };
    assert_eq!(rt; store.load(0, &SIXTEEN), Ok((9, 16)));
    let draft = store.open_from(1, 0).expect(&rt, "an empty place");
    let put = store.put(&draft, &Bobbin { number: 64 }, &value);
    assert_eq!(rt; put, Err(Refusal::Crowded));
    assert_eq!(rt; store.compare(0, 1), Ok(true));
    // a new root and a new entry
    let put = store.put(&draft, &Bobbin { number: 65 }, &value);
    assert_eq!(rt; put, Ok((1, 1)));
    assert_eq!(rt; store.compare(0, 1), Ok(false));
    assert_published(&rt, &mut store, draft);
}
