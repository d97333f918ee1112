// Every image that is cut is refused with 8 at the command that is not all there.
use super::asserting::assert_load;
use super::examples::{BOBBINS, EMPTY, FULL, ONE, PATH, SIXTEEN, THREE, TWO};
use keys::{Bobbin, Id, Path};
use kinds::{Key, Refusal, Value};
use std::process::Abort;
use store::{Store, start};
use tables::{EntryCell, NodeCell};
use values::{Flags, Limit, Register};

// An image of which no byte, one, and so on up to all but one are left is cut at the last command that begins within it or right behind it.
fn assert_cuts<K: Key, V: Value>(
    rt: &impl Abort,
    store: &mut Store<K, V>,
    image: &[u8],
    commands: &[usize],
) {
    let mut at = 0;
    for length in 0..image.len() {
        if commands.contains(&length) {
            at = length;
        }
        assert_load(rt, store, &image[..length], Err(Refusal::Cut { at }));
    }
}

#[test]
fn ids(rt: HostRuntime) {
    let mut nodes = [NodeCell::empty(); 32];
    let mut entries: [EntryCell<Id, Register>; 32] = [EntryCell::empty(); 32];
    let Ok(mut store) = start(&mut nodes, &mut entries) else {
        rt.panic("not started")
    };
    assert_cuts(&rt, &mut store, &EMPTY, &[0, 4]);
    assert_cuts(&rt, &mut store, &ONE, &[0, 4, 9, 20]);
    assert_cuts(&rt, &mut store, &TWO, &[0, 4, 9, 14, 25, 36]);
    assert_cuts(&rt, &mut store, &THREE, &[0, 4, 9, 20, 25, 36, 47]);
    let full = [
        0, 4, 9, 20, 31, 42, 53, 64, 75, 86, 97, 108, 119, 130, 141, 152, 163, 174, 185,
    ];
    assert_cuts(&rt, &mut store, &FULL, &full);
}

#[test]
fn bobbins(rt: HostRuntime) {
    let mut nodes = [NodeCell::empty(); 32];
    let mut entries: [EntryCell<Bobbin, Limit>; 32] = [EntryCell::empty(); 32];
    let Ok(mut store) = start(&mut nodes, &mut entries) else {
        rt.panic("not started")
    };
    let two = [0, 4, 9, 14, 19, 24, 29, 34, 39, 44, 46, 52, 58];
    let sixteen = [
        0, 4, 9, 14, 19, 24, 29, 34, 39, 44, 46, 52, 58, 64, 70, 76, 82, 88, 94, 100, 106, 112,
        118, 124, 130, 136, 142,
    ];
    assert_cuts(&rt, &mut store, &BOBBINS, &two);
    assert_cuts(&rt, &mut store, &SIXTEEN, &sixteen);
}

#[test]
fn a_path(rt: HostRuntime) {
    let mut nodes = [NodeCell::empty(); 32];
    let mut entries: [EntryCell<Path, Flags>; 32] = [EntryCell::empty(); 32];
    let Ok(mut store) = start(&mut nodes, &mut entries) else {
        rt.panic("not started")
    };
    assert_cuts(&rt, &mut store, &PATH, &[0, 4, 9, 38]);
}
