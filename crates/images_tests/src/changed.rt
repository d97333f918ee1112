// What an image comes to once a byte of it is changed: each other value of each byte is tried.
use super::asserting::assert_load;
use super::examples::{BOBBINS, EMPTY, ONE, PATH, TWO};
use keys::{Bobbin, Id, Path};
use kinds::{Key, Refusal, Value};
use std::process::Abort;
use store::{Store, start};
use tables::{EntryCell, NodeCell};
use values::{Flags, Limit, Register};

#[derive(Clone, Copy)]
enum Outcome {
    // it is the image of another map, of as many nodes and entries
    Fine,
    // at the header
    Foreign,
    Broken(usize),
}

use Outcome::{Broken, Fine, Foreign};

// From which offset to which, which bits of the new byte count and what they are, and what it comes to. Of a list of rules, the first that fits decides.
type Rule = (usize, usize, u8, u8, Outcome);

const EMPTY_RULES: [Rule; 3] = [
    (0, 0, 0, 0, Broken(0)),
    (1, 3, 0, 0, Foreign),
    (4, 8, 0, 0, Broken(4)),
];

const ONE_RULES: [Rule; 14] = [
    (0, 0, 0, 0, Broken(0)),
    (1, 3, 0, 0, Foreign),
    // an end, too, for its number is not 0
    (4, 4, 0, 0, Broken(4)),
    // the data map is 0; digit 9 is the first of several, so that another entry is due at 20; another digit is the first
    (5, 5, 0xFF, 0x00, Broken(4)),
    (5, 5, 0x03, 0x02, Broken(20)),
    (5, 6, 0, 0, Broken(9)),
    // the maps share digit 9; a child is due at 20
    (7, 7, 0x02, 0x02, Broken(4)),
    (7, 8, 0, 0, Broken(20)),
    (9, 9, 0, 0, Broken(9)),
    // digit 0 of the hash is 9 times the id's lowest four bits, modulo 16
    (10, 12, 0, 0, Fine),
    (13, 13, 0x0F, 0x01, Fine),
    (13, 13, 0, 0, Broken(9)),
    (14, 19, 0, 0, Fine),
    (20, 24, 0, 0, Broken(20)),
];

const TWO_RULES: [Rule; 28] = [
    (0, 0, 0, 0, Broken(0)),
    (1, 3, 0, 0, Foreign),
    (4, 4, 0, 0, Broken(4)),
    // the root's maps share digit 0; an entry is due at 9
    (6, 6, 0x01, 0x01, Broken(4)),
    (5, 6, 0, 0, Broken(9)),
    // another child is due at 36
    (7, 7, 0, 0, Broken(36)),
    // the root is empty; another child is due at 36; the child is not at digit 0
    (8, 8, 0xFF, 0x00, Broken(4)),
    (8, 8, 0x01, 0x01, Broken(36)),
    (8, 8, 0, 0, Broken(14)),
    (9, 9, 0, 0, Broken(9)),
    // the child has one entry, its maps being 0001 and 0000; digit 9 is the second of more than two; another digit is the second
    (10, 10, 0xFF, 0x00, Broken(9)),
    (10, 10, 0x03, 0x02, Broken(36)),
    (10, 10, 0, 0, Broken(25)),
    // the child has one entry; a digit comes between 0 and 9; digit 0 is not there
    (11, 11, 0xFF, 0x00, Broken(9)),
    (11, 11, 0x01, 0x01, Broken(25)),
    (11, 11, 0, 0, Broken(14)),
    // the child's maps share digit 9, or 0; a child is due at 36
    (12, 12, 0x02, 0x02, Broken(9)),
    (13, 13, 0x01, 0x01, Broken(9)),
    (12, 13, 0, 0, Broken(36)),
    (14, 14, 0, 0, Broken(14)),
    // digits 0 and 1 of the hash follow from the id's lowest byte, and differ for any two
    (15, 17, 0, 0, Fine),
    (18, 18, 0, 0, Broken(14)),
    (19, 24, 0, 0, Fine),
    (25, 25, 0, 0, Broken(25)),
    (26, 28, 0, 0, Fine),
    (29, 29, 0, 0, Broken(25)),
    (30, 35, 0, 0, Fine),
    (36, 40, 0, 0, Broken(36)),
];

// From the node at depth 7 on.
const BOBBINS_RULES: [Rule; 22] = [
    (39, 39, 0, 0, Broken(39)),
    // the maps share digit 0; an entry is due at 44
    (41, 41, 0x01, 0x01, Broken(39)),
    (40, 41, 0, 0, Broken(44)),
    // another child is due at 58
    (42, 42, 0, 0, Broken(58)),
    // the node is empty; another child is due at 58; the child is not at digit 0
    (43, 43, 0xFF, 0x00, Broken(39)),
    (43, 43, 0x01, 0x01, Broken(58)),
    (43, 43, 0, 0, Broken(46)),
    (44, 44, 0, 0, Broken(44)),
    // no entry, or one; another is due at 58, up to 16; more than 16
    (45, 45, 0xFE, 0x00, Broken(44)),
    (45, 45, 0xF0, 0x00, Broken(58)),
    (45, 45, 0xFF, 0x10, Broken(58)),
    (45, 45, 0, 0, Broken(44)),
    (46, 46, 0, 0, Broken(46)),
    // of the same hash, but not before 4; of another hash
    (47, 47, 0x03, 0x00, Broken(52)),
    (47, 47, 0, 0, Broken(46)),
    (48, 51, 0, 0, Fine),
    (52, 52, 0, 0, Broken(52)),
    // not after 0; after 0 and of the same hash; of another hash
    (53, 53, 0xFF, 0x00, Broken(52)),
    (53, 53, 0x03, 0x00, Fine),
    (53, 53, 0, 0, Broken(52)),
    (54, 57, 0, 0, Fine),
    (58, 62, 0, 0, Broken(58)),
];

const PATH_RULES: [Rule; 17] = [
    (0, 0, 0, 0, Broken(0)),
    (1, 3, 0, 0, Foreign),
    (4, 4, 0, 0, Broken(4)),
    // the data map is 0; digit C is the first of several, so that another entry is due at 38; another digit is the first
    (5, 5, 0xFF, 0x00, Broken(4)),
    (5, 5, 0x1F, 0x10, Broken(38)),
    (5, 6, 0, 0, Broken(9)),
    // the maps share digit C; a child is due at 38
    (7, 7, 0x10, 0x10, Broken(4)),
    (7, 8, 0, 0, Broken(38)),
    (9, 9, 0, 0, Broken(9)),
    // 01 and 11 are no text; another text of one byte has the digit C if its lowest four bits are 1: 5 XOR 1, times 3
    (10, 10, 0xEF, 0x01, Broken(9)),
    (10, 10, 0x8F, 0x01, Fine),
    (10, 10, 0, 0, Broken(9)),
    // 08 and 18 are no text; "a" and one more byte have the digit C if that byte's lowest four bits are 8: C XOR 8, times 3
    (11, 11, 0xEF, 0x08, Broken(9)),
    (11, 11, 0x8F, 0x08, Fine),
    // a byte comes after the filling
    (11, 33, 0, 0, Broken(9)),
    (34, 37, 0, 0, Fine),
    (38, 42, 0, 0, Broken(38)),
];

// What the rules say of a byte put at an offset.
fn ruled(rules: &[Rule], offset: usize, byte: u8) -> Option<Outcome> {
    for (from, to, mask, bits, outcome) in rules {
        if *from <= offset && offset <= *to && byte & *mask == *bits {
            return Some(*outcome);
        }
    }
    None
}

// Tries each other value of each byte from an offset on of an image of so many nodes and entries.
fn assert_changes<K: Key, V: Value, const N: usize>(
    rt: &impl Abort,
    store: &mut Store<K, V>,
    image: &[u8; N],
    from: usize,
    took: (usize, usize),
    rules: &[Rule],
) {
    for offset in from..N {
        for byte in 0..=255 {
            let mut changed = *image;
            changed[offset] = byte;
            if byte != image[offset] {
                let wanted = match ruled(rules, offset, byte).expect(rt, "a rule") {
                    Fine => Ok(took),
                    Foreign => Err(Refusal::Foreign { at: 0 }),
                    Broken(at) => Err(Refusal::Broken { at }),
                };
                assert_load(rt, store, &changed, wanted);
            }
        }
    }
}

#[test]
fn ids(rt: HostRuntime) {
    let mut nodes = [NodeCell::empty(); 2];
    let mut entries: [EntryCell<Id, Register>; 2] = [EntryCell::empty(); 2];
    let Ok(mut store) = start(&mut nodes, &mut entries) else {
        rt.panic("not started")
    };
    assert_changes(&rt, &mut store, &EMPTY, 0, (0, 0), &EMPTY_RULES);
    assert_changes(&rt, &mut store, &ONE, 0, (1, 1), &ONE_RULES);
    assert_changes(&rt, &mut store, &TWO, 0, (2, 2), &TWO_RULES);
}

#[test]
fn bobbins(rt: HostRuntime) {
    let mut nodes = [NodeCell::empty(); 9];
    let mut entries: [EntryCell<Bobbin, Limit>; 2] = [EntryCell::empty(); 2];
    let Ok(mut store) = start(&mut nodes, &mut entries) else {
        rt.panic("not started")
    };
    assert_changes(&rt, &mut store, &BOBBINS, 39, (9, 2), &BOBBINS_RULES);
}

#[test]
fn a_path(rt: HostRuntime) {
    let mut nodes = [NodeCell::empty(); 1];
    let mut entries: [EntryCell<Path, Flags>; 1] = [EntryCell::empty(); 1];
    let Ok(mut store) = start(&mut nodes, &mut entries) else {
        rt.panic("not started")
    };
    assert_changes(&rt, &mut store, &PATH, 0, (1, 1), &PATH_RULES);
}
