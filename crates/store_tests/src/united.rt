// Unions: orders and bracketings that agree, what they share, and what they are refused for.
use super::asserting::{abandon, opened, publish};
use keys::{Bobbin, Id};
use kinds::Refusal;
use std::process::Abort;
use store::start;
use tables::{EntryCell, NodeCell};
use values::Limit;

fn limit(number: u32) -> Limit {
    Limit { number }
}

// Ids 0 and 1, ids 0 and 2, and id 0 alone: the larger limit of id 0 stays.
#[test]
fn three_in_two_bracketings(rt: HostRuntime) {
    let mut nodes = [NodeCell::empty(); 12];
    let mut entries: [EntryCell<Id, Limit>; 12] = [EntryCell::empty(); 12];
    let Ok(mut store) = start(&mut nodes, &mut entries) else {
        rt.panic("not started")
    };
    let zero = Id { number: 0 };
    let one = Id { number: 1 };
    let two = Id { number: 2 };
    let first = opened(&rt, &mut store, 1, &[(zero, limit(3)), (one, limit(8))]);
    publish(&rt, &mut store, first);
    let second = opened(&rt, &mut store, 2, &[(zero, limit(5)), (two, limit(8))]);
    publish(&rt, &mut store, second);
    let third = opened(&rt, &mut store, 3, &[(zero, limit(4))]);
    publish(&rt, &mut store, third);
    assert_eq!(rt;
        store.free(),
        (9, 7),
        "three roots and five entries are taken"
    );
    // a union with nothing is the first, whole
    let left = opened(&rt, &mut store, 4, &[]);
    assert_eq!(rt; store.union(&left, 1), Ok((0, 0)));
    // a new root: id 0 is the second's, id 1 the first's, id 2 the second's
    assert_eq!(rt; store.union(&left, 2), Ok((1, 0)));
    // the larger limit is there already
    assert_eq!(rt; store.union(&left, 3), Ok((0, 0)));
    assert_eq!(rt; store.union(&left, 2), Ok((0, 0)));
    publish(&rt, &mut store, left);
    let right = store.open_from(5, 3).expect(&rt, "an empty place");
    // the second has all of it
    assert_eq!(rt; store.union(&right, 2), Ok((0, 0)));
    assert_eq!(rt; store.compare(5, 2), Ok(true));
    assert_eq!(rt; store.union(&right, 1), Ok((1, 0)));
    publish(&rt, &mut store, right);
    assert_eq!(rt; store.compare(4, 5), Ok(true));
    assert_eq!(rt; store.look_up(5, &zero), Ok(Some(limit(5))));
    assert_eq!(rt; store.look_up(4, &one), Ok(Some(limit(8))));
    assert_eq!(rt; store.look_up(4, &two), Ok(Some(limit(8))));
    assert_eq!(rt; store.count(4), Ok(3));
    for place in [3, 1, 5, 2, 4] {
        assert_eq!(rt; store.retire(place), Ok(()));
    }
    assert_eq!(rt; store.free(), (12, 12), "all is free again");
}

// Sixteen bobbins of one hash, and a seventeenth: crowded goes before want of room.
#[test]
fn crowded(rt: HostRuntime) {
    let mut nodes = [NodeCell::empty(); 20];
    let mut entries: [EntryCell<Bobbin, Limit>; 27] = [EntryCell::empty(); 27];
    let Ok(mut store) = start(&mut nodes, &mut entries) else {
        rt.panic("not started")
    };
    let sixteen = opened(&rt, &mut store, 0, &[]);
    for i in 0u8..16 {
        let bobbin = Bobbin { number: 4 * i };
        assert!(rt; store.put(&sixteen, &bobbin, &limit(7)).is_ok());
    }
    publish(&rt, &mut store, sixteen);
    let same = opened(&rt, &mut store, 1, &[(Bobbin { number: 64 }, limit(7))]);
    publish(&rt, &mut store, same);
    let other = opened(&rt, &mut store, 2, &[(Bobbin { number: 1 }, limit(7))]);
    publish(&rt, &mut store, other);
    assert_eq!(rt; store.free(), (9, 9));
    // versions of one node and one entry each, until nothing is free
    for place in 10u32..19 {
        let more = opened(
            &rt,
            &mut store,
            place,
            &[(Bobbin { number: 2 }, limit(place))],
        );
        publish(&rt, &mut store, more);
    }
    assert_eq!(rt; store.free(), (0, 0));
    let draft = store.open_from(3, 0).expect(&rt, "an empty place");
    assert_eq!(rt; store.union(&draft, 1), Err(Refusal::Crowded));
    assert_eq!(rt; store.union(&draft, 2), Err(Refusal::NoRoom));
    assert_eq!(rt; store.merge(&draft, 2, 1), Err(Refusal::Crowded));
    assert_eq!(rt; store.union(&draft, 3), Err(Refusal::NotReadable));
    assert_eq!(rt; store.union(&draft, 9), Err(Refusal::NotReadable));
    assert_eq!(rt; store.union(&draft, 64), Err(Refusal::NoSuchPlace));
    assert_eq!(rt; store.union(&draft, 0), Ok((0, 0)));
    assert_eq!(rt; store.compare(3, 0), Ok(true));
    abandon(&rt, &mut store, draft);
    for place in 10u32..19 {
        assert_eq!(rt; store.retire(place), Ok(()));
    }
    for place in 0u32..3 {
        assert_eq!(rt; store.retire(place), Ok(()));
    }
    assert_eq!(rt; store.free(), (20, 27), "all is free again");
}
