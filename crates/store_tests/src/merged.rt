// Merges: the rule key by key, what they share, and what they are refused for.
use super::asserting::{abandon, opened, publish};
use keys::Id;
use kinds::Refusal;
use std::process::Abort;
use store::start;
use tables::{EntryCell, NodeCell};
use values::Limit;

fn limit(number: u32) -> Limit {
    Limit { number }
}

// Id 0 is raised on both sides, id 1 taken out by ours, id 2 changed by theirs alone, id 3 by ours alone, id 16 added by theirs, id 32 by both alike.
#[test]
fn both_ways(rt: HostRuntime) {
    let mut nodes = [NodeCell::empty(); 32];
    let mut entries: [EntryCell<Id, Limit>; 32] = [EntryCell::empty(); 32];
    let Ok(mut store) = start(&mut nodes, &mut entries) else {
        rt.panic("not started")
    };
    let id = [0, 1, 2, 3, 16, 32].map(|number: u32| Id { number });
    let base = opened(
        &rt,
        &mut store,
        0,
        &[
            (id[0], limit(10)),
            (id[1], limit(10)),
            (id[2], limit(10)),
            (id[3], limit(10)),
        ],
    );
    publish(&rt, &mut store, base);
    let ours = store.open_from(1, 0).expect(&rt, "an empty place");
    assert_eq!(rt; store.put(&ours, &id[0], &limit(12)), Ok((1, 1)));
    assert_eq!(rt; store.remove(&ours, &id[1]), Ok((1, 0)));
    assert_eq!(rt; store.put(&ours, &id[3], &limit(2)), Ok((1, 1)));
    assert_eq!(rt; store.put(&ours, &id[5], &limit(6)), Ok((2, 1)));
    publish(&rt, &mut store, ours);
    let theirs = store.open_from(2, 0).expect(&rt, "an empty place");
    assert_eq!(rt; store.put(&theirs, &id[0], &limit(15)), Ok((1, 1)));
    assert_eq!(rt; store.put(&theirs, &id[2], &limit(1)), Ok((1, 1)));
    assert_eq!(rt; store.put(&theirs, &id[4], &limit(9)), Ok((2, 1)));
    assert_eq!(rt; store.put(&theirs, &id[5], &limit(6)), Ok((2, 1)));
    publish(&rt, &mut store, theirs);
    let one = store.open_from(3, 1).expect(&rt, "an empty place");
    // a new root over entries that one side has; ids 0, 16 and 32 are below one digit, and there the part is theirs
    assert_eq!(rt; store.merge(&one, 0, 2), Ok((1, 0)));
    publish(&rt, &mut store, one);
    let other = store.open_from(4, 2).expect(&rt, "an empty place");
    assert_eq!(rt; store.merge(&other, 0, 1), Ok((1, 0)));
    publish(&rt, &mut store, other);
    assert_eq!(rt; store.compare(3, 4), Ok(true));
    let wanted = [
        Some(limit(15)),
        None,
        Some(limit(1)),
        Some(limit(2)),
        Some(limit(9)),
        Some(limit(6)),
    ];
    for i in 0..6 {
        assert_eq!(rt; store.look_up(3, &id[i]), Ok(wanted[i]));
    }
    assert_eq!(rt; store.count(3), Ok(5));
    for place in [0, 4, 1, 3, 2] {
        assert_eq!(rt; store.retire(place), Ok(()));
    }
    assert_eq!(rt; store.free(), (32, 32), "all is free again");
}

// Where a side changed nothing the result is the other's, and nothing is taken. The base may be theirs too.
#[test]
fn one_side_alone(rt: HostRuntime) {
    let mut nodes = [NodeCell::empty(); 8];
    let mut entries: [EntryCell<Id, Limit>; 8] = [EntryCell::empty(); 8];
    let Ok(mut store) = start(&mut nodes, &mut entries) else {
        rt.panic("not started")
    };
    let zero = Id { number: 0 };
    let base = opened(&rt, &mut store, 0, &[(zero, limit(5))]);
    publish(&rt, &mut store, base);
    let changed = store.open_from(1, 0).expect(&rt, "an empty place");
    assert_eq!(rt; store.put(&changed, &zero, &limit(2)), Ok((1, 1)));
    publish(&rt, &mut store, changed);
    let draft = store.open_from(2, 0).expect(&rt, "an empty place");
    assert_eq!(rt; store.merge(&draft, 0, 0), Ok((0, 0)));
    assert_eq!(rt; store.merge(&draft, 0, 1), Ok((0, 0)));
    assert_eq!(rt; store.compare(2, 1), Ok(true));
    assert_eq!(rt; store.merge(&draft, 0, 0), Ok((0, 0)));
    assert_eq!(rt; store.compare(2, 1), Ok(true));
    // over what ours has now, theirs is what counts
    assert_eq!(rt; store.merge(&draft, 1, 0), Ok((0, 0)));
    assert_eq!(rt; store.compare(2, 0), Ok(true));
    assert_eq!(rt; store.merge(&draft, 0, 9), Err(Refusal::NotReadable));
    assert_eq!(rt; store.merge(&draft, 9, 0), Err(Refusal::NotReadable));
    assert_eq!(rt; store.merge(&draft, 9, 64), Err(Refusal::NoSuchPlace));
    assert_eq!(rt; store.merge(&draft, 64, 9), Err(Refusal::NoSuchPlace));
    abandon(&rt, &mut store, draft);
    assert_eq!(rt; store.retire(1), Ok(()));
    assert_eq!(rt; store.retire(0), Ok(()));
    assert_eq!(rt; store.free(), (8, 8), "all is free again");
}
