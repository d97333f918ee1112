// Edits of one draft.
use super::asserting::{assert_not_opened, opened, publish};
use keys::Id;
use kinds::Refusal;
use std::process::Abort;
use store::start;
use tables::{EntryCell, NodeCell};
use values::Limit;

#[test]
fn two_ids_of_one_digit(rt: HostRuntime) {
    let mut nodes = [NodeCell::empty(); 3];
    let mut entries: [EntryCell<Id, Limit>; 2] = [EntryCell::empty(); 2];
    let Ok(mut store) = start(&mut nodes, &mut entries) else {
        rt.panic("not started")
    };
    let five = Limit { number: 5 };
    let zero = Id { number: 0 };
    let one = Id { number: 1 };
    let sixteen = Id { number: 16 };
    let draft = opened(&rt, &mut store, 0, &[]);
    assert_eq!(rt; store.put(&draft, &zero, &five), Ok((1, 1)));
    assert_eq!(rt; store.put(&draft, &sixteen, &five), Ok((2, 1)));
    assert_eq!(rt; store.look_up(0, &sixteen), Ok(Some(five)));
    assert_eq!(rt; store.look_up(0, &one), Ok(None));
    assert_eq!(rt; store.count(0), Ok(2));
    assert_eq!(rt; store.free(), (1, 0), "one node is free");
    assert_not_opened(&rt, &mut store, 70, Refusal::NoSuchPlace);
    assert_eq!(rt; store.put(&draft, &sixteen, &five), Ok((0, 0)));
    assert_eq!(rt; store.put(&draft, &one, &five), Err(Refusal::NoRoom));
    publish(&rt, &mut store, draft);
    assert_not_opened(&rt, &mut store, 0, Refusal::PlaceTaken);
    assert_eq!(rt; store.retire(0), Ok(()));
    assert_eq!(rt; store.free(), (3, 2), "all is free again");
}
