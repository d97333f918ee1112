// A list of calls of ids and limits, written out, through `run`.
use keys::Id;
use kinds::Refusal;
use std::process::Abort;
use store::{Answer, Call, run};
use tables::{EntryCell, NodeCell};
use values::Limit;

const ZERO: Id = Id { number: 0 };

const SIXTEEN: Id = Id { number: 16 };

const FIVE: Limit = Limit { number: 5 };

const SIX: Limit = Limit { number: 6 };

// Ids 0 and 16, both with limit 5.
const TWO_IDS: [u8; 37] = [
    0x56, 4, 2, 1, 0x4E, 0, 0, 0, 1, 0x4E, 2, 1, 0, 0, 0x45, 0, 0, 0, 0, 0, 0, 0, 5, 0x45, 0, 0, 0,
    16, 0, 0, 0, 5, 0x5A, 0, 0, 0, 2,
];

// Makes the calls on tables of 12 nodes and 6 entries, and compares what they answer.
fn assert_answers(
    rt: &impl Abort,
    calls: &[Call<&[u8], Id, Limit>],
    wanted: &[Answer<Limit>],
    out: &mut [u8],
) {
    let mut nodes = [NodeCell::empty(); 12];
    let mut entries: [EntryCell<Id, Limit>; 6] = [EntryCell::empty(); 6];
    let mut answers = [Answer::Done; 32];
    match run(&mut nodes, &mut entries, calls, &mut answers, out) {
        Ok(finished) => {
            assert_eq!(rt; finished.made, calls.len(), "every call is made");
            assert_eq!(rt; finished.nodes.len(), 12, "the tables come back");
            assert_eq!(rt; finished.entries.len(), 6);
        }
        Err(_) => rt.panic("not started"),
    }
    for (answer, wanted) in answers.iter().zip(wanted) {
        assert_eq!(rt; answer, wanted);
    }
}

#[test]
fn calls_of_every_sort(rt: HostRuntime) {
    let calls = [
        Call::Open(0),
        Call::Put(0, ZERO, FIVE),
        Call::Put(0, SIXTEEN, FIVE),
        Call::Remove(0, Id { number: 1 }),
        Call::Publish(0),
        Call::Put(0, ZERO, FIVE),
        Call::OpenFrom(2, 0),
        Call::Put(2, SIXTEEN, SIX),
        Call::Union(2, 0),
        Call::Merge(2, 0, 0),
        Call::LookUp(2, SIXTEEN),
        Call::Count(2),
        Call::Compare(0, 2),
        Call::Abandon(2),
        Call::Retire(0),
        Call::Free,
    ];
    let wanted = [
        Answer::Done,
        Answer::Took(1, 1),
        Answer::Took(2, 1),
        Answer::Took(0, 0),
        Answer::Done,
        // a published place is no draft
        Answer::Refused(Refusal::NotADraft),
        Answer::Done,
        Answer::Took(2, 1),
        Answer::Took(0, 0),
        Answer::Took(0, 0),
        Answer::Found(Some(SIX)),
        Answer::Counted(2),
        Answer::Equal(false),
        Answer::Done,
        Answer::Done,
        Answer::Spare(12, 6),
    ];
    assert_answers(&rt, &calls, &wanted, &mut []);
}

#[test]
fn an_image_loaded_and_saved(rt: HostRuntime) {
    let calls = [
        Call::Load(1, &TWO_IDS[..]),
        Call::Load(1, &TWO_IDS[..]),
        Call::Load(3, &TWO_IDS[..36]),
        Call::Save(1, 36),
        Call::Save(1, 37),
    ];
    let wanted = [
        Answer::Took(2, 2),
        Answer::Refused(Refusal::PlaceTaken),
        Answer::Refused(Refusal::Cut { at: 32 }),
        Answer::Refused(Refusal::BufferTooShort),
        Answer::Saved(37),
    ];
    let mut out = [7; 38];
    assert_answers(&rt, &calls, &wanted, &mut out);
    assert_eq!(rt; out.first_chunk(), Some(&TWO_IDS));
    assert_eq!(rt; out.last(), Some(&7), "nothing is written past the image");
}

// A run stops before a call whose answer, or whose bytes, have no place.
#[test]
fn what_there_is_space_for(rt: HostRuntime) {
    let mut nodes = [NodeCell::empty(); 1];
    let mut entries: [EntryCell<Id, Limit>; 1] = [EntryCell::empty(); 1];
    let calls = [
        Call::Open(0),
        Call::Save(0, 9),
        Call::Save(0, 9),
        Call::Count(0),
    ];
    let mut answers = [Answer::Spare(3, 3); 4];
    let mut out = [0; 17];
    match run(&mut nodes, &mut entries, &calls, &mut answers, &mut out) {
        Ok(finished) => assert_eq!(rt;
            finished.made,
            2,
            "the second save is lent 9 bytes, and 8 are left"
        ),
        Err(_) => rt.panic("not started"),
    }
    assert_eq!(rt; answers[1], Answer::Saved(9));
    assert_eq!(rt; answers[2], Answer::Spare(3, 3));
    let mut few = [Answer::Spare(3, 3); 1];
    match run(&mut nodes, &mut entries, &calls, &mut few, &mut out) {
        Ok(finished) => assert_eq!(rt; finished.made, 1, "one answer"),
        Err(_) => rt.panic("not started"),
    }
}

// A table that is too long is refused, and comes back.
#[test]
fn too_long(rt: HostRuntime) {
    let mut nodes: [NodeCell; 0] = [];
    let mut entries: Vec<EntryCell<Id, Limit>> =
        vec![in rt.alloc(); EntryCell::empty(); 65_536].expect(&rt, "memory");
    let calls: [Call<&[u8], Id, Limit>; 1] = [Call::Free];
    let mut answers = [Answer::Done; 1];
    match run(
        &mut nodes,
        entries.as_mut_slice(),
        &calls,
        &mut answers,
        &mut [],
    ) {
        Ok(_) => rt.panic("started"),
        Err(not_started) => {
            assert_eq!(rt; not_started.refusal, Refusal::TableTooLong);
            assert_eq!(rt; not_started.entries.len(), 65_536);
        }
    }
    assert_eq!(rt; answers[0], Answer::Done);
}
