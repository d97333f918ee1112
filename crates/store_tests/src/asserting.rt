// Calls that the examples make again and again, held against what was worked out.
use kinds::{Key, Refusal, Value};
use std::process::Abort;
use store::{Draft, Store};

// Opens an empty draft and puts settings into it.
pub fn opened<K: Key, V: Value>(
    rt: &impl Abort,
    store: &mut Store<K, V>,
    place: u32,
    settings: &[(K, V)],
) -> Draft {
    let draft = store.open(place).expect(rt, "an empty place");
    for (key, value) in settings {
        assert!(rt; store.put(&draft, key, value).is_ok());
    }
    draft
}

pub fn publish<K: Key, V: Value>(rt: &impl Abort, store: &mut Store<K, V>, draft: Draft) {
    if let Err((_draft, refusal)) = store.publish(draft) {
        rt.panic(refusal.number());
    }
}

pub fn abandon<K: Key, V: Value>(rt: &impl Abort, store: &mut Store<K, V>, draft: Draft) {
    if let Err((_draft, refusal)) = store.abandon(draft) {
        rt.panic(refusal.number());
    }
}

// No draft is opened at a place.
pub fn assert_not_opened<K: Key, V: Value>(
    rt: &impl Abort,
    store: &mut Store<K, V>,
    place: u32,
    wanted: Refusal,
) {
    match store.open(place) {
        Ok(draft) => {
            abandon(rt, store, draft);
            rt.panic(place)
        }
        Err(refusal) => assert_eq!(rt; refusal, wanted),
    }
}
