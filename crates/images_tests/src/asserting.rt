// Loads, saves and puts of a store, held against what was worked out.
use image_reader::judge;
use kinds::{Key, Refusal, Value};
use std::process::Abort;
use store::{Draft, Store};

// What a buffer is filled with before a save.
const FILLING: u8 = 0xEE;

// Whether a buffer has an image first and its filling behind it.
fn has_image(out: &[u8], image: &[u8]) -> bool {
    out.strip_prefix(image)
        .is_some_and(|rest| rest.iter().all(|byte| *byte == FILLING))
}

// A live place is saved as this image: into a buffer of its length and into a longer one, and nothing is written into a shorter one.
pub fn assert_saved<K: Key, V: Value>(
    rt: &impl Abort,
    store: &Store<K, V>,
    place: u32,
    image: &[u8],
) {
    let length = image.len();
    assert!(rt; 0 < length && length <= 190);
    let mut out = [FILLING; 200];
    let short = store.save(place, &mut out[..length - 1]);
    assert_eq!(rt; short, Err(Refusal::BufferTooShort), "{image:?}");
    assert_eq!(rt;
        store.save(place, &mut []),
        Err(Refusal::BufferTooShort),
        "{image:?}"
    );
    assert!(rt; has_image(&out, &[]), "{out:?}");
    assert_eq!(rt;
        store.save(place, &mut out[..length]),
        Ok(length),
        "{image:?}"
    );
    assert!(rt; has_image(&out, image), "{out:?} for {image:?}");
    let mut long = [FILLING; 200];
    assert_eq!(rt; store.save(place, &mut long), Ok(length), "{image:?}");
    assert!(rt; has_image(&long, image), "{long:?} for {image:?}");
}

// An image is judged, and loaded at place 0: it takes so many nodes and entries and is what the version is saved as, or it is refused and nothing is there. Then the place is empty again.
pub fn assert_load<K: Key, V: Value>(
    rt: &impl Abort,
    store: &mut Store<K, V>,
    image: &[u8],
    wanted: Result<(usize, usize), Refusal>,
) {
    let free = store.free();
    assert_eq!(rt; judge::<K, V>(image), wanted.map(|_| ()), "{image:?}");
    assert_eq!(rt; store.load(0, image), wanted, "{image:?}");
    if wanted.is_ok() {
        assert_saved(rt, store, 0, image);
        assert_eq!(rt; store.retire(0), Ok(()));
    } else {
        assert_eq!(rt; store.count(0), Err(Refusal::NotReadable));
    }
    assert_eq!(rt; store.free(), free, "{image:?}");
}

// Puts settings one after another into a draft: each takes so many nodes, and one entry.
pub fn assert_puts<K: Key, V: Value>(
    rt: &impl Abort,
    store: &mut Store<K, V>,
    draft: &Draft,
    settings: &[(K, V, usize)],
) {
    for (key, value, nodes) in settings {
        assert_eq!(rt; store.put(draft, key, value), Ok((*nodes, 1)));
    }
}

// Publishes a draft.
pub fn assert_published<K: Key, V: Value>(rt: &impl Abort, store: &mut Store<K, V>, draft: Draft) {
    if let Err((_draft, refusal)) = store.publish(draft) {
        rt.panic(refusal.number());
    }
}
