// How long the buffer is that a script's images are saved into.
use super::script::Ask;
use super::steps::Step;
use kinds::{Key, Value};
use model::PLACES;
use store::Call;

#[derive(Clone, Copy)]
pub struct Room {
    // what any one image fits in
    pub image: usize,
    // what all of them need
    pub all: usize,
}

// What the lines of a script can bring: settings that differ in their keys, places that are live at the end, and images.
#[derive(Clone, Copy)]
struct Brought {
    settings: usize,
    places: usize,
    saves: usize,
}

fn bring<K, V>(steps: &[Step<K, V>]) -> Brought {
    let mut all = Brought {
        settings: 0,
        places: 0,
        saves: 0,
    };
    for step in steps {
        match step.asks {
            Ok(Ask::Call(Call::Put(..))) => all.settings = all.settings.saturating_add(1),
            Ok(Ask::Call(Call::Open(_) | Call::OpenFrom(..))) => {
                all.places = all.places.saturating_add(1);
            }
            Ok(Ask::Load(..)) => {
                all.settings = all.settings.saturating_add(step.image.len());
                all.places = all.places.saturating_add(1);
            }
            Ok(Ask::Save(..)) => all.saves = all.saves.saturating_add(1),
            _ => {}
        }
    }
    all
}

// An image is a header of 4 bytes, an end of 5, a node of 5 bytes or of 2 for each node of its version, and for each setting one byte more than its key and its value. A version has no more nodes and settings than the tables have cells. Its keys came by puts, one by each, or by loads, fewer than the image has bytes; unions and merges bring none. And its nodes are the root and, at each of eight levels, one for two settings or more.
// A save that makes no image is lent as much as one that does, and the buffer has to have that left: so there is one more than there can be images, those that the script saves and one of each place that is live at its end.
pub fn room_of<K: Key, V: Value>(nodes: usize, entries: usize, steps: &[Step<K, V>]) -> Room {
    let brought = bring(steps);
    let settings = entries.min(brought.settings);
    let nodes = nodes.min(settings.saturating_mul(4).saturating_add(1));
    let setting = K::WIDTH.saturating_add(V::WIDTH).saturating_add(1);
    let image = settings
        .saturating_mul(setting)
        .saturating_add(nodes.saturating_mul(5))
        .saturating_add(9);
    let images = brought
        .saves
        .saturating_add(brought.places.min(PLACES))
        .saturating_add(1);
    Room {
        image,
        all: image.saturating_mul(images),
    }
}
