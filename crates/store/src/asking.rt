// Calls that ask: they change nothing.
ghost use Rattle.store.specs.Stores.{Answered};
ghost use Rattle.std.specs.Prelude.{length};
ghost use Rattle.store.specs.Answers.{found_shown, counted_shown, compared_shown, saved_shown};
ghost use Rattle.store.specs.Buffers.{KeepsRest};
ghost use Rattle.model.specs.Calls.{LookUp, Count, Compare, Save, Free, spare};

use super::store::Store;
use branches::{count, look_up, same_part};
use image_writer::save;
use kinds::{Key, Refusal, Value};

impl<'a, K: Key, V: Value> Store<'a, K, V> {
    // The value of a key at a live place, or nothing.
    pub fn look_up(&self, place: u32, key: &K) -> Result<Option<V>, Refusal>
        ensures { Answered K.kind V.kind K.bytes V.bytes self.now self.now (LookUp place (K.bytes key.now)) (found_shown V.bytes result) }
    {
        Ok(look_up(&self.tables, self.live_at(place)?, 8, key))
    }

    // How many settings a live place has.
    pub fn count(&self, place: u32) -> Result<usize, Refusal>
        ensures { Answered K.kind V.kind K.bytes V.bytes self.now self.now (Count place) (counted_shown result) }
    {
        Ok(count(&self.tables, self.live_at(place)?, 8))
    }

    // Whether two live places have the same map. Where they share cells, it looks no further.
    pub fn compare(&self, place: u32, other: u32) -> Result<bool, Refusal>
        ensures { Answered K.kind V.kind K.bytes V.bytes self.now self.now (Compare place other) (compared_shown result) }
    {
        // a place that there is not is refused before either is looked at
        self.spot_at(place)?;
        self.spot_at(other)?;
        let one = self.live_at(place)?;
        let two = self.live_at(other)?;
        Ok(same_part(&self.tables, one, two, 8))
    }

    // Writes the image of a live place into the buffer from its first byte on, and answers its length; what lies past the image stays. A buffer that is shorter is refused with 12 and keeps every byte.
    pub fn save(&self, place: u32, out: &mut [u8]) -> Result<usize, Refusal>
        ensures answered { Answered K.kind V.kind K.bytes V.bytes self.now self.now (Save place (length out.old)) (saved_shown out.new result) }
        ensures buffer { KeepsRest out.old out.new result }
    {
        save(&self.tables, self.live_at(place)?, out)
    }

    // The free nodes and the free entries.
    pub fn free(&self) -> (usize, usize)
        ensures { Answered K.kind V.kind K.bytes V.bytes self.now self.now Free (spare result.0 result.1) }
    {
        (self.tables.nodes.spare, self.tables.entries.spare)
    }
}
