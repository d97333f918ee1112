// The call that loads an image.
ghost use Rattle.store.specs.Stores.{Answered};
ghost use Rattle.store.specs.Answers.{took_shown};
ghost use Rattle.model.specs.Calls.{Load};

use super::spot::Spot;
use super::store::Store;
use image_loader::{count_cells, load};
use image_reader::judge;
use kinds::{Key, Refusal, Value};

impl<'a, K: Key, V: Value> Store<'a, K, V> {
    // Makes a published version at an empty place from an image; answers the nodes and the entries that it took. The whole image is judged, and then the room, before anything is written.
    pub fn load(&mut self, place: u32, image: &[u8]) -> Result<(usize, usize), Refusal>
        ensures { Answered K.kind V.kind K.bytes V.bytes self.old self.new (Load place image.now) (took_shown result) }
    {
        self.empty_at(place)?;
        judge::<K, V>(image)?;
        let (nodes, entries) = count_cells::<K, V>(image);
        if nodes > self.tables.nodes.spare || entries > self.tables.entries.spare {
            return Err(Refusal::NoRoom);
        }
        let root = load(&mut self.tables, image);
        self.places[place as usize] = Spot::Published(root);
        Ok((nodes, entries))
    }
}
