// Calls that end drafts and published versions.
ghost use Rattle.std.specs.Prelude.{◌≡◌, ◌<◌, slice_index_or, slice_set};
ghost use Rattle.branches.specs.Branches.{node_of};
ghost use Rattle.store.specs.Stores.{Answered};
ghost use Rattle.store.specs.Spots.{IsLive, GivenUp};
ghost use Rattle.store.specs.Answers.{done_shown};
ghost use Rattle.store.specs.declared.spot.Spot.TheVariants.{Empty};
ghost use Rattle.model.specs.Calls.{Publish, Abandon, Retire};

use super::roots::give_up;
use super::spot::Spot;
use super::store::Store;
use branches::Branch;
use kinds::{Key, Refusal, Value};
use model::PLACES;

impl<'a, K: Key, V: Value> Store<'a, K, V> {
    // Makes a draft a published version at its place.
    pub(crate) fn publish_at(&mut self, place: u32) -> Result<(), Refusal>
        ensures { Answered K.kind V.kind K.bytes V.bytes self.old self.new (Publish place) (done_shown result) }
    {
        let root = self.draft_at(place)?;
        self.places[place as usize] = Spot::Published(root);
        Ok(())
    }

    // Empties the place of a draft.
    pub(crate) fn abandon_at(&mut self, place: u32) -> Result<(), Refusal>
        ensures { Answered K.kind V.kind K.bytes V.bytes self.old self.new (Abandon place) (done_shown result) }
    {
        let root = self.draft_at(place)?;
        self.clear(place, root);
        Ok(())
    }

    // Empties a published place.
    pub fn retire(&mut self, place: u32) -> Result<(), Refusal>
        ensures { Answered K.kind V.kind K.bytes V.bytes self.old self.new (Retire place) (done_shown result) }
    {
        let version = self.published_at(place)?;
        self.clear(place, version);
        Ok(())
    }

    // Empties a live place, and gives up its root.
    fn clear(&mut self, place: u32, root: Branch)
        requires inside { place < PLACES }
        requires live { IsLive (slice_index_or self.old.places place Empty) root }
        ensures tables { GivenUp (node_of root) self.old.tables self.new.tables }
        ensures places { self.new.places ≡ slice_set self.old.places place Empty }
    {
        give_up(&mut self.tables, root);
        self.places[place as usize] = Spot::Empty;
    }
}
