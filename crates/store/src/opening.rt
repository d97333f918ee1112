// Calls that open drafts.
ghost use Rattle.std.specs.Prelude.{◌<◌, IfOk};
ghost use Rattle.store.specs.Stores.{Answered};
ghost use Rattle.store.specs.Answers.{done_shown};
ghost use Rattle.model.specs.Calls.{Open, OpenFrom};

use super::roots::hold_root;
use super::spot::Spot;
use super::store::Store;
use branches::Branch;
use kinds::{Key, Refusal, Value};
use model::PLACES;

impl<'a, K: Key, V: Value> Store<'a, K, V> {
    // Makes a draft of the empty map at an empty place.
    pub(crate) fn open_at(&mut self, place: u32) -> Result<(), Refusal>
        ensures inside { IfOk result (λ _. place < PLACES) }
        ensures answered { Answered K.kind V.kind K.bytes V.bytes self.old self.new (Open place) (done_shown result) }
    {
        self.empty_at(place)?;
        self.places[place as usize] = Spot::Draft(Branch::Nothing);
        Ok(())
    }

    // Makes a draft at an empty place, with the map of a published place: it holds that place's root too.
    pub(crate) fn open_from_at(&mut self, place: u32, from: u32) -> Result<(), Refusal>
        ensures inside { IfOk result (λ _. place < PLACES) }
        ensures answered { Answered K.kind V.kind K.bytes V.bytes self.old self.new (OpenFrom place from) (done_shown result) }
    {
        // a place that there is not is refused before the other is looked at
        self.spot_at(place)?;
        let root = self.published_at(from)?;
        self.empty_at(place)?;
        hold_root(&mut self.tables.nodes, root);
        self.places[place as usize] = Spot::Draft(root);
        Ok(())
    }
}
