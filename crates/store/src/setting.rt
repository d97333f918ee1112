// Calls that set a key of a draft.
ghost use Rattle.store.specs.Stores.{Answered};
ghost use Rattle.store.specs.Answers.{took_shown};
ghost use Rattle.store.specs.Sets.{set_call};
ghost use Rattle.edits.specs.Sets.{value_bytes};
ghost use Rattle.model.specs.Calls.{Put, Remove};

use super::roots::give_up;
use super::spot::Spot;
use super::store::Store;
use edits::{estimate_set, set};
use kinds::{Key, Refusal, Value};

impl<'a, K: Key, V: Value> Store<'a, K, V> {
    // Gives a key of a draft a value, new or replacing; answers the nodes and the entries that it took.
    pub(crate) fn put_at(
        &mut self,
        place: u32,
        key: &K,
        value: &V,
    ) -> Result<(usize, usize), Refusal>
        ensures { Answered K.kind V.kind K.bytes V.bytes self.old self.new (Put place (K.bytes key.now) (V.bytes value.now)) (took_shown result) }
    {
        self.set_at(place, key, Some(*value))
    }

    // Takes a key out of a draft; answers the nodes and the entries that it took.
    pub(crate) fn remove_at(&mut self, place: u32, key: &K) -> Result<(usize, usize), Refusal>
        ensures { Answered K.kind V.kind K.bytes V.bytes self.old self.new (Remove place (K.bytes key.now)) (took_shown result) }
    {
        self.set_at(place, key, None)
    }

    // Sets a key of a draft to a value, or to nothing. What that takes is worked out and judged first; the old version is given up once the new one stands.
    fn set_at(&mut self, place: u32, key: &K, value: Option<V>) -> Result<(usize, usize), Refusal>
        ensures { Answered K.kind V.kind K.bytes V.bytes self.old self.new (set_call place (K.bytes key.now) (value_bytes V.bytes value)) (took_shown result) }
    {
        let root = self.draft_at(place)?;
        let plan = estimate_set(&self.tables, root, key, value, 8);
        if plan.crowded {
            return Err(Refusal::Crowded);
        }
        if plan.nodes > self.tables.nodes.spare || plan.entries > self.tables.entries.spare {
            return Err(Refusal::NoRoom);
        }
        if plan.ours {
            return Ok((plan.nodes, plan.entries));
        }
        let new = set(&mut self.tables, root, key, value, 8);
        give_up(&mut self.tables, root);
        self.places[place as usize] = Spot::Draft(new);
        Ok((plan.nodes, plan.entries))
    }
}
