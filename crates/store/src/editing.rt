// The calls of a store on drafts in hand.
ghost use Rattle.store.specs.Stores.{Answered};
ghost use Rattle.store.specs.Answers.{took_shown};
ghost use Rattle.store.specs.Drafts.{opened_shown, Numbered, taken_shown, ComesBack};
ghost use Rattle.model.specs.Calls.{Open, OpenFrom, Put, Remove, Union, Merge, Publish, Abandon};

use super::draft::Draft;
use super::store::Store;
use kinds::{Key, Refusal, Value};

impl<'a, K: Key, V: Value> Store<'a, K, V> {
    // Makes a draft of the empty map at an empty place.
    pub fn open(&mut self, place: u32) -> Result<Draft, Refusal>
        ensures answered { Answered K.kind V.kind K.bytes V.bytes self.old self.new (Open place) (opened_shown result) }
        ensures numbered { Numbered place result }
    {
        self.open_at(place)?;
        Ok(Draft::at(place))
    }

    // Makes a draft at an empty place, with the map of a published place.
    pub fn open_from(&mut self, place: u32, from: u32) -> Result<Draft, Refusal>
        ensures answered { Answered K.kind V.kind K.bytes V.bytes self.old self.new (OpenFrom place from) (opened_shown result) }
        ensures numbered { Numbered place result }
    {
        self.open_from_at(place, from)?;
        Ok(Draft::at(place))
    }

    // Gives a key of a draft a value, new or replacing; answers the nodes and the entries that it took.
    pub fn put(&mut self, draft: &Draft, key: &K, value: &V) -> Result<(usize, usize), Refusal>
        ensures { Answered K.kind V.kind K.bytes V.bytes self.old self.new (Put draft.now (K.bytes key.now) (V.bytes value.now)) (took_shown result) }
    {
        self.put_at(draft.number(), key, value)
    }

    // Takes a key out of a draft; answers the nodes and the entries that it took.
    pub fn remove(&mut self, draft: &Draft, key: &K) -> Result<(usize, usize), Refusal>
        ensures { Answered K.kind V.kind K.bytes V.bytes self.old self.new (Remove draft.now (K.bytes key.now)) (took_shown result) }
    {
        self.remove_at(draft.number(), key)
    }

    // Joins a published place into a draft; answers the nodes and the entries that it took.
    pub fn union(&mut self, draft: &Draft, other: u32) -> Result<(usize, usize), Refusal>
        ensures { Answered K.kind V.kind K.bytes V.bytes self.old self.new (Union draft.now other) (took_shown result) }
    {
        self.union_at(draft.number(), other)
    }

    // Merges a published place into a draft over a published base, which may be the same place; answers the nodes and the entries that it took.
    pub fn merge(
        &mut self,
        draft: &Draft,
        base: u32,
        theirs: u32,
    ) -> Result<(usize, usize), Refusal>
        ensures { Answered K.kind V.kind K.bytes V.bytes self.old self.new (Merge draft.now base theirs) (took_shown result) }
    {
        self.merge_at(draft.number(), base, theirs)
    }

    // Makes a draft a published version at its place.
    pub fn publish(&mut self, draft: Draft) -> Result<(), (Draft, Refusal)>
        ensures answered { Answered K.kind V.kind K.bytes V.bytes self.old self.new (Publish draft) (taken_shown result) }
        ensures back { ComesBack draft result }
    {
        let done = self.publish_at(draft.number());
        draft.end(done)
    }

    // Empties the place of a draft.
    pub fn abandon(&mut self, draft: Draft) -> Result<(), (Draft, Refusal)>
        ensures answered { Answered K.kind V.kind K.bytes V.bytes self.old self.new (Abandon draft) (taken_shown result) }
        ensures back { ComesBack draft result }
    {
        let done = self.abandon_at(draft.number());
        draft.end(done)
    }
}
