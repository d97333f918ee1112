// Calls that join published places into a draft.
ghost use Rattle.std.specs.Prelude.{◌<◌};
ghost use Rattle.store.specs.Stores.{Answered};
ghost use Rattle.store.specs.Answers.{took_shown};
ghost use Rattle.store.specs.Merges.{SomeMerge, RootsMerged};
ghost use Rattle.model.specs.Calls.{Union, Merge};

use super::roots::give_up;
use super::spot::Spot;
use super::store::Store;
use branches::Branch;
use kinds::{Key, Refusal, Value};
use merges::{estimate_merge, merge};
use model::PLACES;

impl<'a, K: Key, V: Value> Store<'a, K, V> {
    // Joins a published place into a draft; answers the nodes and the entries that it took.
    pub(crate) fn union_at(&mut self, place: u32, other: u32) -> Result<(usize, usize), Refusal>
        ensures { Answered K.kind V.kind K.bytes V.bytes self.old self.new (Union place other) (took_shown result) }
    {
        self.spot_at(place)?;
        let theirs = self.published_at(other)?;
        let ours = self.draft_at(place)?;
        self.merge_roots(place, ours, Branch::Nothing, theirs)
    }

    // Merges a published place into a draft over a published base; answers the nodes and the entries that it took.
    pub(crate) fn merge_at(
        &mut self,
        place: u32,
        base: u32,
        theirs: u32,
    ) -> Result<(usize, usize), Refusal>
        ensures { Answered K.kind V.kind K.bytes V.bytes self.old self.new (Merge place base theirs) (took_shown result) }
    {
        self.spot_at(place)?;
        self.spot_at(base)?;
        self.spot_at(theirs)?;
        let common = self.published_at(base)?;
        let other = self.published_at(theirs)?;
        let ours = self.draft_at(place)?;
        self.merge_roots(place, ours, common, other)
    }

    // Merges into the draft with the root `ours`. What that takes is worked out and judged first; the old version is given up once the new one stands.
    fn merge_roots(
        &mut self,
        place: u32,
        ours: Branch,
        base: Branch,
        theirs: Branch,
    ) -> Result<(usize, usize), Refusal>
        requires inside { place < PLACES }
        requires some { SomeMerge K.kind V.kind K.bytes V.bytes self.old place ours base theirs }
        ensures { RootsMerged K.kind V.kind K.bytes V.bytes self.old place ours base theirs self.new result }
    {
        let plan = estimate_merge(&self.tables, ours, base, theirs, 8);
        if plan.crowded {
            return Err(Refusal::Crowded);
        }
        if plan.nodes > self.tables.nodes.spare || plan.entries > self.tables.entries.spare {
            return Err(Refusal::NoRoom);
        }
        if plan.ours {
            return Ok((plan.nodes, plan.entries));
        }
        let new = merge(&mut self.tables, ours, base, theirs, 8);
        give_up(&mut self.tables, ours);
        self.places[place as usize] = Spot::Draft(new);
        Ok((plan.nodes, plan.entries))
    }
}
