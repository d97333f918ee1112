// A store over two lent tables, and what stands at its places.
ghost use Rattle.store.specs.Spots.{Judged, Wanted, IsEmpty, IsDraft, IsPublished, IsLive};

use super::spot::Spot;
use branches::Branch;
use kinds::{Key, Refusal, Value};
use model::PLACES;
use std::marker::Model;
use tables::Tables;

// A clause sees the tables and the places. A store was started, and changed by calls alone.
#[derive(Drop)]
pub struct Store<'a, K: Key, V: Value> {
    pub tables: Tables<'a, K, V>,
    pub places: [Spot; PLACES],
}

impl<'a, K: Key, V: Value> Model for Store<'a, K, V> {
    ghost use Rattle.store.specs.Stores.{State, Started};
    ghost use Rattle.store.specs.Views.{state_of};

    ghost Value = { State K V };

    ghost view = { λ s. state_of s.tables s.places };

    ghost invariant = { λ s. Started K.kind V.kind K.bytes V.bytes (state_of s.tables s.places) };
}

impl<'a, K: Key, V: Value> Store<'a, K, V> {
    // What stands at a place; a number above 63 is refused with 3.
    pub(crate) fn spot_at(&self, place: u32) -> Result<Spot, Refusal>
        ensures { Judged self.now.places place result }
    {
        if place as usize >= PLACES {
            return Err(Refusal::NoSuchPlace);
        }
        Ok(self.places[place as usize])
    }

    // That a place is empty; another is refused with 5.
    pub(crate) fn empty_at(&self, place: u32) -> Result<(), Refusal>
        ensures { Wanted IsEmpty 5 self.now.places place result }
    {
        match self.spot_at(place)? {
            Spot::Empty => Ok(()),
            _ => Err(Refusal::PlaceTaken),
        }
    }

    // The root of the draft at a place; another place is refused with 6.
    pub(crate) fn draft_at(&self, place: u32) -> Result<Branch, Refusal>
        ensures { Wanted IsDraft 6 self.now.places place result }
    {
        match self.spot_at(place)? {
            Spot::Draft(root) => Ok(root),
            _ => Err(Refusal::NotADraft),
        }
    }

    // The root of the published version at a place; another place is refused with 4.
    pub(crate) fn published_at(&self, place: u32) -> Result<Branch, Refusal>
        ensures { Wanted IsPublished 4 self.now.places place result }
    {
        match self.spot_at(place)? {
            Spot::Published(root) => Ok(root),
            _ => Err(Refusal::NotReadable),
        }
    }

    // The root of the version at a place; an empty place is refused with 4.
    pub(crate) fn live_at(&self, place: u32) -> Result<Branch, Refusal>
        ensures { Wanted IsLive 4 self.now.places place result }
    {
        match self.spot_at(place)? {
            Spot::Empty => Err(Refusal::NotReadable),
            Spot::Draft(root) | Spot::Published(root) => Ok(root),
        }
    }
}
