// What stands at the places of a store, as its answers tell.
ghost use Rattle.std.specs.Prelude.{◌≡◌, ℕ, slice_set};
ghost use Rattle.model.specs.Accounts.{Account, fresh, nth};
ghost use Rattle.sovindrate.specs.Marks.{Tell, Follow, mark_of};

use kinds::{Key, Value};
use model::PLACES;
use std::fmt;
use store::{Answer, Call};

#[derive(Clone, Copy)]
pub enum Mark {
    Empty,
    Draft,
    Published,
}

impl fmt::Display for Mark {
    fn fmt<W: fmt::Write>(&self, f: &mut fmt::Formatter<W>) -> fmt::Result {
        f.write_str(match self {
            Mark::Empty => "empty",
            Mark::Draft => "draft",
            Mark::Published => "published",
        })
    }
}

#[derive(Clone, Copy)]
pub struct Marks {
    places: [Mark; PLACES],
}

impl Marks {
    // Of a new store.
    pub fn new() -> Marks
        ensures { (n e : ℕ) → Tell result.places (fresh n e) }
    {
        Marks {
            places: [Mark::Empty; PLACES],
        }
    }

    pub fn at(&self, number: u32) -> Mark
        ensures { (a : Account) → Tell self.now.places a → result ≡ mark_of (nth a.places number) }
    {
        if (number as usize) < PLACES {
            self.places[number as usize]
        } else {
            Mark::Empty
        }
    }

    fn set(&mut self, place: u32, mark: Mark)
        ensures { self.new.places ≡ slice_set self.old.places place mark }
    {
        if (place as usize) < PLACES {
            self.places[place as usize] = mark;
        }
    }

    // What a call left.
    pub fn note<K: Key, V: Value>(&mut self, call: &Call<&[u8], K, V>, answer: &Answer<V>)
        ensures { Follow K.kind V.kind K.bytes V.bytes self.old.places self.new.places call.now answer.now }
    {
        match answer {
            Answer::Done => match call {
                Call::Open(place) | Call::OpenFrom(place, _) => self.set(*place, Mark::Draft),
                Call::Publish(place) => self.set(*place, Mark::Published),
                Call::Abandon(place) | Call::Retire(place) => self.set(*place, Mark::Empty),
                _ => {}
            },
            Answer::Took(..) => {
                if let Call::Load(place, _) = call {
                    self.set(*place, Mark::Published);
                }
            }
            _ => {}
        }
    }
}
