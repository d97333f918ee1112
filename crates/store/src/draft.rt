// A draft in hand.
ghost use Rattle.std.specs.Prelude.{◌≡◌, ◌<◌};
ghost use Rattle.store.specs.Answers.{done_shown};
ghost use Rattle.store.specs.Drafts.{taken_shown, ComesBack};

use kinds::Refusal;
use model::PLACES;
use std::marker::Model;

// A draft, by the number of its place. It can be neither copied nor dropped: publish and abandon take it back.
pub struct Draft {
    place: u8,
}

impl Model for Draft {
    ghost use Rattle.std.specs.Prelude.{ℕ};

    ghost Value = { ℕ };

    ghost view = { λ d. d.place };
}

impl Draft {
    // The draft at a place.
    pub(crate) fn at(place: u32) -> Draft
        requires { place < PLACES }
        ensures { result ≡ place }
    {
        Draft { place: place as u8 }
    }

    // The number of its place.
    pub(crate) fn number(&self) -> u32
        ensures { result ≡ self.now }
    {
        u32::from(self.place)
    }

    // Takes it back once its call is done; where the call was refused, it comes back with the refusal.
    pub(crate) fn end(self, done: Result<(), Refusal>) -> Result<(), (Draft, Refusal)>
        ensures taken { taken_shown result ≡ done_shown done }
        ensures back { ComesBack self result }
    {
        match done {
            Ok(()) => {
                let Draft { place: _ } = self;
                Ok(())
            }
            Err(refusal) => Err((self, refusal)),
        }
    }
}
