// What a refusal shows: its number, and the offset of the faulty command where it names one.
ghost use Rattle.std.specs.Prelude.{◌≡◌};
ghost use Rattle.kinds.specs.Refusals.{shown};

use super::refusal::Refusal;

impl Refusal {
    pub fn number(&self) -> u8
        ensures { result ≡ (shown self.now).number }
    {
        match self {
            Refusal::NotAPath => 1,
            Refusal::TableTooLong => 2,
            Refusal::NoSuchPlace => 3,
            Refusal::NotReadable => 4,
            Refusal::PlaceTaken => 5,
            Refusal::NotADraft => 6,
            Refusal::Foreign { .. } => 7,
            Refusal::Cut { .. } => 8,
            Refusal::Broken { .. } => 9,
            Refusal::Crowded => 10,
            Refusal::NoRoom => 11,
            Refusal::BufferTooShort => 12,
        }
    }

    pub fn offset(&self) -> Option<usize>
        ensures { result ≡ (shown self.now).at }
    {
        match self {
            Refusal::Foreign { at } | Refusal::Cut { at } | Refusal::Broken { at } => Some(*at),
            _ => None,
        }
    }
}
