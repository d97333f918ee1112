// The meaning of the store, as definitions, and what follows from it.
// Each function here stands for theorems, which its contract names: it does nothing and answers nothing,
// and the crate is proved only with the theorems' proofs.
#![tactic(auto)]

ghost use Rattle.model.specs.Cases.{WorkedCases};
ghost use Rattle.model.specs.Maps.{LookUpsSayAll, PutSetsOneKey, RemoveClearsOneKey, UnionJoinsEachKey, MergeDecidesEachKey, UnionIsAssociative, UnionIsCommutative, UnionIsIdempotent, UnionIsMergeOverNothing, MergeFavoursNoSide};
ghost use Rattle.model.specs.Reading.{ImagesReadBack, OnlyImagesAreAccepted, EqualImagesAreOfEqualMaps};
ghost use Rattle.model.specs.Laws.{LawsOfRuns};

mod commands;
mod limits;

pub use commands::{COLLISION, EDITION, END, ENTRY, HEADER, NODE};
use kinds::{Key, Value};
pub use limits::{MOST_CELLS, MOST_OF_A_HASH, PLACES};

// Look-ups say all of a map; what is found after put, remove, union and merge; union is a join, and merge favours no side.
pub fn maps_stand<K: Key, V: Value>()
    ensures look_ups { LookUpsSayAll K.kind V.kind }
    ensures puts { PutSetsOneKey K.kind V.kind }
    ensures removes { RemoveClearsOneKey K.kind V.kind }
    ensures unions { UnionJoinsEachKey K.kind V.kind }
    ensures merges { MergeDecidesEachKey K.kind V.kind }
    ensures union_assoc { UnionIsAssociative K.kind V.kind }
    ensures union_comm { UnionIsCommutative K.kind V.kind }
    ensures union_self { UnionIsIdempotent K.kind V.kind }
    ensures union_merge { UnionIsMergeOverNothing K.kind V.kind }
    ensures merge_swap { MergeFavoursNoSide K.kind V.kind }
{}

// Reading the image of a lawful map gives that map, and exactly the images are accepted.
pub fn images_stand<K: Key, V: Value>()
    ensures read_back { ImagesReadBack K.kind V.kind }
    ensures only_images { OnlyImagesAreAccepted K.kind V.kind }
    ensures one_map { EqualImagesAreOfEqualMaps K.kind V.kind }
{}

// What holds after every list of calls on a new store.
pub fn runs_stand<K: Key, V: Value>()
    ensures { LawsOfRuns K.kind V.kind }
{}

// The worked cases: hashes, images, tries, cells taken, refusals, joins and merges.
pub fn worked_cases()
    ensures { WorkedCases }
{}
