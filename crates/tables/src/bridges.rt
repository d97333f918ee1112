// What follows from the contracts of the tables for the versions in them.
// The function here stands for theorems, which its contract names: it does nothing and answers nothing,
// and the crate is proved only with the theorems' proofs.
ghost use Rattle.tables.specs.Bridges.{VersionsOutliveOthers, VersionsOutliveHolds, VersionsOutliveEntryHolds, NewNodesMeanTheirNotes, NewEntriesMeanTheirNotes, HoldsLeaveEntries, NewNodesTakeOverEntries, HeldNodesAreOwned, HeldEntriesAreOwned, FreeCellsAreTheRest, DigitsSayWhatIsBelow, RanksFollowTheKeys};

use kinds::{Key, Value};

// A held version stays as it is through takes, holds and releases of others; what is held is what an owner reaches; the free cells are the rest.
pub fn tables_stand<K: Key, V: Value>()
    ensures released { VersionsOutliveOthers K.kind K.bytes V.bytes }
    ensures held { VersionsOutliveHolds K.kind K.bytes V.bytes }
    ensures entry_held { VersionsOutliveEntryHolds K.kind K.bytes V.bytes }
    ensures made { NewNodesMeanTheirNotes K.kind K.bytes V.bytes }
    ensures entry_made { NewEntriesMeanTheirNotes K.kind K.bytes V.bytes }
    ensures entries_left { HoldsLeaveEntries K V }
    ensures entries_taken { NewNodesTakeOverEntries K V }
    ensures owned { HeldNodesAreOwned K.kind K.bytes V.bytes }
    ensures entry_owned { HeldEntriesAreOwned K.kind K.bytes V.bytes }
    ensures free { FreeCellsAreTheRest K.kind K.bytes V.bytes }
    ensures digits { DigitsSayWhatIsBelow K.kind }
    ensures ranks { RanksFollowTheKeys K.kind }
{}
