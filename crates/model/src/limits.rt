// How much a store may have.

/// How many places a store has.
pub const PLACES: usize = 64;

/// How many cells a table may have.
pub const MOST_CELLS: usize = 65_535;

/// How many keys of a map may have one hash.
pub const MOST_OF_A_HASH: usize = 16;
