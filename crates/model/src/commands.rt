// What an image is made of: the byte of each command, and the edition.

/// Heads an image: the edition, the code of the kind of key, the code of the kind of value.
pub const HEADER: u8 = 0x56;

/// A node above the deepest level: its data map and its node map.
pub const NODE: u8 = 0x4E;

/// An entry: the key's bytes and then the value's.
pub const ENTRY: u8 = 0x45;

/// A collision node: the number of its entries.
pub const COLLISION: u8 = 0x43;

/// Ends an image: the number of all entries.
pub const END: u8 = 0x5A;

/// The edition of the images.
pub const EDITION: u8 = 4;
