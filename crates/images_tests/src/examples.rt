// Images that were worked out by hand.

// The empty map of ids and registers.
pub const EMPTY: [u8; 9] = [
    0x56, 4, 2, 3, // header
    0x5A, 0, 0, 0, 0, // end
];

// Id 1 with stamp 7 and offset -3. Its hash is 9E3779B9, so its digit 0 is 9.
pub const ONE: [u8; 25] = [
    0x56, 4, 2, 3, // header
    0x4E, 0x02, 0x00, 0x00, 0x00, // at 4: the root
    0x45, 0, 0, 0, 1, 0, 0, 0, 7, 0xFF, 0xFD, // at 9: the entry
    0x5A, 0, 0, 0, 1, // at 20: the end
];

// Id 0 with stamp 5 and offset 2, id 16 with stamp 01020304 and offset -32768. Their hashes are 00000000 and E3779B90: digit 0 is 0 for both, and digit 1 is 0 and 9.
pub const TWO: [u8; 41] = [
    0x56, 4, 2, 3, // header
    0x4E, 0x00, 0x00, 0x00, 0x01, // at 4: the root
    0x4E, 0x02, 0x01, 0x00, 0x00, // at 9: its child
    0x45, 0, 0, 0, 0, 0, 0, 0, 5, 0, 2, // at 14: id 0
    0x45, 0, 0, 0, 16, 1, 2, 3, 4, 0x80, 0, // at 25: id 16
    0x5A, 0, 0, 0, 2, // at 36: the end
];

// The same two, and id 1 as above: in the root an entry comes before the child.
pub const THREE: [u8; 52] = [
    0x56, 4, 2, 3, // header
    0x4E, 0x02, 0x00, 0x00, 0x01, // at 4: the root
    0x45, 0, 0, 0, 1, 0, 0, 0, 7, 0xFF, 0xFD, // at 9: id 1
    0x4E, 0x02, 0x01, 0x00, 0x00, // at 20: the child
    0x45, 0, 0, 0, 0, 0, 0, 0, 5, 0, 2, // at 25: id 0
    0x45, 0, 0, 0, 16, 1, 2, 3, 4, 0x80, 0, // at 36: id 16
    0x5A, 0, 0, 0, 3, // at 47: the end
];

// Ids 0 to 15, each with its own number as the stamp and offset 0. The digit 0 of an id is 9 times the id, modulo 16.
pub const FULL: [u8; 190] = [
    0x56, 4, 2, 3, // header
    0x4E, 0xFF, 0xFF, 0x00, 0x00, // at 4: the root
    0x45, 0, 0, 0, 0, 0, 0, 0, 0, 0, 0, // at 9: digit 0
    0x45, 0, 0, 0, 9, 0, 0, 0, 9, 0, 0, // at 20
    0x45, 0, 0, 0, 2, 0, 0, 0, 2, 0, 0, // at 31
    0x45, 0, 0, 0, 11, 0, 0, 0, 11, 0, 0, // at 42
    0x45, 0, 0, 0, 4, 0, 0, 0, 4, 0, 0, // at 53
    0x45, 0, 0, 0, 13, 0, 0, 0, 13, 0, 0, // at 64
    0x45, 0, 0, 0, 6, 0, 0, 0, 6, 0, 0, // at 75
    0x45, 0, 0, 0, 15, 0, 0, 0, 15, 0, 0, // at 86
    0x45, 0, 0, 0, 8, 0, 0, 0, 8, 0, 0, // at 97
    0x45, 0, 0, 0, 1, 0, 0, 0, 1, 0, 0, // at 108
    0x45, 0, 0, 0, 10, 0, 0, 0, 10, 0, 0, // at 119
    0x45, 0, 0, 0, 3, 0, 0, 0, 3, 0, 0, // at 130
    0x45, 0, 0, 0, 12, 0, 0, 0, 12, 0, 0, // at 141
    0x45, 0, 0, 0, 5, 0, 0, 0, 5, 0, 0, // at 152
    0x45, 0, 0, 0, 14, 0, 0, 0, 14, 0, 0, // at 163
    0x45, 0, 0, 0, 7, 0, 0, 0, 7, 0, 0, // at 174: digit F
    0x5A, 0, 0, 0, 16, // at 185: the end
];

// Bobbins 0 and 4 with the limits 5 and 168,496,141. Their hash is 00000000: a node at each depth from 0 to 8.
pub const BOBBINS: [u8; 63] = [
    0x56, 4, 3, 1, // header
    0x4E, 0, 0, 0, 1, // at 4: the root
    0x4E, 0, 0, 0, 1, // at 9: depth 1
    0x4E, 0, 0, 0, 1, // at 14
    0x4E, 0, 0, 0, 1, // at 19
    0x4E, 0, 0, 0, 1, // at 24
    0x4E, 0, 0, 0, 1, // at 29
    0x4E, 0, 0, 0, 1, // at 34
    0x4E, 0, 0, 0, 1, // at 39: depth 7
    0x43, 2, // at 44: the collision node
    0x45, 0, 0, 0, 0, 5, // at 46: bobbin 0
    0x45, 4, 10, 11, 12, 13, // at 52: bobbin 4
    0x5A, 0, 0, 0, 2, // at 58: the end
];

// Bobbins 0, 4, 8 and so on up to 60 with the limits 100 to 115.
pub const SIXTEEN: [u8; 147] = [
    0x56, 4, 3, 1, // header
    0x4E, 0, 0, 0, 1, // at 4: the root
    0x4E, 0, 0, 0, 1, // at 9: depth 1
    0x4E, 0, 0, 0, 1, // at 14
    0x4E, 0, 0, 0, 1, // at 19
    0x4E, 0, 0, 0, 1, // at 24
    0x4E, 0, 0, 0, 1, // at 29
    0x4E, 0, 0, 0, 1, // at 34
    0x4E, 0, 0, 0, 1, // at 39: depth 7
    0x43, 16, // at 44: the collision node
    0x45, 0, 0, 0, 0, 100, // at 46: bobbin 0
    0x45, 4, 0, 0, 0, 101, // at 52
    0x45, 8, 0, 0, 0, 102, // at 58
    0x45, 12, 0, 0, 0, 103, // at 64
    0x45, 16, 0, 0, 0, 104, // at 70
    0x45, 20, 0, 0, 0, 105, // at 76
    0x45, 24, 0, 0, 0, 106, // at 82
    0x45, 28, 0, 0, 0, 107, // at 88
    0x45, 32, 0, 0, 0, 108, // at 94
    0x45, 36, 0, 0, 0, 109, // at 100
    0x45, 40, 0, 0, 0, 110, // at 106
    0x45, 44, 0, 0, 0, 111, // at 112
    0x45, 48, 0, 0, 0, 112, // at 118
    0x45, 52, 0, 0, 0, 113, // at 124
    0x45, 56, 0, 0, 0, 114, // at 130
    0x45, 60, 0, 0, 0, 115, // at 136: bobbin 60
    0x5A, 0, 0, 0, 16, // at 142: the end
];

// The path "a" with the flags 11. Its hash is E40C292C, so its digit 0 is C.
pub const PATH: [u8; 43] = [
    0x56, 4, 1, 2, // header
    0x4E, 0x10, 0x00, 0x00, 0x00, // at 4: the root
    0x45, // at 9: the entry
    b'a', 0, 0, 0, 0, 0, 0, 0, 0, 0, 0, 0, // the path
    0, 0, 0, 0, 0, 0, 0, 0, 0, 0, 0, 0, // its filling
    0, 0, 0, 0x11, // the flags
    0x5A, 0, 0, 0, 1, // at 38: the end
];
