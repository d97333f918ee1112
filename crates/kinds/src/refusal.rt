// Why a call was refused, each case by its number.

#[derive(Clone, Copy, Debug, PartialEq, Eq)]
pub enum Refusal {
    // 1: a path has no byte, more than 24, or one outside 21 to 7E
    NotAPath,
    // 2: a table has more than 65,535 cells
    TableTooLong,
    // 3: a place above 63
    NoSuchPlace,
    // 4: a place to be read is empty, or one to be opened from, united, merged or retired is not published
    NotReadable,
    // 5: the place to be filled is not empty
    PlaceTaken,
    // 6: the place is not a draft of this store
    NotADraft,
    // 7: the header names another edition or other kinds
    Foreign { at: usize },
    // 8: the image is cut
    Cut { at: usize },
    // 9: the image is broken
    Broken { at: usize },
    // 10: more than 16 keys of one hash
    Crowded,
    // 11: more nodes or entries would be taken than are free
    NoRoom,
    // 12: the buffer is shorter than the image
    BufferTooShort,
}
