// What a store has at a place.
use branches::Branch;

// Nothing, or a version as a draft or published: its root, or no node where the map is empty.
#[derive(Clone, Copy)]
pub enum Spot {
    Empty,
    Draft(Branch),
    Published(Branch),
}
