// What the cells of the two tables hold.
ghost use Rattle.std.specs.Prelude.{◌≡◌, ℕ, replicate, None};
ghost use Rattle.tables.specs.Cells.{blank as blank_node, blank_entry, listed, kids as kids_of, singles as singles_of};

// The number of a node cell.
#[derive(Clone, Copy)]
pub struct NodeId(pub u16);

// The number of an entry cell.
#[derive(Clone, Copy)]
pub struct EntryId(pub u16);

// What every cell has: by how many references it is held, and the next cell of the chain of free cells.
pub(crate) trait Cell: Copy {
    ghost holders: { Self → ℕ };

    ghost next: { Self → ℕ };

    // The cell with other numbers there.
    ghost with: { Self → ℕ → ℕ → Self };

    // What is left in a cell that nobody holds any more.
    ghost emptied: { Self → Self };

    // What stands past a table's end.
    ghost blank: { Self };

    fn holders(&self) -> u32
        ensures { result ≡ holders self.now };

    fn next(&self) -> u16
        ensures { result ≡ next self.now };

    fn with(&self, times: u32, then: u16) -> Self
        ensures { result ≡ with self.now times then };

    fn emptied(&self) -> Self
        ensures { result ≡ emptied self.now };
}

// A node. Its entries and its children stand by rank in their slots: as many as the data map and the node map have bits.
#[derive(Clone, Copy)]
pub struct NodeCell {
    pub datamap: u16,
    pub nodemap: u16,
    pub entries: [u16; 16],
    pub children: [u16; 16],
    // by how many references from outside and from other nodes it is held; none: the cell is free
    pub holders: u32,
    // the next cell of the chain of free cells
    pub next: u16,
    // how many levels lie below: 8 at the root, 0 at a collision node
    pub level: u8,
}

// The slots of a node that are taken: as many as its map has bits.
fn row_of(map: u16, slots: &[u16; 16]) -> &[u16]
    ensures { result.now ≡ listed map slots.now }
{
    &slots[..map.count_ones() as usize]
}

impl NodeCell {
    // An empty cell, to fill a table with.
    pub fn empty() -> NodeCell
        ensures { result ≡ record { datamap = 0; nodemap = 0; entries = replicate 16 0; children = replicate 16 0; holders = 0; next = 0; level = 0 } }
    {
        NodeCell {
            datamap: 0,
            nodemap: 0,
            entries: [0; 16],
            children: [0; 16],
            holders: 0,
            next: 0,
            level: 0,
        }
    }

    // The numbers of its entries, by rank.
    pub fn singles(&self) -> &[u16]
        ensures { result.now ≡ singles_of self.now }
    {
        row_of(self.datamap, &self.entries)
    }

    // The numbers of its children, by rank.
    pub fn kids(&self) -> &[u16]
        ensures { result.now ≡ kids_of self.now }
    {
        row_of(self.nodemap, &self.children)
    }
}

// A node that nobody holds keeps its data map and entries, until these are released too, and has no child.
impl Cell for NodeCell {
    ghost holders = { λ c. c.holders };

    ghost next = { λ c. c.next };

    ghost with = { λ c h n. record { datamap = c.datamap; nodemap = c.nodemap; entries = c.entries; children = c.children; holders = h; next = n; level = c.level } };

    ghost emptied = { λ c. record { datamap = c.datamap; nodemap = 0; entries = c.entries; children = c.children; holders = c.holders; next = c.next; level = c.level } };

    ghost blank = { blank_node };

    fn holders(&self) -> u32 {
        self.holders
    }

    fn next(&self) -> u16 {
        self.next
    }

    fn with(&self, holders: u32, next: u16) -> Self {
        NodeCell {
            holders,
            next,
            ..*self
        }
    }

    fn emptied(&self) -> Self {
        NodeCell {
            nodemap: 0,
            ..*self
        }
    }
}

// An entry: a key and a value, or nothing in a free cell.
#[derive(Clone, Copy)]
pub struct EntryCell<K, V> {
    pub held: Option<(K, V)>,
    pub holders: u32,
    pub next: u16,
}

impl<K: Copy, V: Copy> EntryCell<K, V> {
    // An empty cell, to fill a table with.
    pub fn empty() -> EntryCell<K, V>
        ensures { result ≡ blank_entry }
    {
        let nobody = 0;
        EntryCell {
            held: None,
            holders: nobody,
            next: 0,
        }
    }
}

impl<K: Copy, V: Copy> Cell for EntryCell<K, V> {
    ghost holders = { λ c. c.holders };

    ghost next = { λ c. c.next };

    ghost with = { λ c h n. record { held = c.held; holders = h; next = n } };

    ghost emptied = { λ c. record { held = None; holders = c.holders; next = c.next } };

    ghost blank = { blank_entry };

    fn holders(&self) -> u32 {
        self.holders
    }

    fn next(&self) -> u16 {
        self.next
    }

    fn with(&self, holders: u32, next: u16) -> Self {
        EntryCell {
            holders,
            next,
            ..*self
        }
    }

    fn emptied(&self) -> Self {
        EntryCell {
            held: None,
            ..*self
        }
    }
}
