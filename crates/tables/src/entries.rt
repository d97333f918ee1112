// The entry table.
ghost use Rattle.std.specs.Prelude.{◌≡◌, ℕ, ◌<◌, ◌≤◌, List, [], ◌∷◌, length, Some, count_ones};
ghost use Rattle.tables.specs.Seen.{EntriesOf, EntryIsHeld, EntryIsMade, EntryIsReleased};
ghost use Rattle.tables.specs.Cells.{cell, entry_cell};
ghost use Rattle.tables.specs.Heaps.{Entries, inner_entries};
ghost use Rattle.tables.specs.declared.cells.NodeCell.{NodeCell};

use super::cells::{EntryCell, EntryId};
use super::table::{Table, format};
use model::MOST_CELLS;

pub type EntryTable<'a, K, V> = Table<'a, EntryCell<K, V>>;

// Makes every cell free, chained from the first to the last, beside any nodes that refer to no entry.
pub(crate) fn format_entries<K: Copy, V: Copy>(cells: &mut [EntryCell<K, V>])
    requires { length cells.old ≤ MOST_CELLS }
    ensures long { length cells.new ≡ length cells.old }
    ensures entries { (cs : List NodeCell) → ((e : ℕ) → inner_entries e cs ≡ 0) → Entries cs cells.new 0 (length cells.new) [] }
{
    format(cells, EntryCell::empty());
}

// The cell of a table at a number.
pub fn entry_cell_at<K: Copy, V: Copy>(entries: &EntryTable<K, V>, at: usize) -> EntryCell<K, V>
    requires { at < length entries.now.cells.now }
    ensures { result ≡ entry_cell entries.now.cells.now at }
{
    entries.cells[at]
}

// One more holder of an entry. Its count cannot overflow: it is at most the references from outside and 16 for each node cell.
pub fn hold_entry<K: Copy, V: Copy>(entries: &mut EntryTable<K, V>, id: EntryId)
    requires held { 0 < (entry_cell entries.old.cells.now id.0).holders }
    requires heap { (cs : List NodeCell) × ((R : List ℕ) × (EntriesOf cs entries.old R × ((length R ≤ MOST_CELLS) × ((length cs ≤ MOST_CELLS) × ((i : ℕ) → count_ones (cell cs i).datamap ≤ 16))))) }
    ensures { EntryIsHeld id.0 entries.old entries.new }
{
    entries.hold(id.0 as usize);
}

// A new entry in a free cell, with one holder.
pub fn make_entry<K: Copy, V: Copy>(entries: &mut EntryTable<K, V>, key: K, value: V) -> EntryId
    requires some { 0 < entries.old.spare }
    requires heap { (cs : List NodeCell) × ((R : List ℕ) × EntriesOf cs entries.old R) }
    ensures { EntryIsMade result.0 (record { held = Some (key, value); holders = 1; next = 0 }) entries.old entries.new }
{
    EntryId(entries.take(EntryCell {
        held: Some((key, value)),
        holders: 1,
        next: 0,
    }))
}

// Gives up one holder of an entry; without any left the cell is emptied and goes to the chain of free cells.
pub fn release_entry<K: Copy, V: Copy>(entries: &mut EntryTable<K, V>, id: EntryId)
    requires { (cs : List NodeCell) × ((R : List ℕ) × EntriesOf cs entries.old (id.0 ∷ R)) }
    ensures { EntryIsReleased id.0 entries.old entries.new }
{
    let _ = entries.let_go(id.0);
}
