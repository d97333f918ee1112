// A table of cells over a lent slice, whatever its cells hold.
ghost use Rattle.std.specs.Prelude.{◌≡◌, ℕ, ◌+◌, ◌-◌, ◌^◌, ◌<◌, ◌≤◌, true, false, length, slice_index_or, slice_set};

use super::cells::Cell;
use model::MOST_CELLS;

#[derive(Drop)]
pub struct Table<'a, C> {
    pub cells: &'a mut [C],
    // the first free cell, if there is one, and how many there are
    pub free: u16,
    pub spare: usize,
}

// Makes every cell a free one, chained from the first to the last.
pub(crate) fn format<C: Cell>(cells: &mut [C], empty: C)
    requires { length cells.old ≤ MOST_CELLS }
    ensures long { length cells.new ≡ length cells.old }
    ensures chained { (k : ℕ) → k < length cells.new → slice_index_or cells.new k C.blank ≡ C.with empty 0 (k + 1) }
{
    for (i, cell) in cells.iter_mut().enumerate() {
        *cell = empty.with(0, (i + 1) as u16);
    }
}

// One more holder of a cell of a slice.
fn hold_cell<C: Cell>(cells: &mut [C], at: usize)
    requires inside { at < length cells.old }
    requires few { C.holders (slice_index_or cells.old at C.blank) + 1 < 2 ^ 32 }
    ensures { let c = slice_index_or cells.old at C.blank in cells.new ≡ slice_set cells.old at (C.with c (C.holders c + 1) (C.next c)) }
{
    let old = cells[at];
    cells[at] = old.with(old.holders() + 1, old.next());
}

// Puts what is new into a cell of a slice; answers the cell that followed it in the chain of free cells.
fn take_cell<C: Cell>(cells: &mut [C], at: usize, new: C) -> u16
    requires { at < length cells.old }
    ensures next { result ≡ C.next (slice_index_or cells.old at C.blank) }
    ensures cells { cells.new ≡ slice_set cells.old at new }
{
    let next = cells[at].next();
    cells[at] = new;
    next
}

// One holder fewer of a cell of a slice; without any left the cell is emptied and put before the first free one. Says whether it was.
fn let_go_cell<C: Cell>(cells: &mut [C], at: usize, free: u16) -> bool
    requires { at < length cells.old }
    ensures shared { let c = slice_index_or cells.old at C.blank in result ≡ false → (1 < C.holders c) × (cells.new ≡ slice_set cells.old at (C.with c (C.holders c - 1) (C.next c))) }
    ensures freed { let c = slice_index_or cells.old at C.blank in result ≡ true → (C.holders c ≤ 1) × (cells.new ≡ slice_set cells.old at (C.with (C.emptied c) 0 free)) }
{
    let old = cells[at];
    let holders = old.holders();
    if holders > 1 {
        cells[at] = old.with(holders - 1, old.next());
        return false;
    }
    cells[at] = old.emptied().with(0, free);
    true
}

impl<'a, C: Cell> Table<'a, C> {
    // One more holder of a cell.
    pub(crate) fn hold(&mut self, at: usize)
        requires inside { at < length self.old.cells.now }
        requires few { C.holders (slice_index_or self.old.cells.now at C.blank) + 1 < 2 ^ 32 }
        ensures cells { let c = slice_index_or self.old.cells.now at C.blank in self.new.cells.now ≡ slice_set self.old.cells.now at (C.with c (C.holders c + 1) (C.next c)) }
        ensures free { self.new.free ≡ self.old.free }
        ensures spare { self.new.spare ≡ self.old.spare }
    {
        hold_cell(self.cells, at);
    }

    // Takes the first free cell out of the chain for what it is to hold; answers its number.
    pub(crate) fn take(&mut self, new: C) -> u16
        requires inside { self.old.free < length self.old.cells.now }
        requires some { 0 < self.old.spare }
        ensures number { result ≡ self.old.free }
        ensures cells { self.new.cells.now ≡ slice_set self.old.cells.now self.old.free new }
        ensures free { self.new.free ≡ C.next (slice_index_or self.old.cells.now self.old.free C.blank) }
        ensures spare { self.new.spare ≡ self.old.spare - 1 }
    {
        let number = self.free;
        self.free = take_cell(self.cells, number as usize, new);
        self.spare -= 1;
        number
    }

    // Gives up one holder of a cell. Without any left the cell is emptied and goes to the chain of free cells; says whether it did.
    pub(crate) fn let_go(&mut self, number: u16) -> bool
        requires inside { number < length self.old.cells.now }
        requires few { self.old.spare + 1 < 2 ^ 64 }
        ensures shared { let c = slice_index_or self.old.cells.now number C.blank in result ≡ false → (1 < C.holders c) × ((self.new.cells.now ≡ slice_set self.old.cells.now number (C.with c (C.holders c - 1) (C.next c))) × ((self.new.free ≡ self.old.free) × (self.new.spare ≡ self.old.spare))) }
        ensures freed { let c = slice_index_or self.old.cells.now number C.blank in result ≡ true → (C.holders c ≤ 1) × ((self.new.cells.now ≡ slice_set self.old.cells.now number (C.with (C.emptied c) 0 self.old.free)) × ((self.new.free ≡ number) × (self.new.spare ≡ self.old.spare + 1))) }
    {
        let freed = let_go_cell(self.cells, number as usize, self.free);
        if freed {
            self.free = number;
            self.spare += 1;
        }
        freed
    }
}
