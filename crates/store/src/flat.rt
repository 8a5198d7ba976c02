// A store on cells that the caller lends: the rows stand in the first cells, and a search goes
// through them.
ghost use Rattle.std.specs.Prelude.{◌≡◌, ◌^◌, ◌<◌, ◌≤◌, min, List, [], length, take, MatchOption};
ghost use Rattle.std.specs.Borrow.{GName};
ghost use Rattle.store.specs.declared.row.Row.{Row};
ghost use Rattle.store.specs.Rows.{NoTwice};

use crate::row::{MOST_ROWS, Row, StoreRefusal};
use crate::traits::Store;

#[derive(Drop)]
pub struct FlatStore<'a> {
    // lent by the caller, so they are no vector
    cells: &'a mut [Row],
    // how many of the cells hold rows
    count: usize,
    tally: u64,
    // the rows have room in the first 4,096 cells
    ghost fits: { count ≤ min (length cells.now) 4096 },
    // no key stands twice
    ghost apart: { NoTwice (take count cells.now) },
    // the tally has 64 bits
    ghost counts: { tally < 2 ^ 64 },
}

impl<'a> FlatStore<'a> {
    ghost use Rattle.store.specs.Flats.{Missing, Placed, usable_cells, flat_contents};

    // An empty store with room for as many rows as there are cells, 4,096 at most. What stands in
    // the cells is not read, and those past the first 4,096 are not used.
    pub fn new(cells: &'a mut [Row]) -> Self
        ensures lent { result.cells.ghost_name ≡ cells.entry.ghost_name }
        ensures cells { result.cells.now ≡ cells.old }
        ensures contents { flat_contents result ≡ record { rows = []; capacity = min (length cells.old) 4096; tally = 0 } }
    {
        FlatStore {
            cells,
            count: 0,
            tally: 0,
        }
    }

    // How many of the cells may hold rows.
    fn usable(&self) -> usize
        ensures { result ≡ usable_cells self.now }
    {
        self.cells.len().min(MOST_ROWS)
    }

    // The place of the key's row.
    fn position(&self, key: u64) -> Option<usize>
        ensures { MatchOption result (Missing self.now key) (λ i. Placed self.now key i) }
    {
        let rows = &self.cells[..self.count];
        rows.iter().position(|row| row.key == key)
    }
}

impl<'a> Store for FlatStore<'a> {
    ghost use Rattle.store.specs.Flats.{flat_contents, flat_lawful, flat_frame};

    ghost contents = { flat_contents };

    ghost lawful = { flat_lawful };

    ghost Frame = { GName × List Row };

    ghost frame = { flat_frame };

    fn search(&mut self, key: u64) -> Option<u16> {
        self.tally = self.tally.saturating_add(1);
        let i = self.position(key)?;
        Some(self.cells[i].result)
    }

    fn write(&mut self, row: Row) -> Result<(), StoreRefusal> {
        if self.position(row.key).is_some() {
            return Err(StoreRefusal::KeyPresent);
        }
        let n = self.count;
        if n >= self.usable() {
            return Err(StoreRefusal::Full);
        }
        self.cells[n] = row;
        self.count = n + 1;
        Ok(())
    }

    // The last row goes to the place of the erased one.
    fn erase(&mut self, key: u64) -> Result<(), StoreRefusal> {
        let Some(i) = self.position(key) else {
            return Err(StoreRefusal::KeyAbsent);
        };
        let last = self.count - 1;
        self.count = last;
        self.cells[i] = self.cells[last];
        Ok(())
    }

    fn held(&self) -> usize {
        self.count
    }

    fn capacity(&self) -> usize {
        self.usable()
    }

    fn tally(&self) -> u64 {
        self.tally
    }
}
