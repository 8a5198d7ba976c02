// A store on cells that the caller lends, by open addressing: a row stands in the first free cell
// from its key's home on, around.
ghost use Rattle.std.specs.Prelude.{◌≡◌, ◌^◌, ◌<◌, min, List, Option, [], length, drop};
ghost use Rattle.std.specs.Borrow.{GName};
ghost use Rattle.store.specs.declared.row.Row.{Row};
ghost use Rattle.store.specs.Rows.{find};
ghost use Rattle.hash_store.specs.Cells.{cell_at, answer_at, Says, Sound};

use crate::probe::{Spot, probe};
use crate::shift::remove;
use store::row::{MOST_ROWS, Row, StoreRefusal};
use store::traits::Store;

#[derive(Drop)]
pub struct HashStore<'a> {
    // lent by the caller, so they are no vector
    cells: &'a mut [Option<Row>],
    // how many of the cells hold rows
    count: usize,
    tally: u64,
    // the cells that it uses are in order, and hold so many rows
    ghost in_order: { Sound (cell_at cells.now) (min (length cells.now) 4096) count },
    // the tally has 64 bits
    ghost counts: { tally < 2 ^ 64 },
}

impl<'a> HashStore<'a> {
    ghost use Rattle.hash_store.specs.Hashes.{usable_cells, hash_rows, hash_contents, InOrder};

    // An empty store with room for as many rows as there are cells, 4,096 at most. The cells that it
    // uses are made free, and those past the first 4,096 are not used.
    pub fn new(cells: &'a mut [Option<Row>]) -> Self
        ensures lent { result.cells.ghost_name ≡ cells.entry.ghost_name }
        ensures long { length result.cells.now ≡ length cells.old }
        ensures beyond { drop 4096 result.cells.now ≡ drop 4096 cells.old }
        ensures sound { InOrder result }
        ensures contents { hash_contents result ≡ record { rows = []; capacity = min (length cells.old) 4096; tally = 0 } }
    {
        let used = cells.len().min(MOST_ROWS);
        cells[..used].fill(None);
        HashStore {
            cells,
            count: 0,
            tally: 0,
        }
    }

    // How many of the cells may hold rows.
    fn usable(&self) -> usize
        ensures { result ≡ usable_cells self.now }
    {
        self.cells.len().min(MOST_ROWS)
    }

    // Where the key's row stands or would.
    fn spot(&self, key: u64) -> Spot
        ensures says { Says (cell_at self.now.cells.now) (usable_cells self.now) key result }
        ensures finds { find (hash_rows self.now) key ≡ answer_at (cell_at self.now.cells.now) result }
    {
        probe(self.cells, self.usable(), key)
    }
}

impl<'a> Store for HashStore<'a> {
    ghost use Rattle.hash_store.specs.Hashes.{hash_contents, hash_lawful, hash_frame};

    ghost contents = { hash_contents };

    ghost lawful = { hash_lawful };

    ghost Frame = { GName × List (Option Row) };

    ghost frame = { hash_frame };

    fn search(&mut self, key: u64) -> Option<u16> {
        self.tally = self.tally.saturating_add(1);
        match self.spot(key) {
            Spot::Found(i) => self.cells[i].map(|row| row.result),
            Spot::Free(_) => None,
            Spot::Nowhere => None,
        }
    }

    fn write(&mut self, row: Row) -> Result<(), StoreRefusal> {
        match self.spot(row.key) {
            Spot::Found(_) => Err(StoreRefusal::KeyPresent),
            Spot::Nowhere => Err(StoreRefusal::Full),
            Spot::Free(i) => {
                self.cells[i] = Some(row);
                self.count += 1;
                Ok(())
            }
        }
    }

    fn erase(&mut self, key: u64) -> Result<(), StoreRefusal> {
        match self.spot(key) {
            Spot::Found(i) => {
                let m = self.usable();
                remove(self.cells, m, i);
                self.count -= 1;
                Ok(())
            }
            Spot::Free(_) => Err(StoreRefusal::KeyAbsent),
            Spot::Nowhere => Err(StoreRefusal::KeyAbsent),
        }
    }

    fn held(&self) -> usize {
        self.count
    }

    fn capacity(&self) -> usize {
        self.usable()
    }

    fn tally(&self) -> u64 {
        self.tally
    }
}
