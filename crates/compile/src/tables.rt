// The tables of a chain, as a card keeps them.
ghost use Rattle.std.specs.Prelude.{◌≡◌, ◌++◌, length, drop, replicate};
ghost use Rattle.store.specs.Rows.{blank};
ghost use Rattle.compile.specs.Vectors.{items};

use crate::levels::MAX_NODES;
use crate::places::Place;
use crate::rows::Lengths;
use policy::fields::FIELDS;
use store::row::{CHAIN_ROWS, Row};

// The rows of a chain, from the first place on, and for each node of each level which block lengths occur in its
// table, as the bits of a number.
#[derive(Clone, Copy)]
pub struct Tables {
    pub rows: [Row; CHAIN_ROWS],
    pub lengths: Lengths,
}

// Tables without rows.
pub const NO_TABLES: Tables = Tables {
    rows: [Row { key: 0, result: 0 }; CHAIN_ROWS],
    lengths: [[0; MAX_NODES]; FIELDS],
};

impl Place {
    // The tables of the list that was compiled here; after its rows stand rows of zeros.
    pub fn tables(&self) -> Tables
        ensures rows { result.rows ≡ items self.now.rows ++ drop (length (items self.now.rows)) (replicate 1024 blank) }
        ensures lengths { result.lengths ≡ self.now.lengths }
    {
        let mut rows = NO_TABLES.rows;
        rows[..self.rows.len()].copy_from_slice(self.rows.as_slice());
        Tables {
            rows,
            lengths: self.lengths,
        }
    }
}
