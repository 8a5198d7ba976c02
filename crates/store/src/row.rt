// A row, and why a store refuses a change.
ghost use Rattle.std.specs.Prelude.{◌≡◌};
ghost use Rattle.store.specs.Meaning.{number as number_of};

use std::fmt;

// The most rows that a store has room for.
pub const MOST_ROWS: usize = 4096;

// The most rows of a chain, whose rows are written to a store.
pub const CHAIN_ROWS: usize = 1024;

#[derive(Clone, Copy, PartialEq, Eq, Default, Debug)]
pub struct Row {
    pub key: u64,
    pub result: u16,
}

#[derive(Clone, Copy, PartialEq, Eq, Debug)]
pub enum StoreRefusal {
    // the key to write is held already
    KeyPresent,
    // as many rows are held as there is room for
    Full,
    // the key to erase is not held
    KeyAbsent,
}

impl StoreRefusal {
    // The number by which the refusal goes outside the library.
    pub fn number(self) -> u8
        ensures { result ≡ number_of self }
    {
        match self {
            StoreRefusal::KeyPresent => 40,
            StoreRefusal::Full => 41,
            StoreRefusal::KeyAbsent => 42,
        }
    }
}

// A refusal is told by its number.
impl fmt::Display for StoreRefusal {
    ghost use Rattle.std.specs.Prelude.{Some, decimal};

    ghost output = { λ refusal. Some (decimal (number_of refusal)) };

    fn fmt<W: fmt::Write>(&self, f: &mut fmt::Formatter<W>) -> fmt::Result {
        write!(f, "{}", self.number())
    }
}
