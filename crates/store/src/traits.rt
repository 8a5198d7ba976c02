// What a match store is.
ghost use Rattle.std.specs.Prelude.{◌≡◌, length};
ghost use Rattle.store.specs.Meaning.{Contents, Lawful, Searched, Written, Erased};

use crate::row::{Row, StoreRefusal};

// A store is known by its contents. That it is in order is a matter of its type, so no call asks for it.
pub trait Store {
    // The rows, the capacity and the tally.
    ghost contents: { Self → Contents };

    // What holds of the contents of every store.
    ghost lawful: { (s : Self) → Lawful (contents s) };

    // What no call changes: of a store on lent cells, the cells that it does not use. Each call says so
    // beside what it does to the contents, which know nothing of such cells.
    ghost Frame: { Type 0 };

    ghost frame: { Self → Frame };

    // The key's result, or none.
    fn search(&mut self, key: u64) -> Option<u16>
        ensures searched { Searched (contents self.old) key result (contents self.new) }
        ensures frame { frame self.new ≡ frame self.old };

    // Adds a row.
    fn write(&mut self, row: Row) -> Result<(), StoreRefusal>
        ensures written { Written (contents self.old) row result (contents self.new) }
        ensures frame { frame self.new ≡ frame self.old };

    // Removes the key's row.
    fn erase(&mut self, key: u64) -> Result<(), StoreRefusal>
        ensures erased { Erased (contents self.old) key result (contents self.new) }
        ensures frame { frame self.new ≡ frame self.old };

    // How many rows are held.
    fn held(&self) -> usize
        ensures { result ≡ length (contents self.now).rows };

    // How many rows there is room for.
    fn capacity(&self) -> usize
        ensures { result ≡ (contents self.now).capacity };

    // How many searches were made.
    fn tally(&self) -> u64
        ensures { result ≡ (contents self.now).tally };
}
