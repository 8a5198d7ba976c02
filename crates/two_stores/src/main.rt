// The same calls of a flat store and of a hash store, with what each came to.
#![tactic(auto)]

ghost use Rattle.std.specs.Prelude.{◌≡◌, T, length};

use hash_store::hash::HashStore;
use std::io;
use store::flat::FlatStore;
use store::row::Row;
use store::traits::Store;
use store_client::{Call, agree, perform_both};

// A store of three rows: four writes of new keys, one of a key that it holds, and erases.
const CALLS: [Call; 12] = [
    Call::Write(Row { key: 5, result: 50 }),
    Call::Write(Row { key: 6, result: 60 }),
    Call::Write(Row { key: 5, result: 51 }),
    Call::Search(5),
    Call::Write(Row { key: 7, result: 70 }),
    Call::Write(Row { key: 8, result: 80 }),
    Call::Erase(6),
    Call::Erase(6),
    Call::Search(6),
    Call::Search(7),
    Call::Write(Row { key: 8, result: 80 }),
    Call::Search(8),
];

// Makes the calls of a new flat store and of a new hash store. On as many cells they answer alike,
// whatever the calls.
fn new_stores_agree(rows: &mut [Row], cells: &mut [Option<Row>], calls: &[Call]) -> bool
    ensures { length rows.old ≡ length cells.old → T result }
{
    let mut flat = FlatStore::new(rows);
    let mut hash = HashStore::new(cells);
    agree(&mut flat, &mut hash, calls)
}

fn main(rt: HostRuntime) -> io::Result<()> {
    let mut rows = [Row { key: 0, result: 0 }; 3];
    let mut cells = [None; 3];
    let mut flat = FlatStore::new(&mut rows);
    let mut hash = HashStore::new(&mut cells);
    for call in CALLS {
        let (left, right) = perform_both(&mut flat, &mut hash, call);
        println!(rt; "{call}: flat store {left}, hash store {right}")?;
    }
    let held = flat.held();
    let same = hash.held();
    println!(rt; "rows held: flat store {held}, hash store {same}")?;
    let alike = new_stores_agree(&mut rows, &mut cells, &CALLS);
    println!(rt; "the stores answer alike: {alike}")
}
