// A hash store by examples. Of four cells, the keys 2, 6, 8 and 21 have the last as their home, and 0
// has the first.
use crate::hash::HashStore;
use crate::homes::home;
use crate::probe::around;
use std::test::Fail;
use store::row::{MOST_ROWS, Row, StoreRefusal};
use store::traits::Store;

#[test]
fn a_full_table_refuses_and_erases(rt: HostRuntime) -> Result<(), Fail> {
    let mut cells = [None; 4];
    let mut store = HashStore::new(&mut cells);
    for key in [2, 6, 8, 0] {
        store.write(Row { key, result: 50 })?;
    }
    assert_eq!(rt; store.search(21), None);
    assert_eq!(rt; store.search(0), Some(50));
    assert_eq!(rt;
        store.write(Row { key: 8, result: 9 }),
        Err(StoreRefusal::KeyPresent)
    );
    assert_eq!(rt;
        store.write(Row { key: 21, result: 9 }),
        Err(StoreRefusal::Full)
    );
    store.erase(2)?;
    assert_eq!(rt; store.search(2), None);
    assert_eq!(rt; store.search(8), Some(50));
    assert_eq!(rt; store.held(), 3);
    Ok(())
}

#[test]
fn rows_go_round_the_last_cell(rt: HostRuntime) -> Result<(), Fail> {
    let mut cells = [Some(Row { key: 2, result: 7 }); 4];
    let mut store = HashStore::new(&mut cells);
    assert_eq!(rt; store.search(2), None);
    store.write(Row { key: 2, result: 20 })?;
    store.write(Row { key: 6, result: 60 })?;
    store.write(Row { key: 8, result: 80 })?;
    store.erase(6)?;
    assert_eq!(rt; store.search(8), Some(80));
    assert_eq!(rt; store.erase(6), Err(StoreRefusal::KeyAbsent));
    Ok(())
}

#[test]
fn no_cells_hold_no_rows(rt: HostRuntime) {
    let mut cells = [None; 0];
    let mut store = HashStore::new(&mut cells);
    assert_eq!(rt; store.capacity(), 0);
    assert_eq!(rt; store.search(0), None);
    assert_eq!(rt;
        store.write(Row { key: 0, result: 0 }),
        Err(StoreRefusal::Full)
    );
    assert_eq!(rt; store.erase(0), Err(StoreRefusal::KeyAbsent));
}

// The keys of a chain: four rows to a node, side 1, 52 nodes to a level.
fn chain_key(i: u64) -> u64 {
    let node = i / 4;
    1 << 56 | (node / 52) << 48 | node << 40 | 2 << 32 | i % 4
}

// Leaves the rows of 1,024 keys of a chain in the cells.
fn fill(cells: &mut [Option<Row>]) -> Result<(), StoreRefusal> {
    let mut store = HashStore::new(cells);
    for i in 0..1024 {
        store.write(Row {
            key: chain_key(i),
            result: 1,
        })?;
    }
    Ok(())
}

// How many cells a search for the key looks at.
fn looked_at(cells: &[Option<Row>], key: u64) -> usize {
    let m = cells.len().min(MOST_ROWS);
    if m == 0 {
        return 0;
    }
    let h = home(key, m);
    let passed = (0..m).position(|d| cells[around(h, d, m)].is_none_or(|row| row.key == key));
    passed.map_or(m, |d| d + 1)
}

// How many cells the searches for all 1,024 keys look at.
fn looked_at_in_all(cells: &[Option<Row>]) -> usize {
    (0..1024).fold(0usize, |total, i| {
        total.saturating_add(looked_at(cells, chain_key(i)))
    })
}

// For keys at random, 1.17 cells a search are expected where a quarter of the cells is used, and 7.7
// of 1,100 cells.
#[test]
fn chains_spread_as_random_keys_do(rt: HostRuntime) -> Result<(), Fail> {
    let mut wide = [None; 4096];
    fill(&mut wide)?;
    assert!(rt; looked_at_in_all(&wide) < 1280);
    let mut narrow = [None; 1100];
    fill(&mut narrow)?;
    assert!(rt; looked_at_in_all(&narrow) < 10 * 1024);
    Ok(())
}
