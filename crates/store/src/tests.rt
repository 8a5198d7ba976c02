// A store on lent cells, by examples.
use crate::flat::FlatStore;
use crate::row::{Row, StoreRefusal};
use crate::traits::Store;
use std::test::Fail;

#[test]
fn a_full_store_refuses(rt: HostRuntime) -> Result<(), Fail> {
    let mut cells = [Row { key: 5, result: 9 }; 2];
    let mut store = FlatStore::new(&mut cells);
    store.write(Row { key: 5, result: 50 })?;
    store.write(Row { key: 6, result: 60 })?;
    assert_eq!(rt;
        store.write(Row { key: 7, result: 70 }),
        Err(StoreRefusal::Full)
    );
    assert_eq!(rt;
        store.write(Row { key: 6, result: 61 }),
        Err(StoreRefusal::KeyPresent)
    );
    Ok(())
}

#[test]
fn an_erased_row_is_gone(rt: HostRuntime) -> Result<(), Fail> {
    let mut cells = [Row { key: 0, result: 0 }; 3];
    let mut store = FlatStore::new(&mut cells);
    store.write(Row { key: 5, result: 50 })?;
    store.write(Row { key: 6, result: 60 })?;
    store.erase(5)?;
    assert_eq!(rt; store.erase(5), Err(StoreRefusal::KeyAbsent));
    assert_eq!(rt; store.search(5), None);
    assert_eq!(rt; store.search(6), Some(60));
    assert_eq!(rt; store.held(), 1);
    assert_eq!(rt; store.tally(), 2);
    Ok(())
}

#[test]
fn no_cells_hold_no_rows(rt: HostRuntime) {
    let mut cells = [Row { key: 0, result: 0 }; 0];
    let mut store = FlatStore::new(&mut cells);
    assert_eq!(rt; store.capacity(), 0);
    assert_eq!(rt; store.search(0), None);
    assert_eq!(rt;
        store.write(Row { key: 0, result: 0 }),
        Err(StoreRefusal::Full)
    );
    assert_eq!(rt; store.erase(0), Err(StoreRefusal::KeyAbsent));
}

#[test]
fn refusals_are_numbered(rt: HostRuntime) {
    assert_eq!(rt; StoreRefusal::KeyPresent.number(), 40);
    assert_eq!(rt; StoreRefusal::Full.number(), 41);
    assert_eq!(rt; StoreRefusal::KeyAbsent.number(), 42);
}

#[test]
fn refusals_are_told_by_number(rt: HostRuntime) -> Result<(), Fail> {
    let text = format!(in rt.alloc(); "{}", StoreRefusal::Full)?;
    assert_eq!(rt; text.as_str(), "41");
    Ok(())
}
