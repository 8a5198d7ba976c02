// Examples of calls on a card over a flat store.
use crate::cards::{Card, Side};
use crate::events::{Call, Event};
use crate::refusals::Refusal;
use crate::runs::run_new;
use crate::states::SideState;
use policy::fields::Header;
use std::test::Fail;
use store::flat::FlatStore;
use store::row::Row;
use store::traits::Store;

const BLANK: Row = Row { key: 0, result: 0 };

#[test]
fn new_card_reads_free(rt: HostRuntime) -> Result<(), Fail> {
    let mut cells = [BLANK; 4];
    let Ok(card) = Card::new(rt.alloc(), 7, FlatStore::new(&mut cells)) else {
        return Err(Fail::new("no memory"));
    };
    assert_eq!(rt;
        card.read_side(2),
        Ok(Side {
            state: SideState::Free,
            held: 0,
        })
    );
    assert_eq!(rt; card.read_side(3), Err(Refusal::OutOfRange));
    assert_eq!(rt; card.read_seat(7), Ok(0));
    assert_eq!(rt; card.read_seat(8), Err(Refusal::OutOfRange));
    Ok(())
}

#[test]
fn nothing_is_in_force(rt: HostRuntime) -> Result<(), Fail> {
    let mut cells = [BLANK; 4];
    let Ok(mut card) = Card::new(rt.alloc(), 7, FlatStore::new(&mut cells)) else {
        return Err(Fail::new("no memory"));
    };
    assert_eq!(rt; card.clear(0), Err(Refusal::NotSetAside));
    assert_eq!(rt; card.clear(3), Err(Refusal::OutOfRange));
    let wide = Header {
        numbers: [0, 0, 65536, 0, 0],
    };
    assert!(rt; matches!(card.look_up(0, wide), Err(Refusal::NothingInForce)));
    assert!(rt; matches!(card.look_up(8, wide), Err(Refusal::OutOfRange)));
    Ok(())
}

#[test]
fn store_with_rows_is_refused(rt: HostRuntime) -> Result<(), Fail> {
    let mut cells = [BLANK; 4];
    let mut store = FlatStore::new(&mut cells);
    assert_eq!(rt; store.write(BLANK).is_ok(), true);
    let calls = [
        Call::ReadSide(9),
        Call::Clear(0),
        Call::LookUp {
            seat: 0,
            header: Header { numbers: [0; 5] },
            place: 0,
        },
    ];
    let mut tickets = [None];
    let (card, log) = run_new(rt.alloc(), 7, store, &calls, &mut tickets)?;
    assert!(rt; log.len() == 3);
    assert_eq!(rt; card.read_seat(9), Err(Refusal::StoreNotEmpty));
    Ok(())
}

#[test]
fn calls_and_answers_are_told_in_words(rt: HostRuntime) -> Result<(), Fail> {
    let call = Call::Clear(2);
    let read = Event::SideRead {
        side: 2,
        state: SideState::SetAside,
        rows: 9,
    };
    let refused = Event::Refused(call, Refusal::LookupOpen);
    let text = format!(in rt.alloc(); "{call}: {read}; {refused}")?;
    assert_eq!(rt;
        text.as_str(),
        "clear a row of side 2: set aside, 9 rows in the store; refused with 27, an open look-up began on the side"
    );
    Ok(())
}
