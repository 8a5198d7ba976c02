// The calls of a card.
ghost use Rattle.std.specs.Prelude.{◌≡◌, ℕ, ◌+◌, ◌*◌, ◌<◌, true, false, None, IfOk, MatchResult, slice_index_or};
ghost use Rattle.store.specs.Rows.{key_at};
ghost use Rattle.questions.specs.Asking.{ask, accept, refusal};
ghost use Rattle.card.specs.Refusals.{number};
ghost use Rattle.card.specs.Views.{Right, On};
ghost use Rattle.card.specs.Calls.{shown, OneCall, begun, clearing};
ghost use Rattle.card.specs.Answers.{side_read, seat_read, cleared, looked_up};
ghost use Rattle.card.specs.Following.{Built};

use crate::cards::{CHAIN_ROWS, Card, SEATS, SIDES, Side, Walk};
use crate::refusals::Refusal;
use crate::states::{Change, SideState, next_state};
use crate::tickets::LookupTicket;
use policy::fields::Header;
use std::alloc::{AllocFailed, Global};
use store::row::Row;
use store::traits::Store;

// The change that clearing one of so many rows is.
fn clearing_change(held: u16) -> Change
    ensures { result ≡ clearing held }
{
    if held == 1 {
        Change::ClearLast
    } else {
        Change::Clear
    }
}

// Whether an open look-up began on the side.
fn walked(seats: &[Option<Walk>; SEATS], side: usize) -> bool
    ensures none { result ≡ false → (k : ℕ) → On (begun (slice_index_or seats.now k None)) side → ⊥ }
    ensures some { result ≡ true → (k : ℕ) × On (begun (slice_index_or seats.now k None)) side }
{
    seats
        .iter()
        .any(|seat| seat.is_some_and(|walk| walk.side == side))
}

impl<S: Store> Card<S> {
    // A card on a store, under a number; for want of memory the store comes back.
    pub fn new(heap: Global, number: u32, store: S) -> Result<Card<S>, AllocFailed<S>>
        ensures { MatchResult result (λ c. Built S.Store.contents number store c) (λ back. back.value ≡ store) }
    {
        let Ok(rows) = vec![in heap; Row { key: 0, result: 0 }; SIDES * CHAIN_ROWS] else {
            return Err(AllocFailed { value: store });
        };
        let usable = store.held() == 0;
        let fresh = Side {
            state: SideState::Free,
            held: 0,
        };
        Ok(Card {
            number,
            store,
            usable,
            sides: [fresh; SIDES],
            seats: [None; SEATS],
            current: None,
            rows,
        })
    }

    // Asks whether the store was empty at building, then whether the place is one of so many.
    fn admit(&self, place: usize, places: usize) -> Result<(), Refusal>
        ensures { ask 20 (self.now.usable ≡ true) (ask 21 (place < places) accept) (refusal number result) }
    {
        if !self.usable {
            return Err(Refusal::StoreNotEmpty);
        }
        if place >= places {
            return Err(Refusal::OutOfRange);
        }
        Ok(())
    }

    // The state of a side, and how many rows of it the store holds.
    pub fn read_side(&self, side: usize) -> Result<Side, Refusal>
        ensures { Right (shown self.now) (side_read side result) }
    {
        self.admit(side, SIDES)?;
        Ok(self.sides[side])
    }

    // The searches of a seat's open look-up, 0 where the seat is free.
    pub fn read_seat(&self, seat: usize) -> Result<u32, Refusal>
        ensures { Right (shown self.now) (seat_read seat result) }
    {
        self.admit(seat, SEATS)?;
        Ok(self.seats[seat].map_or(0, |walk| walk.searches))
    }

    // The key of a row of a side's chain.
    fn row_key(&self, side: usize, row: u16) -> u64
        requires { side < 3 }
        ensures { result ≡ key_at self.now.rows.items (side * 1024 + row) }
    {
        self.rows
            .get(side * CHAIN_ROWS + row as usize)
            .map_or(0, |row| row.key)
    }

    // Erases the last row of a side set aside; with none left the side is free.
    pub fn clear(&mut self, side: usize) -> Result<(), Refusal>
        ensures call { OneCall S.Store.contents S.Store.frame self.old (cleared side result) self.new }
    {
        self.admit(side, SIDES)?;
        let x = self.sides[side];
        let state = next_state(x.state, clearing_change(x.held)).ok_or(Refusal::NotSetAside)?;
        if walked(&self.seats, side) {
            return Err(Refusal::LookupOpen);
        }
        let held = x.held.saturating_sub(1);
        let key = self.row_key(side, held);
        let _ = self.store.erase(key);
        self.sides[side] = Side { state, held };
        Ok(())
    }

    // Takes a free seat for a header, on the side in force.
    pub fn look_up(&mut self, seat: usize, header: Header) -> Result<LookupTicket, Refusal>
        ensures call { (i : ℕ) → OneCall S.Store.contents S.Store.frame self.old (looked_up seat header i result) self.new }
        ensures ticket { IfOk result (λ t. t ≡ record { card = self.old.number; seat = seat }) }
    {
        self.admit(seat, SEATS)?;
        if self.seats[seat].is_some() {
            return Err(Refusal::NotFree);
        }
        let side = self.current.ok_or(Refusal::NothingInForce)?;
        if !header.fits() {
            return Err(Refusal::HeaderTooWide);
        }
        self.seats[seat] = Some(Walk {
            side,
            header,
            searches: 0,
        });
        Ok(LookupTicket {
            card: self.number,
            seat,
        })
    }
}
