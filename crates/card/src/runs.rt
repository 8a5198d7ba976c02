// Runs of calls on a card.
ghost use Rattle.std.specs.Prelude.{◌≡◌, IfOk, MatchResult};
ghost use Rattle.card.specs.Views.{call_of};
ghost use Rattle.card.specs.Calls.{OneCall};
ghost use Rattle.card.specs.Runs.{filed, all_filed, Went, Ran};

use crate::boxes::put;
use crate::cards::Card;
use crate::events::{Call, Event};
use crate::tickets::LookupTicket;
use policy::fields::Header;
use std::alloc::{AllocError, Global};
use store::traits::Store;

// Begins a look-up, and leaves its ticket in a place of the box.
fn run_look_up<S: Store>(
    card: &mut Card<S>,
    seat: usize,
    header: Header,
    tickets: &mut [Option<LookupTicket>],
    place: usize,
) -> Event
    ensures one { OneCall S.Store.contents S.Store.frame card.old result card.new }
    ensures call { call_of result ≡ Call.LookUp seat header place }
    ensures filed { tickets.new ≡ filed card.old.number tickets.old result }
{
    match card.look_up(seat, header) {
        Ok(ticket) => {
            put(tickets, place, Some(ticket));
            Event::Began {
                seat,
                header,
                place,
            }
        }
        Err(refusal) => Event::Refused(
            Call::LookUp {
                seat,
                header,
                place,
            },
            refusal,
        ),
    }
}

// Makes one call. Each call has an event of its own; a refusal is told with the call as it was made.
fn run_one<S: Store>(card: &mut Card<S>, call: Call, tickets: &mut [Option<LookupTicket>]) -> Event
    ensures one { OneCall S.Store.contents S.Store.frame card.old result card.new }
    ensures call { call_of result ≡ call }
    ensures filed { tickets.new ≡ filed card.old.number tickets.old result }
{
    match call {
        Call::ReadSide(side) => match card.read_side(side) {
            Ok(x) => Event::SideRead {
                side,
                state: x.state,
                rows: x.held,
            },
            Err(refusal) => Event::Refused(call, refusal),
        },
        Call::ReadSeat(seat) => match card.read_seat(seat) {
            Ok(searches) => Event::SeatRead { seat, searches },
            Err(refusal) => Event::Refused(call, refusal),
        },
        Call::Clear(side) => match card.clear(side) {
            Ok(()) => Event::Cleared(side),
            Err(refusal) => Event::Refused(call, refusal),
        },
        Call::LookUp {
            seat,
            header,
            place,
        } => run_look_up(card, seat, header, tickets, place),
    }
}

// Makes the calls in turn, and tells what each answered. Memory for the answers is taken before the
// first call: where it is not to be had, no call is made.
pub fn run<S: Store>(
    heap: Global,
    card: &mut Card<S>,
    calls: &[Call],
    tickets: &mut [Option<LookupTicket>],
) -> Result<Vec<Event>, AllocError>
    ensures went { MatchResult result (λ log. Went S.Store.contents S.Store.frame card.old calls.now log.items card.new) (λ _. card.new ≡ card.old) }
    ensures tickets { MatchResult result (λ log. tickets.new ≡ all_filed card.old.number tickets.old log.items) (λ _. tickets.new ≡ tickets.old) }
{
    let mut log = Vec::with_capacity(heap, calls.len())?;
    for call in calls {
        let event = run_one(card, *call, tickets);
        log.push_reserved(event);
    }
    Ok(log)
}

// The card's whole promise: builds a card on a store, and makes any calls with a box of any tickets.
pub fn run_new<S: Store + Drop>(
    heap: Global,
    number: u32,
    store: S,
    calls: &[Call],
    tickets: &mut [Option<LookupTicket>],
) -> Result<(Card<S>, Vec<Event>), AllocError>
    ensures ran { IfOk result (λ p. Ran S.Store.contents S.Store.frame number store calls.now p.1.items p.0) }
    ensures tickets { MatchResult result (λ p. tickets.new ≡ all_filed number tickets.old p.1.items) (λ _. tickets.new ≡ tickets.old) }
{
    let mut card = Card::new(heap, number, store)?;
    let log = run(heap, &mut card, calls, tickets)?;
    Ok((card, log))
}
