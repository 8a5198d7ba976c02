// Calls as data, and events: a call with what it answered.
use crate::refusals::Refusal;
use crate::states::SideState;
use policy::fields::Header;
use std::fmt;

// A call on a card. Where it leaves a ticket, the place is that in the ticket box that the ticket goes to.
#[derive(Clone, Copy, Debug)]
pub enum Call {
    ReadSide(usize),
    ReadSeat(usize),
    Clear(usize),
    LookUp {
        seat: usize,
        header: Header,
        place: usize,
    },
}

impl fmt::Display for Call {
    ghost use Rattle.std.specs.Prelude.{Some};
    ghost use Rattle.card.specs.Texts.{call_text};

    ghost output = { λ call. Some (call_text call) };

    fn fmt<W: fmt::Write>(&self, f: &mut fmt::Formatter<W>) -> fmt::Result {
        match self {
            Call::ReadSide(side) => write!(f, "read side {side}"),
            Call::ReadSeat(seat) => write!(f, "read seat {seat}"),
            Call::Clear(side) => write!(f, "clear a row of side {side}"),
            Call::LookUp { seat, .. } => write!(f, "look a header up in seat {seat}"),
        }
    }
}

#[derive(Clone, Copy, Debug)]
pub enum Event {
    // the side's state and the rows that it holds
    SideRead {
        side: usize,
        state: SideState,
        rows: u16,
    },
    // the searches of the seat's open look-up
    SeatRead {
        seat: usize,
        searches: u32,
    },
    // one row of the side was erased
    Cleared(usize),
    // a look-up began
    Began {
        seat: usize,
        header: Header,
        place: usize,
    },
    Refused(Call, Refusal),
}

// What the call answered.
impl fmt::Display for Event {
    ghost use Rattle.std.specs.Prelude.{Some};
    ghost use Rattle.card.specs.Texts.{event_text};

    ghost output = { λ event. Some (event_text event) };

    fn fmt<W: fmt::Write>(&self, f: &mut fmt::Formatter<W>) -> fmt::Result {
        match self {
            Event::SideRead { state, rows, .. } => write!(f, "{state}, {rows} rows in the store"),
            Event::SeatRead { searches, .. } => write!(f, "{searches} searches so far"),
            Event::Cleared(_) => write!(f, "done"),
            Event::Began { place, .. } => {
                write!(f, "begun, its ticket is in place {place} of the box")
            }
            Event::Refused(_, refusal) => {
                write!(f, "refused with {}, {refusal}", refusal.number())
            }
        }
    }
}
