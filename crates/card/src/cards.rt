// What a card holds.
use crate::states::SideState;
use policy::fields::Header;
pub use store::row::CHAIN_ROWS;
use store::row::Row;

pub mod calls;

// Sides and seats are told by number: a call with a number that none of them has is answered by a refusal.
pub const SIDES: usize = 3;

pub const SEATS: usize = 8;

#[derive(Clone, Copy, PartialEq, Eq, Debug)]
pub struct Side {
    pub state: SideState,
    // how many rows of its chain the store holds
    pub held: u16,
}

// A look-up on its way.
#[derive(Clone, Copy)]
pub struct Walk {
    pub side: usize,
    pub header: Header,
    pub searches: u32,
}

// A card over a match store. The rows of the three chains stand one after another, 1,024 places each.
#[derive(Drop)]
pub struct Card<S> {
    number: u32,
    store: S,
    // whether the store was empty at building; if not, each call of the card is refused for that
    usable: bool,
    sides: [Side; SIDES],
    // the open look-up of each seat
    seats: [Option<Walk>; SEATS],
    // the side in force
    current: Option<usize>,
    rows: Vec<Row>,
}
