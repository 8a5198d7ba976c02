// Tickets. Only a card makes them; each is moved into the call that spends it.
#[derive(Drop, Debug)]
pub struct LookupTicket {
    pub(crate) card: u32,
    pub(crate) seat: usize,
}
