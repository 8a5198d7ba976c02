// A box of tickets, from which calls that are run take their tickets, and in which they leave them. A
// place of the box holds a ticket or none.
ghost use Rattle.std.specs.Prelude.{◌≡◌, slice_set};

use crate::tickets::LookupTicket;

// Puts a ticket into a place of the box, or empties it; a place that the box does not have takes nothing.
pub fn put(tickets: &mut [Option<LookupTicket>], place: usize, ticket: Option<LookupTicket>)
    ensures { tickets.new ≡ slice_set tickets.old place ticket }
{
    // by index: what a write through `get_mut` leaves in the box finds no proof
    if place < tickets.len() {
        tickets[place] = ticket;
    }
}
