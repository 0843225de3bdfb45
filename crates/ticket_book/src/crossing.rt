// Which types threads hand to one another, and which they share.
use crate::book::{Ticket, TicketBook};

/// Can be called for what one thread may hand to another.
fn moves<T: Send>() {}

/// Can be called for what several threads may use at once, each by a shared reference.
fn is_shared<T: Sync>() {}

/// A book may be handed to another thread, and several may step in it at once.
pub fn book_crosses() {
    moves::<TicketBook>();
    is_shared::<TicketBook>();
}

/// A ticket may be handed to another thread; one thread has it at a time.
pub fn ticket_crosses() {
    moves::<Ticket>();
}
