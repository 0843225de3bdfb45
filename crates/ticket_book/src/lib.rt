// Numbered tickets for loans of the shared words: two tickets of one book and one number are for
// one loan.
//
// What goes in: the seats of loans, one at a time. What comes out: a `TicketBook` that threads
// share, its one `Pen`, and for each loan a `Ticket`, of which there may be two. One of them
// travels with the job through whatever threads run it; who kept the other knows from the number
// alone that what comes back with the first belongs to the loan of the second. The dispatcher
// stands on the contracts of `write`, `copy` and `meet`. It knows nothing of what is done with a
// loan, nor of what carries a ticket from one thread to another.
#![tactic(auto)]

mod book;
mod crossing;
mod page;
mod rule;
#[cfg(test)]
mod tests;

pub use book::{Pen, Ticket, TicketBook};
pub use crossing::{book_crosses, ticket_crosses};
pub use page::{Claim, Page};
