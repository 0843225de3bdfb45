// What a certificate of another make has that its exchange has not, and what it lacks.
//
// What goes in: an exchange with its flow table, and facts that are known, as those of a
// certificate. What comes out: the first of the facts that is strange there; and the least fact
// that one rule gives from them and that is not among them, without which they are not closed. It
// finds no least facts of an exchange, and does not know how certificates are written, nor what
// their facts are used for.
#![tactic(auto)]

mod missing;
mod reached;
mod returned;
mod strange;

pub use missing::{ListedFacts, least_missing};
pub use strange::first_strange;
