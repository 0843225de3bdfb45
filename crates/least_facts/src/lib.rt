// The least facts of the entries of an exchange.
//
// What goes in: an exchange with its flow table, and an entry. What comes out: exactly the facts of
// that entry that follow from nothing, in order. They are found by looking again at each point at
// which something new came to be known, callers before what they call. An answer goes to the
// RETRIEVE of it that was reached first, which hands it out to the others. What the rules are it
// takes from `fact_flows`, and how facts are kept from `fact_rows`.
#![tactic(auto)]

mod analyser;
mod counting;
mod finding;
mod giving;
mod looks;
mod marks;
mod order;
mod setting;

pub use analyser::{Analyser, facts_of};
pub use counting::is_over;
pub use looks::{LOOKS_OF_FACT, Looked};
