// The summaries of the entries of an exchange, and its least facts.
//
// What goes in: an exchange. What comes out: the summary of each entry by the least facts, and the
// least facts themselves, in order. By other facts, however they are kept, the summary of an entry
// comes too. It does not know what summaries are for.
#![tactic(auto)]

mod least;
mod looks;
mod summary;

pub use least::{least_facts, summaries_if_few, summaries_of};
pub use looks::{Excess, FewOrMany, PART_OF_ENTRY, POINTS_OF_LOOK};
pub use summary::summary_of;
