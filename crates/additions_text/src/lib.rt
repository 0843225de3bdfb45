// Writes the additions of an exchange as a text (docs/OUTPUTS.md, Additions).
//
// In: an exchange with the summaries of its entries, and the pair of entries that is requested, if
// any. Out: the variables and fields that each entry's jobs only add to, and for each pair its
// verdict without these accesses, if it differs from that of the analysis. The crate does not know
// how facts are found, or what an addition is.
#![tactic(auto)]

mod laws;
mod lines;
mod lists;
mod parts;
mod whole;

pub use laws::{additions_are_one, additions_come};
pub use whole::add_additions;
