// The text of the analysis.
//
// What goes in: an exchange, and the summaries of its entries in their order. What comes out: what
// the jobs of each entry may do, and which pairs of entries never run at once or on which tests,
// byte for byte. It knows nothing of facts, and not how a summary came about.
#![tactic(auto)]

mod entries;
mod laws;
mod names;
mod pairs;
mod told;
mod whole;

pub use laws::names_stand_by_their_numbers;
pub use names::{Names, name_at, names_of};
pub use pairs::{add_conflict, add_pair_words, add_test};
pub use whole::analysis;
