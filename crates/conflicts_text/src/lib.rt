// Writes the conflicts of an exchange as a text (docs/OUTPUTS.md, All conflicts).
//
// In: an exchange with the summaries of its entries, and the pair of entries that is requested, if
// any. Out: its analysis, then the program points that cause each access and each level of the
// entries, and all conflicting accesses of each pair. The crate does not know how facts or rows are
// found.
#![tactic(auto)]

mod lines;
mod points;
mod sections;
mod told;
mod whole;

pub use sections::asked_sections;
pub use told::Means;
pub use whole::conflicts;
