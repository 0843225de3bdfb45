// Finds the variables and fields that an entry's jobs only add to.
//
// In: an exchange with its statements, the numbers of its variables and fields, the summary of an
// entry, and its known facts. Out: the numbers of these variables and of these fields of plain
// files, strictly ascending, exactly as the facts imply. The crate does not know how facts and
// summaries were found, or what additions are used for.
#![tactic(auto)]

mod added;
mod addition;
mod assigned;
mod cells;
mod naming;
mod numbers;

pub use added::{Added, added_of};
pub use cells::CellKind;
pub use numbers::is_among;
