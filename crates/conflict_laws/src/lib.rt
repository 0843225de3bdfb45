// Theorems about conflicts: what their rows list, and in which order; and that the text with all of
// them exists and is unique.
//
// In: definitions (the rows of two summaries, their conflicts, which of two conflicts comes first,
// the verdict of a pair, and the text of an exchange). Out: theorems, as public functions without a
// body. There is no code, and nothing here says how rows are found.
#![tactic(auto)]

mod laws;

pub use laws::{
    conflicts_are_one, conflicts_come, rows_are_in_order_of_conflicts, rows_begin_with_the_verdict,
    rows_tell_all_conflicts,
};
