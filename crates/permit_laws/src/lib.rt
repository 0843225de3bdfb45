// What a job touches, holds and sends lies within what the summary of its entry lets it.
//
// What goes in are definitions: the meaning of a job, the summary of an entry by facts that are
// closed, and the words that a start may read and write. What comes out are laws, as public
// functions without a body. There is no code; it knows no pair of jobs, and not how facts,
// summaries and permits are found.
#![tactic(auto)]

mod laws;

pub use laws::{records_may_be_held, sends_go_to_levels, touches_are_permitted};
