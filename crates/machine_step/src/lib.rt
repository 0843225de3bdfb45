// Single steps of the machine: any instruction, and a look at a record, by which a whole search is
// made where one begins there.
//
// What goes in: the code of an exchange, the run of a job, and words, which may be a list or words
// that jobs share. What comes out: `step`, which makes one instruction and touches at most one
// word; `Any`, the row of whichever instruction there is; and the search from where a run stands.
// It does not know of forms, nor what else happens to shared words between two steps.
#![tactic(auto)]

mod file_search;
mod machine;
mod table;

pub use file_search::make_or_look;
pub use machine::step;
pub use table::Any;
