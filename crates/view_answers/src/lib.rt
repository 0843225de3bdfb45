// The answers of the commands that show the code of an exchange and the jobs of a run.
//
// In: a shelf and file names. Out: the listing of an exchange's code; the jobs of the single run
// that a filter selects, and the run's report. Jobs run sequentially here.
#![tactic(auto)]

mod listed;
mod tracing;

pub use listed::perform_list;
pub use tracing::perform_trace;
