// The run of one job on the shared words, and the words as the dispatcher sees them while jobs run.
//
// What goes in: faithful code, a shared store, the seat of a loan that has touched nothing, and a
// run at the loan's start. What comes out: the run at its end, and the seat, whose touches are
// those of the job. `run_job` takes no memory, waits for nobody and cannot fail, so that it may run
// in any thread; `run_in_place` is the same. The dispatcher stands on their contracts, and on
// `RootWords`, by which a job that retires stores what a release or a restart stores. It knows
// neither how jobs are picked nor how they come into a thread.
#![tactic(auto)]

mod loan_words;
mod root_words;
mod run;

pub use root_words::RootWords;
pub use run::{run_in_place, run_job};
