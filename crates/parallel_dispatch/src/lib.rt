// The dispatcher: runs the jobs of an exchange in parallel where the analysis permits, with the
// result of the single run (docs/THREADS.md).
//
// In: threads, memory and a gate; the context (an exchange with its layout, its code and the
// summaries kept of a certificate, and the most jobs at a time); the shared words; and books in
// which no job is running, with the words' root. Out: for every interleaving of the threads, the
// books and words at the end of the single run, how it ended, and how many instructions its jobs
// executed. Short jobs run sequentially on the root's own words, without a loan. The crate does not
// interpret instructions, and does not know how threads find their jobs.
#![tactic(auto)]

mod course;
mod dispatcher;
mod dispatcher_state;
mod driving;
mod moves;
mod thread_setup;
mod threads;
mod window;

pub use dispatcher::{Dispatched, Ended, Rested, StoredRun, dispatch};
pub use thread_setup::Host;
