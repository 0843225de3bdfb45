// The parts of answers that need the run of an exchange, but no threads.
//
// In: an exchange, and the end of a run, whichever way it was executed. Out: whether the exchange's
// code is short enough to compile; the report on the end, after any text before it; what is
// reported of a change and what it carries over. No job is run and no certificate is read here.
#![tactic(auto)]

mod change;
mod ends;
mod shortness;

pub use change::{Change, carried_run, ends_before, misfit_stop, text_before};
pub use ends::{end_answer, headed_answer, summed_answer};
pub use shortness::has_short_code;
