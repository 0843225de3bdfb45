// The answers of the commands whose jobs may run in parallel.
//
// In: a host with threads, memory and a gate; a shelf of files; and a command's arguments. Out: the
// answer of `run`, with or without a certificate, of `single`, `load`, `timed` and `change`, which
// for every number of workers is that of the single run; or the stop at the first fault of a file.
// The crate does not choose the command, and does not write the answer.
#![tactic(auto)]

mod changing;
mod going;
mod performing;
mod running;
mod timing;

pub use changing::perform_change;
pub use going::Way;
pub use performing::{perform_certified, perform_load, perform_run};
pub use timing::perform_timed;
