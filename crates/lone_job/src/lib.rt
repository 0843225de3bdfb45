// Runs a job alone, by the compiled code, on the memory words that the root of a store owns; or
// only retires a job there.
//
// In: a run's context, books in which no job is running, and the root of a store without loans;
// together they stand for a valid state. Out: the books and the root after one turn of the single
// run, and the number of instructions executed. A gate is called before and after the job. A job
// that ran elsewhere is only retired here. The crate starts no thread, and does not decide which
// job runs alone.
#![tactic(auto)]

mod context;
mod turn;

pub use context::RunContext;
pub use turn::{Alone, number_of_next, retire_on_root, turn_alone};
