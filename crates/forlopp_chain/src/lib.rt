// The chains of the forlopps: which records each number holds, and which numbers are dead.
//
// What goes in: a job's chain, by `seize` and `free` while the job runs, and by `put_reserved` when
// it has ended; the death of one number, by `kill_reserved`, and of all that were drawn, by
// `kill_below`. What comes out: the chain of a number, whether it is dead, and the numbers that
// hold records in their order. The layer above takes its room first, by `reserve`, and then makes
// the calls that cannot fail; contracts see a map from numbers to chains and the dead numbers. Each
// of these calls takes the same time whatever the others hold. It knows neither the exchange nor
// its files, and says nothing of which records and numbers there are.
#![tactic(auto)]

mod chains;
mod dead;
mod held;
mod seizing;

pub use chains::Chains;
pub use seizing::{free, seize};
