// Whether jobs of two entries may run at once, told from the summaries of the entries.
//
// What goes in: two summaries, of the job that comes first in the single run and of the later one.
// What comes out: never, with the first conflict, or the tests that two jobs must pass.
#![tactic(auto)]

mod asking;
mod clash;
mod jobs;
mod laws;
mod near;
mod pair;
mod passing;
mod skip;
mod sooner;
mod verdict;

pub use asking::{asks, tests_of};
pub use clash::conflict_of;
pub use jobs::{all_hold, are_apart};
pub use laws::first_conflict_is_one;
pub use near::near_access;
pub use pair::{Conflict, Test, Verdict};
pub use passing::passes;
pub use sooner::number_of;
pub use verdict::verdict_of;
