// When the jobs of a run are worth another thread.
//
// What goes in: how many instructions jobs made, how many statements they counted, and how many
// workers there are. What comes out: how long a job is by that, whether the jobs of late are long
// and whether they had company, the numbers by which a dispatcher counts what a loan, a thread and
// a wake-up are worth, and when an analysis is made. Nothing here has a contract: what comes out of
// a run is the same whatever is told. It knows neither jobs nor runs.
#![tactic(auto)]

mod analysing;
mod company;
mod counted;
mod lengths;
mod worth;

pub use analysing::{FIRST_LOOKS, ROUNDS, STEPS_FOR_LOOK};
pub use company::{Company, MOST_APART, time_apart};
pub use counted::job_length;
pub use lengths::{Lengths, MOST_COUNTED, Rest, long_job};
pub use worth::{
    ENOUGH, FED, FIRST_REST, LEAST_MEAN, LONELY, LONGEST_REST, MOST_WAIT, PART, SHORT, TEST,
    VERY_SHORT, WAKE,
};
