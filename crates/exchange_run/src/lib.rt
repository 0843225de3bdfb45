// The single run of an exchange: one job at a time, by whatever runs it.
//
// What goes in: an exchange, its books and stored words before the first line or at any time when
// nobody runs, what runs a job, and who is told of each job that has ended. What comes out: the
// books and the stored words at the end of the single run, and how it ended, or those after a job,
// where it may rest once jobs are long. There is one loop, whatever runs a job. It knows neither
// texts nor reports, neither the machine nor the source interpreter, and keeps no copy of the
// exchange.
#![tactic(auto)]

mod runner;
mod turns;
mod watcher;

pub use runner::Runner;
pub use turns::{Come, Ended, Standing, before_lines, run_books, run_until};
pub use watcher::{Unwatched, Watcher};
