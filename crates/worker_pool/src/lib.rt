// Threads that run lent jobs, one job after the other, for as long as a dispatch lasts.
//
// What goes in: for each job the seat of its loan and a run at the loan's start, and threads' room
// from a scope. What comes out: a `Flight` for the dispatcher, which contracts see as the loan that
// it is of, and from `Flight::finish` the seat and the run of that very loan's job, ended as the
// machine ends it alone on the loan's base values. A flight is in hand at first; it may be brought
// to the work queue, where threads take jobs in their order, or run where it is. The dispatcher
// stands on the contracts of `launch` and `Flight` alone: which thread runs a job, when, and who is
// woken for it has no clause. It knows neither how jobs are picked nor in which order they retire,
// and nothing of what a job says.
#![tactic(auto)]

mod flight;
mod line;
mod means;
mod naming;
mod task;
mod work_queue;
mod workers;

pub use flight::{Flight, launch};
pub use means::Means;
pub use naming::Naming;
pub use work_queue::{Closing, WorkQueue};
pub use workers::start_workers;
