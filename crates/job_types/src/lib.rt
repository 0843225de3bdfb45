// Jobs: what one starts with and what it leaves when it has ended.
//
// What goes in: numbers of entries, files, points and signals, which the exchange gives their
// meaning. What comes out: a `JobStart`, from which a job runs; a `JobDone`, which is all that the
// books need of its end; two lists of fixed capacity, `Chain` and `Outbox`, which take no memory,
// so that no running job can be refused any; and `Touch`, one load or store of a job. The layers
// above see the two lists as lists. The definitions say what a job has of its own while it runs,
// which jobs wait, which forlopp holds which records, and which numbers are dead: the meaning of
// the source, the machine and the books all speak of these. It knows neither the exchange nor the
// machine, and says nothing of which numbers are in range.
#![tactic(auto)]

mod chain;
mod crossing;
mod fault;
mod job;
mod laws;
mod outbox;
mod outcome;
mod touch;

pub use chain::{Chain, Held};
pub use crossing::{job_done_crosses, job_start_crosses};
pub use fault::Fault;
pub use job::{Job, JobStart};
pub use laws::{chains_by_number, last_store_counts};
pub use outbox::{Outbox, SendTo, Sent};
pub use outcome::{JobDone, Outcome};
pub use touch::Touch;
