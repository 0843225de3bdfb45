// The books of an exchange between two jobs: what it has but its stored words.
//
// What goes in: the lines of a signal file, and the starts and ends of jobs. What comes out:
// `Books`, which let lines arrive, hand out the next job, and let a job retire that has come to its
// end; and the `ReportEvent`s that leave the exchange. The books can be taken apart into
// `BookParts` and be put together again. Contracts see a state of the single run, whose words stand
// beside the books, so that lines arrive and jobs retire as they do there. It knows no statement
// and no machine.
#![tactic(auto)]

mod aftermath;
mod arrivals;
mod books;
mod deliveries;
mod event;
mod event_bytes;
mod event_log;
mod faults;
pub mod laws;
mod parts;
mod retire;
mod schedule;
mod stores;

pub use arrivals::let_arrive;
pub use books::Books;
pub use event::{Ending, Faulty, ReportEvent};
pub use event_log::{EventLog, EventQueue};
pub use parts::BookParts;
