// The core: jobs that run at once on the stored words, one event at a time.
//
// What goes in: an exchange, its layout and its code, and what is kept of a certificate of it; the
// books and the stored words between two jobs; how many jobs may run at once; and a list of events.
// Each event issues the next job, lets a job make one instruction, or lets the oldest job retire.
// What comes out: books, words and the jobs that run after these events, or the place of the first
// event that is not allowed. It knows instructions and no source statement, and no threads.
#![tactic(auto)]

mod enabled;
mod event;
mod interleaving;
mod making;
mod window;

pub use event::{CoreEvent, CoreFault};
pub use interleaving::run_events;
pub use window::{CoreState, WindowJob};
