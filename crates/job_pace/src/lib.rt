// What a dispatcher learns of the jobs that it runs, and which of them it runs at once by that.
//
// What goes in: how long each job was that has ended, by its entry, with which others it flew, and
// what is told of pairs of entries. What comes out: whether the next job runs alone or flies,
// whether a worker has it or the dispatcher, and how many workers are wanted for it. No answer has
// a contract but that the table of pairs stays that of its certificate: what comes out of a run is
// the same whatever is answered. It knows neither threads nor books.
#![tactic(auto)]

mod pace;

pub use pace::{Pace, Way};
