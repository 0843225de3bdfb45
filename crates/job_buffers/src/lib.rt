// The job buffers: the jobs that wait, in four lists by level.
//
// What goes in: jobs, each with its level. What comes out: the pick, which is the front of the
// first list of A, B, C and D that is not empty; the lists without the jobs of a forlopp, or with
// no jobs at all. The layer above takes its room first, by `reserve`, and then calls
// `push_reserved`, which cannot fail; contracts see the four lists beside their room. It knows
// neither the exchange nor what a job does, and says nothing of which entries and forlopps there
// are.
#![tactic(auto)]

mod buffers;
mod queue;
mod queues;
mod stays;

pub use buffers::Buffers;
