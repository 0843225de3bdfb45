// Summaries one after the other, of which equal ones are kept once.
//
// What goes in: summaries, one at a time. What comes out: the one at each place, and a place that
// it shares with those that are equal to it. It does not know of what a summary tells, nor how it
// came about.
#![tactic(auto)]

mod equal;
mod mark;
mod summaries;

pub use summaries::{Standing, Summaries};
