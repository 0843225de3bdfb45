// What the register machine is, as definitions.
//
// What comes out: what a job has of its own while the machine runs it, what a step of the machine
// does with it and with at most one word, and when code does what the source says. A `Frame`, a
// caller that waits, is a part of it. The crates that make code stand on these, and the one that
// runs it. It runs nothing itself.
#![tactic(auto)]

mod frame;

pub use frame::Frame;
