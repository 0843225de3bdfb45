// The blocks of an exchange that the blocks of a text mean, in which numbers stand for names: what
// they are, as definitions.
//
// What goes in: the tree of a text with what stands in it, its signals, and its blocks. What comes
// out: the blocks with numbered statements, in which each signal has its receiver. No rule of the
// language is needed for it: a name that stands for nothing gives 0. `block_resolver` makes them.
// It knows nothing of which text is well formed, and counts neither entries nor cells; specs/Texts
// says what exchange its blocks make.
#![tactic(auto)]

mod parts;

pub use parts::{First, Typed};
