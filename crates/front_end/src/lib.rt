// The exchange that a text means, or the first rule that it breaks.
//
// What goes in: the tree of a text. What comes out: the exchange, in which every name is a number,
// or the first fault: its rule and its line. The phases come in their order over one list of what
// stands in the text; what a limit refuses is never built.
// It knows no rule of its own and reads no text.
#![tactic(auto)]

mod collected;
mod entries;
pub mod laws;
mod phases;
mod points;
mod seed;

pub use phases::resolve;
