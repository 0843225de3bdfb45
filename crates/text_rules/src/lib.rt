// The rules of a text: each a test of an event with what is known there, and which fault of a text
// they tell.
//
// What goes in: the events of a text, its signals and its blocks. What comes out: the rules with
// their numbers, a fault, the blocks of a text by their names and by what they receive, and, as
// definitions alone, the first fault of each set of rules. `rule_checks` finds it.
// It knows nothing of how the lists of events came to be, nor of the exchange that a text makes.
#![tactic(auto)]

mod fault;
mod rule;
mod surveys;

pub use fault::Fault;
pub use rule::{BlockRule, LinkRule, Rule, SignalRule};
pub use surveys::BlockTable;
