// What the analysis of an exchange begins with: facts, and the rules by which they flow.
//
// A fact is a value that a slot may have before a statement, in a job of an entry. The flow rules
// say which facts follow from which; the least facts are those that follow from nothing. The
// definitions are over the exchange of `exchange_model` and over the text as `source_meaning` reads
// it: a point, and what follows it there, are the same.
#![tactic(auto)]

mod fact;
mod flow;
mod laws;
mod limits;

pub use fact::{Fact, Slot, Value};
pub use flow::{Passing, Source};
pub use laws::{flows_look_at_their_point, least_facts_are_closed};
pub use limits::SMALL_NUMBERS;
