// What facts give: the rules by which facts flow, one flow at a time.
//
// What goes in: an exchange with its flow table, and facts that are known, however they are kept.
// What comes out: all facts that one flow gives, or the start of a job at its entry, in a job of
// one entry, and no others; and a proof of which flows lead from a point. It knows neither which
// facts have been seen before nor in which order points are looked at.
#![tactic(auto)]

mod flows;
mod slots;
mod start;

pub use flows::push_flow_to;
pub use slots::{Numbered, push_numbered, slots_at};
pub use start::push_given_at_start;
