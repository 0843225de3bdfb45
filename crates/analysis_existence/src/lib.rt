// Laws of the analysis: what is told of an exchange is there.
//
// What goes in are definitions: the least facts, what they say of each entry, and the text of an
// analysis. What comes out are laws, as public functions without a body. There is no code, and
// nothing is known of how any of it is found.
#![tactic(auto)]

mod laws;

pub use laws::{analyses_come, summaries_come};
