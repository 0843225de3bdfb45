// Laws of the analysis: what is said of an exchange by its facts holds of every job of it.
//
// What goes in are definitions: the meaning of a job, the rules by which facts flow, and what facts
// say of a job. What comes out are laws, as public functions without a body. There is no code, and
// nothing is known of how facts are found.
#![tactic(auto)]

mod laws;

pub use laws::jobs_are_covered;
