// Laws of the analysis: what is told of an exchange is told in one way alone.
//
// What goes in are definitions: summaries, the texts of an analysis and of a certificate, what is
// kept of a certificate, and why one is refused. What comes out are laws, as public functions
// without a body. There is no code, and nothing is known of how any of it is found.
#![tactic(auto)]

mod laws;

pub use laws::{
    analyses_are_one, certificates_are_one, kept_summaries_are_one, refusals_are_one,
    summaries_are_one,
};
