// The certificate by which jobs of a run may run in parallel.
//
// In: the text of a given certificate, or a run whose jobs are still short. Out: the summaries kept
// of the certificate, if it is one of the exchange, or its first fault; or the run at its end, or
// in the state where its jobs have become long, with the summaries kept of the exchange's own
// certificate. Jobs run sequentially here, without threads.
#![tactic(auto)]

mod given;
mod own;

pub use given::kept_of_text;
pub use own::{Grown, until_long};
