// A law of the analysis: a job faults only where the summary of its entry says that it may.
//
// What goes in are definitions: the meaning of a job, the facts of an exchange, and where the
// summary of an entry says that its jobs may fault. What comes out is a law, as a public function
// without a body. There is no code, and nothing is known of how facts or summaries are found.
#![tactic(auto)]

mod laws;

pub use laws::faults_are_told;
