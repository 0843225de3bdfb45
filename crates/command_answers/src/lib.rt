// The answers that need no run.
//
// In: a shelf of files and their names. Out: the analysis and the certificate of an exchange; the
// usage line; the end of a program, with its answer written to a sink. Nothing is run here, and no
// thread is started.
#![tactic(auto)]

mod analysing;
mod laws;
mod usage;
mod writing;

pub use analysing::{perform_analysis, perform_certificate};
pub use laws::{timed_runs_are_runs, written_lines_of_texts_are_read};
pub use usage::usage_line;
pub use writing::end_with;
