// The program plex-merge as one call: merges a signal file and a table of periodic signals into one
// signal file.
//
// In: the names of an exchange text, a signal file and a table, a shelf of files and a sink. Out: a
// status, and in the sink the text of the merged signal file, or the line of the first fault. So
// every command that takes a signal file can be used with a table too. The crate does not touch the
// process: main passes in the real devices. No job is run.
#![tactic(auto)]

mod laws;
mod program;

pub use laws::{an_answer_comes, answers_are_one, merged_files_run};
pub use program::plex_merge;
