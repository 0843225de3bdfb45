// The program plex-conflicts as one call: reports all conflicts of an exchange with their
// statements, and what its jobs only add to.
//
// In: the name of an exchange text, and the numbers of two entries if only one pair is requested; a
// shelf of files and a sink. Out: a status, and in the sink the text, or the line of the first
// fault of the exchange text. The crate does not touch the process: main passes in the real
// devices. No job is run.
#![tactic(auto)]

mod laws;
mod program;

pub use laws::{an_answer_comes, answers_are_one};
pub use program::plex_conflicts;
