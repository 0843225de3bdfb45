// What a text declares, read from the front of a list of tokens: its signals, and of each block the
// declarations and the survey.
//
// What goes in: tokens. What comes out: a list of nodes and the tokens after it, or where the
// reading stopped. Each function's contract says that it does what its reader in specs/ does, and
// the proofs say that the reader is exact for the grammar. The parser of blocks stands on both. It
// knows no expression, no statement and no block.
#![tactic(auto)]

mod declaration;
mod signal;
mod survey;

pub use declaration::declarations;
pub use signal::signals;
pub use survey::surveys;
