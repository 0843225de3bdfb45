// Reads the exchange, the signal lines and the texts that a command names.
//
// In: a shelf of files, their names, and texts. Out: the exchange, with its directory of names; the
// signal lines, alone or merged with the signals of a table; or the stop with the line of the first
// fault. The crate runs and analyses nothing, and starts no thread.
#![tactic(auto)]

mod files;
mod merging;
mod reading;

pub use files::{
    exchange_as, exchange_in, fitting, known_in, known_of_file, lines_in, lines_of_file, text_in,
};
pub use merging::merged_in;
