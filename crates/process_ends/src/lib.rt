// What a program needs around its one call: the command's arguments, a shelf that remembers failed
// reads, a progress line, and the messages on the standard error for each end (docs/FORMATS.md, On
// the standard error).
//
// In: a runtime, the devices of `plex_io`, and how a program ended (its status, and the fault that
// it reported). Out: lines on the standard error. Standard output and status are those of the call;
// nothing here changes them. The crate does not know which commands there are, or how many files
// each takes.
#![tactic(auto)]

mod called;
mod clearing_sink;
mod complaint;
mod names;
mod noting_shelf;
mod progress;
mod sentences;
mod words;

pub use called::{Called, run_called};
pub use clearing_sink::ClearingSink;
pub use complaint::{Known, Program, complain, no_memory, say_version};
pub use names::{Named, Quoted, text_of};
pub use noting_shelf::NotingShelf;
pub use progress::{Progress, is_asked};
pub use words::words_of;
