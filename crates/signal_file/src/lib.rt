// The signal file: which jobs come from outside, and when.
//
// What goes in: an exchange, whose entries the lines name, and the bytes of a text. What comes out:
// the signal lines in order, or the first faulty line with its first fault. The layers above let
// the lines arrive as jobs. The values at a line's end and the receivers of a signal come out too,
// for other files that name them in the same way. It does not know when a line arrives: that hangs
// on the run.
#![tactic(auto)]

mod before;
mod directory;
mod fault;
mod form;
mod laws;
mod line;
mod meaning;
mod names;
mod read;

pub use directory::{Directory, Known, Signal, directory_of};
pub use fault::{SignalsFault, SignalsRule};
pub use form::{Tail, tail_of};
pub use laws::first_faulty_line_decides;
pub use line::{Line, LineKind};
pub use names::Names;
pub use read::read_signals;
