// What the words of the command ask for, and how a program ends.
//
// What goes in: the words behind the name of the program. What comes out: the command that they
// are, with the names of its files and its bounds, or what is wrong with them. Beside it stands the
// status with which a program ends. It knows no file, and nothing of what a command does.
#![tactic(auto)]

mod command;
mod fault;
mod laws;
mod options;
mod reading;
mod status;

pub use command::{
    Bounds, ChangeWords, Command, MOST_CALLS, RunWords, TimedWords, TraceWords, USUAL_JOBS,
    USUAL_WORKERS,
};
pub use fault::{CommandName, CommandOption, WordsFault};
pub use laws::words_are_of_one_shape;
pub use reading::read_command;
pub use status::Status;
