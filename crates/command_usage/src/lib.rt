// The sentence of what is wrong with words that are no command of plex, or what they ask for in
// place of one.
//
// What goes in: the words behind the name of the program, and whether all of them were text. What
// comes out: lines on the standard error. What is wrong is told by `read_command` of
// `command_words`. It reads no file and runs nothing, and no answer hangs on it.
#![tactic(auto)]

mod forms;
mod usage;

pub use forms::PROGRAM;
pub use usage::say_wrong;
