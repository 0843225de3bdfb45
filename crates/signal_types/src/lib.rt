// The signals of a text, and the table in which they are found by name.
//
// What goes in: the signals of a tree. What comes out: the signals of the exchange with their
// answers, numbered as they are declared (specs/Signals.antt), and a table in which the first of a
// name is found (specs/Found.antt). It knows no rule, and nothing of what stands in a block.
#![tactic(auto)]

mod kinds;
mod table;

pub use kinds::kinds_of_signals;
pub use table::{SignalTable, count_of_signal, name_of};
