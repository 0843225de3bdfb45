// The table of periodic signals, and the merging of its signals with those of a signal file.
//
// What goes in: an exchange, whose entries the lines name, the lines of a signal file, and the
// bytes of a table. What comes out: the periods of the table in order, or its first faulty line
// with its first fault; the lines of both files as one list, as if one signal file had told them
// all; and the text of that signal file. It does not know when a line arrives: that hangs on the
// run.
#![tactic(auto)]

mod fault;
mod form;
mod laws;
mod meaning;
mod merging;
mod period;
mod places;
mod read;
mod write;

pub use fault::{TableFault, TableRule};
pub use laws::{
    first_faulty_line_decides, merged_lines_fit, merging_keeps_all_lines, written_lines_are_read,
};
pub use merging::merge;
pub use period::{MOST_LINES, Period};
pub use read::read_table;
pub use write::write_out;
