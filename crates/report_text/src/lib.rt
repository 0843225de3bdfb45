// The text of a report, and the summary of a load.
//
// What goes in: an exchange, the books and the stored words of a run, and how it ended; or events
// alone. What comes out: the text of its report or its summary, or the lines of the events, byte
// for byte. Contracts see a definition over a state of the single run. It knows no job and no
// machine, and changes nothing. The words of numbers, values, names and faults serve other texts
// too.
#![tactic(auto)]

mod events;
mod forlopps;
mod load;
mod names;
mod stored;
mod whole;

pub use events::{add_values, event_lines};
pub use load::load_summary;
pub use names::fault_word;
pub use whole::{add_report, report};
