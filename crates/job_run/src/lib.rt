// The run of a job: what the job has of its own while the machine makes its instructions, and how
// instructions are made.
//
// What goes in: the code of an exchange, the start of a job, and words, which may be a list or
// words that jobs share. What comes out: a `JobRun`, which contracts see as a record of lists and
// numbers, and what each kind of instruction does to it; a `Row`, what the machine does with the
// instructions of one shape; a `Part`, such rows that are made one after the other; and what stands
// in code where a search or a loop without statements begins. It does not know which rows there
// are, nor how the machine chooses among them.
#![tactic(auto)]

mod crossing;
mod frames;
mod left;
mod locals;
mod make;
mod origin;
mod outgoing;
mod run;

pub use crossing::job_run_crosses;
pub use left::{address_of, behind_first, first, form_here, from_address, past, spot_at, spot_of};
pub use make::{Eight, Five, Four, Nine, One, Part, Seven, Six, Ten, Then, Three, Two, make_whole};
pub use origin::{Ending, Origin};
pub use run::JobRun;
pub use run::row::Row;
pub use run::search::{Column, Search, Sought, search_at};
pub use run::stand::{Spot, Stand, Way};
pub use run::turning::{EmptyLoop, empty_loop_at};
pub use run::unseen::{byte_bit, no_bit, number_bit};
pub use run::word::{fits_width, place_to_read, read_at, write_at};
