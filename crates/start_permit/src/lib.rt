// The words that a job may read and write, told before it starts.
//
// What goes in: what the jobs of the entry may do, the values and the chain with which this one
// starts, the chains of all forlopps, and the layout; and once for an exchange, where its variables
// and fields stand by their numbers. What comes out: the job's permit, exactly the words that its
// summary tells for this start. It does not know how a summary was found, whether two permits are
// apart, and what runs under them.
#![tactic(auto)]

mod granting;
mod runs;
mod table;
mod whole;

pub use table::{CellTable, FieldPlace, table_of};
pub use whole::permit;
