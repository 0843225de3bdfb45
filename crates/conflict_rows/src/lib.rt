// The rows of the text of conflicts.
//
// What goes in: two summaries, of the job that comes first in the single run and of the later one;
// or an entry with its summary, the statements that its jobs may reach and the facts by which it
// was made. What comes out: all accesses of the two that clash, each pair by its numbers, and all
// points whose statements give an access of the entry or send to a level, both in order; of the
// points some alone, where they are more than may be found; and which accesses of one list none of
// another is near. It does not know how rows are written.
#![tactic(auto)]

mod at_point;
mod clash;
mod clashes;
mod found;
mod given;
mod near;
mod places;
mod skip;

pub use clashes::clashes_of;
pub use found::GivenRows;
pub use given::{KnownEntry, given_in, given_within};
pub use skip::next_near;
