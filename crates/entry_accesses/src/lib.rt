// What the jobs of an entry do to stored data and to which levels they send, told from facts.
//
// What goes in: an exchange with its statements where they stand, the numbers of its variables and
// fields, which are made once, and facts that are known, however they are kept. What comes out: the
// accesses of the statements that a job of the entry may reach, in order, and the levels to which
// it may send, from A on; of each no more and no fewer than the facts tell. It does not know how
// facts were found, whether a job may fault, and what becomes of accesses.
#![tactic(auto)]

mod accesses;
mod levels;
mod listed;
mod numbers;
mod opening;
mod operands;
mod order;
mod uses;

pub use accesses::accesses_within;
pub use levels::levels_of;
pub use listed::Listed;
pub use numbers::{CellNumbers, numbers_of};
