// What is told of the conflicts of an exchange: each with the accesses that clash, and each access
// with the statements that give it.
//
// What goes in: an exchange, and the pair of entries that is asked for, if one is. What comes out:
// the types of the rows of the text, and the definition of the text over the summaries of the
// entries by the least facts. It holds no code: what finds the rows stands above.
#![tactic(auto)]

mod rows;

pub use rows::{Clash, ClashRow, EntryPair, GivenAt, MOST_TOLD, Section};
