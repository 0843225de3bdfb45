// The facts of one entry, kept as rows of sets.
//
// What goes in: the flow table of an exchange, and facts of an entry, one at a time, or all that
// one slot has to another one. What comes out: whether a fact is known, the values that a slot may
// have before a point, and the known facts in order, of one point or all. Each slot before each
// point has a set of numbers, which stand for values; slots with the same set share its bits. It
// knows no flow rule: what follows from what is for the layer above.
#![tactic(auto)]

mod bits;
mod grid;
mod hints;
mod keys;
mod laws;
mod narrow;
mod place;
mod planes;
mod point_facts;
mod rows;
mod sets;
mod value;

pub use keys::Key;
pub use laws::slots_have_places;
pub use place::{Counts, Spot};
pub use point_facts::PointFacts;
pub use rows::FactRows;
pub use value::{ANY_NUMBER, AWAITED_NUMBERS};
