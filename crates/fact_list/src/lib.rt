// Facts in a list that rises, as those of a certificate.
//
// What goes in: facts, which are put in the order of their entries, points, slots and values, none
// of them twice. What comes out: whether a fact is among them, whether a point is reached, and the
// values that a slot may have before it. An index tells where the facts of an entry at a point
// stand, and only those are searched, by halves. It knows no flow rule, and not from where the
// facts come.
#![tactic(auto)]

mod index;
mod list;
mod order;
mod search;

pub use list::FactList;
pub use order::in_order;
