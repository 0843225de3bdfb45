// What may stand in a text, and what stands in it: one event for each place at which a rule may be
// broken.
//
// What goes in: the tree of a text. What comes out: the events themselves, each read from the tree
// and from 16 bytes that are kept of it, and, as definitions alone, the events of the signals of a
// text and those of each of its blocks, in order. `text_walk` makes these lists; the rules and the
// laws above stand on the definitions, and need no walk of their own through the tree.
// It knows no rule, and nothing of the kinds of signals.
#![tactic(auto)]

mod event;
mod heads;
mod kept;
mod role;

pub use event::{Event, EventKind};
pub use heads::{Head, Way};
pub use kept::{Compared, FieldHere, PackedEvent};
pub use role::{Meaning, Need, Role};
