// The walk through a text that lists what stands in it.
//
// What goes in: the tree of a text. What comes out: a list of events for its signals, and one for
// each of its blocks, in the order of the text; `text_events` defines which these are.
// It knows no rule, and nothing of the kinds of signals.
#![tactic(auto)]

mod block;
mod declarations;
mod expressions;
mod pushes;
mod statements;
mod text;

pub use text::walk_text;
