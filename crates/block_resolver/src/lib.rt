// From the blocks of a text to those of an exchange, in which numbers stand for names.
//
// What goes in: the tree of a text with what stands in it, its signals, and its blocks by their
// names and by what they receive. What comes out: the blocks with numbered statements, in which
// each signal has its receiver; `resolved_block` defines which these are. A name that stands for
// nothing gives 0.
// It knows nothing of which text is well formed, and counts neither entries nor cells.
#![tactic(auto)]

mod body;
mod conditions;
mod data;
mod declared;
mod expressions;
mod kinds;
mod names;
mod numbers;
mod statements;
mod survey;
mod text;
mod whole;

pub use text::resolve_blocks;
