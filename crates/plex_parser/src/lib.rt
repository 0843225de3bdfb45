// The tree of a list of tokens.
//
// What goes in: the tokens of a text. What comes out: the one tree that they spell, or the first
// token that does not fit. The contract of `parse` says so by the grammar that stands with the tree
// types; `laws` says what follows for the function that `parse` computes. Rules, meaning and code
// stand on both. It knows no text: a token's place in its text is looked up by the caller.
#![tactic(auto)]

mod assignment;
mod block;
mod item;
pub mod laws;
mod nested;
mod parser;
mod plain;
mod signalling;

pub use parser::{ParseFault, parse};
