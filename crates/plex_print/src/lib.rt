// The text of a tree.
//
// What goes in: a tree. What comes out: a text whose tokens spell that tree again, lines aside. The
// contract of `print_tree` says so by the grammar and by what the tokens of a text are.
// It knows no rule beyond the grammar, and reads no text.
#![tactic(auto)]

mod block;
mod condition;
mod declaration;
mod expression;
pub mod laws;
mod lists;
mod nested;
mod plain;
mod printer;
mod word;

pub use printer::print_tree;
