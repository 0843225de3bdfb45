// Expressions, conditions and lists read from the front of a list of tokens.
//
// What goes in: tokens. What comes out: a node and the tokens after it, or where the reading
// stopped. Each function's contract says that it does what its reader in specs/ does, and the
// proofs say that the reader is exact for the grammar. The parser of statements and blocks stands
// on both. It knows no statement.
#![tactic(auto)]

mod boxes;
mod condition;
mod expression;
mod factor;
mod lists;

pub use boxes::boxed;
pub use condition::{cond, rel};
pub use expression::expr;
pub use factor::pointer;
pub use lists::{exprs, names, reference};
