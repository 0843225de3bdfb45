// The tree of an exchange, one node type for each production of the grammar.
//
// What goes in and out: trees, which the parser makes and the rules, the meaning and the printer
// read. The grammar itself stands in specs/: which lists of tokens spell which tree. The parser's
// contract and the printer's cite it. It knows no rule beyond the grammar: any name may stand for
// anything, and any number has any size.
#![tactic(auto)]

mod block;
mod boxed;
mod expr;
mod few;
mod stmt;
mod tree;
pub mod words;

pub use block::{Block, Decl, DeclKind, Field, Item, ItemKind, Survey, SurveyKind};
pub use boxed::Boxed;
pub use expr::{
    Added, Cond, Conj, Expr, Exprs, Factor, FactorKind, Multiplied, Rel, RelKind, Relation, Term,
};
pub use few::{Few, push_few};
pub use stmt::{Names, Reference, ReferenceKind, Stmt, StmtKind, When};
pub use token_grammar::{KeptName, Leveled, Named, Numbered};
pub use tree::{Shape, ShapeKind, Signal, Tree};
