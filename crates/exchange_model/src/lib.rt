// The exchange: what a program text means once its names are resolved.
//
// What comes out: the types of signals, blocks, entries, points, statements and expressions, in
// which every name is a number; what an exchange keeps; and the numbering of the cells, which are
// the stored variables, fields and marks of all blocks in order, with the store before the first
// job. An exchange notes once, when it is made, where its cells, files, entries and ENTERs stand,
// and looks them up from then on. The meaning of a program is said over these types, and the report
// names them. They know no text: lines are kept for the reader of a report alone.
#![tactic(auto)]

mod block;
mod crossing;
mod entry;
mod exchange;
mod expr;
mod index;
mod laws;
mod names;
mod signal;
mod stmt;

pub use block::{Block, Enter, File, FilePlace, Label, Variable};
pub use crossing::exchange_crosses;
pub use entry::{Cell, Entry, PointInfo};
pub use exchange::Exchange;
pub use expr::{Cond, Expr, Factor, FactorOp, Joined, Rel, Relation, Term};
pub use laws::{cells_are_numbered, opening_has_each_cell};
pub use signal::SignalKind;
pub use stmt::{Holder, Receiver, Stmt, StmtKind, When};
