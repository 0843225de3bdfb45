// The blocks of an exchange are changed while it runs: what it has between two jobs goes over to
// another exchange.
//
// What goes in: an exchange and the one that is to take its place; the parts of the books and the
// stored words of the first, between two jobs. What comes out: the first thing of the old exchange
// that the new one does not have, or else the parts and the words of the new one. What stands for
// what is told by names alone. It runs no job, and knows neither texts nor statements.
#![tactic(auto)]

mod books;
mod carrying;
mod directory;
pub mod laws;
mod misfit;
mod names;
mod same;
mod words;

pub use carrying::carry;
pub use misfit::{Misfit, misfit_of};
pub use same::Named;
