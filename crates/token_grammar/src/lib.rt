// How a grammar over tokens is said, read and proved to be read exactly.
//
// What comes out: languages of tokens put together production by production; readers with one token
// of sight, put together in the same way; and what makes a reader exact: it reads what the language
// spells and nothing else, and stops at the first token after the longest front that begins some
// sentence. The functions here read one token. A parser above is a chain of them.
// It knows no production of any grammar.
#![tactic(auto)]

mod fault;
mod kept_name;
mod named;
mod reading;

pub use fault::Fault;
pub use kept_name::KeptName;
pub use named::{Leveled, Named, Numbered};
pub use reading::{level, line_of, name, number, starts, starts_in, starts_name, word};
