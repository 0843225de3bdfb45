// Small types, numbers and lists, on which every crate of plex stands.
//
// What comes out: `Seq`, the list that contracts see as a list; `Name` and `Values`, lists of fixed
// capacity that take no memory; numbers of 32 bits with the language's arithmetic; the one way in
// which a number is read from a text and written to one; and `Seed`, by which a table of names puts
// its keys where no text can choose. It knows nothing of signals, blocks or texts.
#![tactic(auto)]

mod arithmetic;
mod level;
mod name;
mod number;
mod seed;
mod seq;
mod values;

pub use arithmetic::{add, div, fits, mul, rem, sub, value_at};
pub use level::Level;
pub use name::Name;
pub use number::{add_number, print_number, read_number};
pub use seed::Seed;
pub use seq::{Memory, Seq};
pub use values::Values;
