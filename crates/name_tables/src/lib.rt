// Tables of rows with names: the keywords of the language and the instructions of the machine, and
// the two ways to look in a table, by name and by place.
//
// The lexer stands on the contract of `find`, which says the place of the first row of a name;
// those who write names stand on that of `name_of`. It knows nothing of texts.
#![tactic(auto)]

mod laws;
mod row;
mod tables;

pub use laws::{absent_where_none, found_is_first, found_where_it_stands};
pub use row::{Named, Row, find, name_of};
pub use tables::{keywords, operations};
