// The layout of an exchange: where each stored cell stands among the words of a store.
//
// What goes in: an exchange. What comes out: its `Layout`, the word of a cell and the cell of a
// word, both without a walk, and the store before the first job. The numbering itself is
// `exchange_model`'s; the next layers use that `word_of` is `cell_number`, that `cell_of` gives the
// one cell of that number, and that a file's row tells its first word and how far its records stand
// apart. It knows no statement, no job and no machine.
#![tactic(auto)]

mod crossing;
mod layout;
mod row;
mod store;

pub use crossing::layout_crosses;
pub use layout::{Layout, cell_of, file_of, layout_of, word_of};
pub use row::{BlockRow, FileRow};
pub use store::opening;
