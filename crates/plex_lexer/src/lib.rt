// Tokens of a text.
//
// What goes in: the bytes of a text. What comes out: its tokens, each with its line and its offset,
// or the first place that begins no token. The parser stands on the contract of `lex`, which says
// which, and reads them by a `Cursor`. A token is kept in eight bytes, as what sort it is, where it
// begins and its line; contracts see a list of whole tokens. It knows no sentence: any list of
// tokens is an answer.
#![tactic(auto)]

mod cursor;
mod fault;
mod laws;
mod lexer;
mod marks;
mod runs;
mod sort;
mod spot;
mod token;
mod tokens;
mod words;

pub use cursor::{Cursor, Found};
pub use fault::LexFault;
pub use laws::{lines_are_few, tokens_are_on_their_lines};
pub use lexer::lex;
pub use sort::Sort;
pub use token::{Token, TokenKind};
pub use tokens::Tokens;
