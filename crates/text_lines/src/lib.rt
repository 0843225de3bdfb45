// Lines, words and numerals of a text.
//
// What goes in: bytes. What comes out: lines and words from the front; the bytes before the first
// that is a certain one, and what stands from there on; whether a word is a numeral, and the number
// that it says. Of lines and of numbers in decimal digits the lemmas stand here that each text
// needs that is printed and read again. It does not know what the words of a text mean.
#![tactic(auto)]

mod digits;
mod parts;
mod words;

pub use digits::{is_numeral, numeral};
pub use parts::{cut, until};
pub use words::{is_skipped, is_word, next_line, next_word};
