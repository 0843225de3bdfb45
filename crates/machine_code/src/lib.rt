// The code of the register machine as data, and the words that it runs over.
//
// What comes out: `Op` and `Code`, the instructions and the addresses at which entries begin;
// `Permit`, the words that a job may read and write; and the trait `Words`, by which one machine
// runs over a list, over the shared words of a loan, and over those of the root. The layers above
// stand on the laws of `Words` and on the words of a permit. It knows neither what an instruction
// does nor which words an exchange has.
#![tactic(auto)]

mod choices;
mod code;
mod crossing;
mod form;
mod laws;
mod op;
mod permit;
mod words;

pub use choices::{Choices, Passed, has_row, passed_at, rows_of};
pub use code::Code;
pub use crossing::{code_crosses, permit_crosses};
pub use form::{Form, Shape};
pub use laws::span_has_its_words_alone;
pub use op::Op;
pub use permit::{Permit, Span};
pub use words::Words;
