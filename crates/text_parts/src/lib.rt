// Texts in parts.
//
// What goes in: texts, one after the other, and the places of those that are to stand there once
// more, which takes the room of a number; or bytes, at the end of a text. What comes out: the list
// of the parts, or a text, and a sink that has taken it. Callers see a list of texts, or the bytes
// of a text, and never what is kept once nor where a part ends. It knows nothing of what the texts
// say.
#![tactic(auto)]

mod parts;
mod text;
mod writing;

pub use parts::Parts;
pub use text::Text;
pub use writing::write_text;
