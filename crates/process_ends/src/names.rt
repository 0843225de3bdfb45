// Names and arguments as they are printed.
use plex_io::Word;
use std::fmt;

/// A file name as printed: unchanged if it is not empty and has no control character, so that it
/// cannot steer a terminal; else in double quotes, with escapes such as `\n`.
#[derive(Clone, Copy)]
pub struct Named<'a>(pub &'a str);

impl fmt::Display for Named<'_> {
    fn fmt<W: fmt::Write>(&self, f: &mut fmt::Formatter<W>) -> fmt::Result {
        let name = self.0;
        if is_plain(name) {
            write!(f, "{name}")
        } else {
            write!(f, "{name:?}")
        }
    }
}

/// Several names, each after a space.
#[derive(Clone, Copy)]
pub struct Names<'a>(pub &'a [Word]);

impl fmt::Display for Names<'_> {
    fn fmt<W: fmt::Write>(&self, f: &mut fmt::Formatter<W>) -> fmt::Result {
        for word in self.0 {
            let name = Named(text_of(word));
            write!(f, " {name}")?;
        }
        Ok(())
    }
}

/// An argument in quotes: single ones if it is not empty and has no control character; else double
/// ones, with escapes.
#[derive(Clone, Copy)]
pub struct Quoted<'a>(pub &'a str);

impl fmt::Display for Quoted<'_> {
    fn fmt<W: fmt::Write>(&self, f: &mut fmt::Formatter<W>) -> fmt::Result {
        let word = self.0;
        if is_plain(word) {
            write!(f, "'{word}'")
        } else {
            write!(f, "{word:?}")
        }
    }
}

fn is_plain(text: &str) -> bool {
    !text.is_empty() && !text.chars().any(|character| character.is_control())
}

/// The text of an argument; empty if it is not UTF-8.
pub fn text_of(word: &Word) -> &str {
    match str::from_utf8(word.as_slice()) {
        Ok(text) => text,
        Err(_) => "",
    }
}
