// The program's name, its help, and its messages about wrong arguments.
use plex_io::Word;
use plex_num::read_number;
use process_ends::{Program, Quoted, say_version, text_of};
use std::io;

/// The program's name, and its message for out of memory.
pub const PROGRAM: Program = Program {
    name: "plex-conflicts",
    no_memory: "out of memory: give it more, or ask for one pair of entries",
};

/// The arguments that the program takes, as part of a sentence.
const WANTS: &str = "an exchange text, and the numbers of two entries or none";

/// Reports wrong arguments on the standard error, or prints the help or the version if they request
/// it.
pub fn say_wrong<R: Eprint>(rt: &R, words: &[Word], are_text: bool) -> io::Result<()> {
    if !are_text {
        return eprintln!(rt; "plex-conflicts: a word is no UTF-8 text");
    }
    match words.first().map(text_of) {
        Some("--help" | "-h") => say_help(rt),
        Some("--version") => say_version(rt, PROGRAM),
        _ => say_number(rt, words),
    }
}

/// Prints the help.
fn say_help<R: Eprint>(rt: &R) -> io::Result<()> {
    eprintln!(rt;
        "plex-conflicts E [i j]: all conflicts of the entries of the exchange E, or of two of them"
    )?;
    eprintln!(rt; "man plex-conflicts tells its text and all statuses")
}

/// Reports the first argument that is too many, or that some are missing.
fn say_number<R: Eprint>(rt: &R, words: &[Word]) -> io::Result<()> {
    match words.get(3) {
        Some(word) => {
            let word = Quoted(text_of(word));
            eprintln!(rt; "plex-conflicts: {word} is a word too many; it wants {WANTS}")
        }
        None => say_entry(rt, words),
    }
}

/// Reports the first of the two arguments that is no entry's number, or that one of them is
/// missing.
fn say_entry<R: Eprint>(rt: &R, words: &[Word]) -> io::Result<()> {
    match other_than_number(words.get(1)).or(other_than_number(words.get(2))) {
        Some(word) => {
            let word = Quoted(text_of(word));
            eprintln!(rt; "plex-conflicts: {word} is no number of an entry")
        }
        None => eprintln!(rt; "plex-conflicts: it wants {WANTS}"),
    }
}

/// The argument, if there is one and it is no number.
fn other_than_number(word: Option<&Word>) -> Option<&Word> {
    let word = word?;
    match read_number(word.as_slice()) {
        Some(_) => None,
        None => Some(word),
    }
}
