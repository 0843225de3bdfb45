// The program's name, its help, and its messages about wrong arguments.
use plex_io::Word;
use process_ends::{Program, Quoted, say_version, text_of};
use std::io;

/// The program's name, and its message for out of memory.
pub const PROGRAM: Program = Program {
    name: "plex-merge",
    no_memory: "out of memory: give it more, or merge smaller files",
};

/// The arguments that the program takes, as part of a sentence.
const WANTS: &str = "three files: an exchange text, a signal file and a table";

/// Reports wrong arguments on the standard error, or prints the help or the version if they request
/// it.
pub fn say_wrong<R: Eprint>(rt: &R, words: &[Word], are_text: bool) -> io::Result<()> {
    if !are_text {
        return eprintln!(rt; "plex-merge: a word is no UTF-8 text");
    }
    match words.first().map(text_of) {
        Some("--help" | "-h") => say_help(rt),
        Some("--version") => say_version(rt, PROGRAM),
        _ => say_number(rt, words),
    }
}

/// Prints the help.
fn say_help<R: Eprint>(rt: &R) -> io::Result<()> {
    eprintln!(rt;
        "plex-merge E S T: the signal file that the signal file S and the table T stand for"
    )?;
    eprintln!(rt; "man plex-merge tells all files and statuses")
}

/// Reports the first argument that is too many, or that some are missing.
fn say_number<R: Eprint>(rt: &R, words: &[Word]) -> io::Result<()> {
    match words.get(3) {
        Some(word) => {
            let word = Quoted(text_of(word));
            eprintln!(rt; "plex-merge: {word} is a word too many; it wants {WANTS}")
        }
        None => eprintln!(rt; "plex-merge: it wants {WANTS}"),
    }
}
