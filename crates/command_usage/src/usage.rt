// The sentence of what is wrong with words that are no command.
use crate::forms::{COMMANDS, NAMES, PROGRAM, form_of, number_of, option_of};
use command_words::{CommandName, CommandOption, WordsFault, read_command};
use plex_io::Word;
use process_ends::{Named, Quoted, say_version, text_of};
use std::alloc::Global;
use std::{fmt, io};

/// Says on the standard error what is wrong with words that are no command, or what they ask for:
/// what each command does, or the version. `are_text` tells whether all words were text; where
/// they were not, `words` is not looked at. Of words that are a command nothing is said, nor where
/// memory is refused. There is an error where a line cannot be written.
pub fn say_wrong<R: Eprint>(
    rt: &R,
    alloc: Global,
    words: &[Word],
    are_text: bool,
) -> io::Result<()> {
    if !are_text {
        return eprintln!(rt; "plex: a word is no UTF-8 text");
    }
    match read_command(alloc, words) {
        Ok(Err(fault)) => say_fault(rt, &fault),
        _ => Ok(()),
    }
}

/// Says what is wrong, or what the first word asks for in place of a command.
fn say_fault<R: Eprint>(rt: &R, fault: &WordsFault) -> io::Result<()> {
    match asked_by(fault) {
        Some("--help" | "-h") => say_help(rt),
        Some("--version") => say_version(rt, PROGRAM),
        _ => {
            let sentence = Sentence(fault);
            eprintln!(rt; "plex: {sentence}")
        }
    }
}

/// The first word, where it names no command.
fn asked_by(fault: &WordsFault) -> Option<&str> {
    match fault {
        WordsFault::UnknownCommand(name) => Some(text_of(name)),
        _ => None,
    }
}

/// What each command does.
fn say_help<R: Eprint>(rt: &R) -> io::Result<()> {
    for command in &COMMANDS {
        let does = form_of(*command).does;
        eprintln!(rt; "plex {does}")?;
    }
    eprintln!(rt; "man plex tells all options, files and statuses")
}

/// The sentence of what is wrong with the words.
#[derive(Clone, Copy)]
struct Sentence<'a>(&'a WordsFault);

impl fmt::Display for Sentence<'_> {
    fn fmt<W: fmt::Write>(&self, f: &mut fmt::Formatter<W>) -> fmt::Result {
        match self.0 {
            WordsFault::NoWords => {
                write!(f, "no command; {NAMES}; plex --help tells what each does")
            }
            WordsFault::UnknownCommand(name) => {
                let name = Quoted(text_of(name));
                write!(f, "no command {name}; {NAMES}")
            }
            WordsFault::MissingWords(command) => {
                let form = form_of(*command);
                let name = form.name;
                let wants = form.wants;
                write!(f, "{name} wants {wants}")
            }
            WordsFault::BadNumber(command, word) => {
                let (what, most) = number_of(*command);
                write_range(f, what, word, most)
            }
            WordsFault::UnknownOption(command, word) => write_unknown(f, *command, word),
            WordsFault::OptionTwice(option) => {
                let (name, _) = option_of(*option);
                write!(f, "{name} stands twice")
            }
            WordsFault::MissingValue(option) => write_missing(f, *option),
            WordsFault::BadValue(option, word) => match option_of(*option) {
                (name, Some(most)) => write_range(f, name, word, most),
                (_, None) => write_missing(f, *option),
            },
        }
    }
}

/// That a word is no number from 1 up to the most.
fn write_range<W: fmt::Write>(
    f: &mut fmt::Formatter<W>,
    what: &str,
    word: &Word,
    most: u32,
) -> fmt::Result {
    let word = Named(text_of(word));
    write!(f, "{what} {word}: from 1 to {most}")
}

/// That a word is none of the options of a command.
fn write_unknown<W: fmt::Write>(
    f: &mut fmt::Formatter<W>,
    command: CommandName,
    word: &Word,
) -> fmt::Result {
    let form = form_of(command);
    let name = form.name;
    let wants = form.wants;
    let word = Quoted(text_of(word));
    match form.options {
        Some(options) => write!(
            f,
            "{word} is no option of {name}; behind {wants} may stand {options}"
        ),
        None => write!(f, "{word} is a word too many; {name} wants {wants}"),
    }
}

/// That a value is wanted behind an option.
fn write_missing<W: fmt::Write>(f: &mut fmt::Formatter<W>, option: CommandOption) -> fmt::Result {
    match option_of(option) {
        (name, Some(most)) => write!(f, "{name} wants a number from 1 to {most}"),
        (name, None) => write!(f, "{name} wants a file"),
    }
}
