// The messages on the standard error for each status. A message that cannot be written is dropped.
ghost use Rattle.std.specs.Prelude.{◌≡◌, ◌↔◌, ◌⊎◌};
ghost use Rattle.command_words.specs.Status.{exit_number};

use crate::names::{Named, Names, text_of};
use crate::sentences::{read_reason, row_of, write_reason};
use answer_meaning::{CertificateFault, FileFault, ProgramEnd, Which};
use command_words::Status;
use plex_io::Word;
use std::io;
use std::io::ErrorKind;

/// The version of the programs. The documents and the manual pages state it too.
const VERSION: &str = "1.0.0";

/// A program's name and its message for out of memory.
#[derive(Clone, Copy)]
pub struct Program {
    /// Its name, the prefix of its messages.
    pub name: &'static str,
    /// The message for status 8: what out of memory means for this program.
    pub no_memory: &'static str,
}

/// What main knows about a run besides its end.
#[derive(Drop)]
pub struct Known<'a> {
    /// The program.
    pub program: Program,
    /// The arguments from the first file on: the exchange text, the signal file, the other files
    /// and the options after them.
    pub files: &'a [Word],
    /// The name of the file that could not be read.
    pub unread: Option<&'a Word>,
    /// The cause of that read failure.
    pub read_failure: Option<ErrorKind>,
    /// The cause of the write failure.
    pub write_failure: Option<ErrorKind>,
}

/// What to report.
#[derive(Clone, Copy, PartialEq, Eq)]
enum Matter {
    /// Nothing: the output says it all.
    Nothing,
    /// Wrong arguments, which the program itself reports.
    Words,
    /// A fault of a file, which the output's line names.
    Fault,
    /// Which file could not be read, and why.
    Read,
    /// Why the output could not be written in full.
    Write,
    /// Out of memory.
    Memory,
}

/// What to report for a status.
fn matter_of(status: Status) -> Matter
    ensures { (result ≡ Matter.Nothing)
        ↔ ((exit_number status ≡ 0) ⊎ (exit_number status ≡ 4) ⊎ (exit_number status ≡ 5)) }
{
    match status {
        Status::Done | Status::Restart | Status::Limit => Matter::Nothing,
        Status::Usage => Matter::Words,
        Status::Source
        | Status::Signals
        | Status::Certificate
        | Status::Table
        | Status::Change
        | Status::Filter => Matter::Fault,
        Status::Read => Matter::Read,
        Status::Write => Matter::Write,
        Status::Memory => Matter::Memory,
    }
}

/// Reports an end on the standard error where the standard output does not say it all, and returns
/// its status. `Usage` is left to the program, which alone knows its arguments.
pub fn complain<R: Eprint>(rt: &R, end: ProgramEnd, known: &Known<'_>) -> Status
    ensures { result ≡ end.status }
{
    let program = known.program.name;
    let _ = match matter_of(end.status) {
        Matter::Nothing | Matter::Words => Ok(()),
        Matter::Fault => match end.fault {
            Some(fault) => say_fault(rt, fault, known.files),
            None => Ok(()),
        },
        Matter::Read => say_unread(rt, known),
        Matter::Write => {
            let reason = write_reason(known.write_failure);
            eprintln!(rt; "{program}: the output could not be written whole: {reason}")
        }
        Matter::Memory => {
            let means = known.program.no_memory;
            eprintln!(rt; "{program}: {means}")
        }
    };
    end.status
}

/// Prints a program's name and version on the standard error.
pub fn say_version<R: Eprint>(rt: &R, program: Program) -> io::Result<()> {
    let name = program.name;
    eprintln!(rt; "{name} {VERSION}")
}

/// The end of a program that was out of memory when it took its arguments.
pub fn no_memory<R: Eprint>(rt: &R, program: Program) -> Status
    ensures { result ≡ Status.Memory }
{
    let known = Known {
        program,
        files: &[],
        unread: None,
        read_failure: None,
        write_failure: None,
    };
    let end = ProgramEnd {
        status: Status::Memory,
        fault: None,
    };
    complain(rt, end, &known)
}

/// Reports which file could not be read, and why.
fn say_unread<R: Eprint>(rt: &R, known: &Known<'_>) -> io::Result<()> {
    let program = known.program.name;
    let reason = read_reason(known.read_failure);
    match known.unread {
        Some(name) => {
            let name = Named(text_of(name));
            eprintln!(rt; "{program}: {name}: {reason}")
        }
        None => eprintln!(rt; "{program}: a file could not be read: {reason}"),
    }
}

/// Reports a fault in the form that compilers use. Where the fault has a line, a second message
/// names the command that lists all faults of the file.
fn say_fault<R: Eprint>(rt: &R, fault: FileFault, files: &[Word]) -> io::Result<()> {
    let Some(file) = file_of(fault, files) else {
        return Ok(());
    };
    let file = Named(text_of(file));
    let (word, sentence) = row_of(fault);
    match line_of(fault) {
        0 => eprintln!(rt; "{file}: {word}: {sentence}"),
        line => {
            eprintln!(rt; "{file}:{line}: {word}: {sentence}")?;
            say_checker(rt, fault, files)
        }
    }
}

/// The line of a fault, from 1; 0 if it has none.
fn line_of(fault: FileFault) -> u32 {
    match fault {
        FileFault::Source { which: _, fault } => fault.line,
        FileFault::Signals(fault) => fault.line,
        FileFault::Certificate(CertificateFault::BadText { line }) => line,
        FileFault::Table(fault) => fault.line,
        FileFault::Filter(fault) => fault.line,
        FileFault::Certificate(_) | FileFault::Change(_) => 0,
    }
}

/// Names the command that lists all faults of the file, if plex-check reads such files.
fn say_checker<R: Eprint>(rt: &R, fault: FileFault, files: &[Word]) -> io::Result<()> {
    match read_together(fault, files) {
        Some(files) => {
            let names = Names(files);
            eprintln!(rt; "plex-check{names} tells all faults, with columns")
        }
        None => Ok(()),
    }
}

/// The files that plex-check reads to list all faults of this fault's file; `None` if it does not
/// read such a file.
fn read_together(fault: FileFault, files: &[Word]) -> Option<&[Word]> {
    match fault {
        FileFault::Source {
            which: Which::First,
            fault: _,
        } => first_of(files, 1),
        FileFault::Source {
            which: Which::New,
            fault: _,
        } => {
            let (_, new) = first_of(files, 3)?.split_at_checked(2)?;
            Some(new)
        }
        FileFault::Signals(_) => first_of(files, 2),
        FileFault::Table(_) | FileFault::Filter(_) => first_of(files, 3),
        FileFault::Certificate(_) | FileFault::Change(_) => None,
    }
}

/// The first `many` words; `None` if there are fewer.
fn first_of(words: &[Word], many: usize) -> Option<&[Word]> {
    let (first, _) = words.split_at_checked(many)?;
    Some(first)
}

/// The name of the file in which a fault is.
fn file_of(fault: FileFault, files: &[Word]) -> Option<&Word> {
    match fault {
        FileFault::Source {
            which: Which::First,
            fault: _,
        } => files.first(),
        FileFault::Signals(_) => files.get(1),
        FileFault::Certificate(_) => certificate_in(files),
        FileFault::Source {
            which: Which::New,
            fault: _,
        }
        | FileFault::Table(_)
        | FileFault::Filter(_)
        | FileFault::Change(_) => files.get(2),
    }
}

/// The name of a run's certificate: the word after `--cert`. Options follow the two files in pairs.
fn certificate_in(files: &[Word]) -> Option<&Word> {
    let (_, options) = files.split_at_checked(2)?;
    let pair = options.chunks(2).find(
        |pair| matches!(pair.first(), Some(name) if text_of(name) == "--cert"),
    )?;
    pair.get(1)
}
