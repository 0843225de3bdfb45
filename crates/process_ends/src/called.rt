// Runs a program with real files and the standard output.
use crate::complaint::{Known, Program, complain, no_memory};
use crate::noting_shelf::NotingShelf;
use crate::words::words_of;
use answer_meaning::ProgramEnd;
use command_words::Status;
use plex_io::{FileShelf, OutSink, Shelf, Sink, Word};
use plex_num::Memory;
use std::alloc::Global;
use std::io;
use std::process::ExitCode;
use std::rt::{Env, Files};

/// A program whose arguments are names of files, and which does its work in one call.
pub trait Called {
    /// The program's name and its message for out of memory.
    fn program(&self) -> Program;

    /// Does the work.
    fn call<S: Shelf, K: Sink>(
        &self,
        alloc: Global,
        words: &[Word],
        shelf: &mut S,
        sink: &mut K,
    ) -> ProgramEnd;

    /// Reports wrong arguments on the standard error. `are_text` is false if an argument is not
    /// UTF-8. Fails if the line cannot be written.
    fn say_wrong<R: Eprint>(&self, rt: &R, words: &[Word], are_text: bool) -> io::Result<()>;
}

/// Calls the program with the process's arguments, real files and the standard output, and reports
/// its end on the standard error.
pub fn run_called<R: Env + AllocGlobal + Files + Print + Eprint, C: Called>(
    rt: &R,
    called: &C,
) -> ExitCode {
    let status = match words_of(rt, rt.alloc()) {
        Ok(Some(words)) => run_words(rt, called, &words, true),
        Ok(None) => run_words(rt, called, &[], false),
        Err(Memory) => no_memory(rt, called.program()),
    };
    ExitCode::from(status.number())
}

/// The same with these arguments. They are empty if an argument is not UTF-8 (`are_text` false).
fn run_words<R: AllocGlobal + Files + Print + Eprint, C: Called>(
    rt: &R,
    called: &C,
    words: &[Word],
    are_text: bool,
) -> Status {
    let mut shelf = NotingShelf::new(FileShelf::new(rt), words);
    let mut sink = OutSink::new(rt);
    let end = called.call(rt.alloc(), words, &mut shelf, &mut sink);
    if end.status == Status::Usage {
        let _ = called.say_wrong(rt, words, are_text);
    }
    let known = Known {
        program: called.program(),
        files: words,
        unread: shelf.unread(),
        read_failure: shelf.inner().cause(),
        write_failure: sink.cause(),
    };
    complain(rt, end, &known)
}
