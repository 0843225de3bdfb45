// The program `plex`: passes the command's arguments, real files and the standard output to the one
// call that does the work. Lines on the standard error say what the standard output does not.
#![tactic(auto)]

use answer_meaning::ProgramEnd;
use command_usage::{PROGRAM, say_wrong};
use command_words::Status;
use plex_io::{FileShelf, NoGate, OutSink, Shelf, Sink, Word};
use plex_num::Memory;
use plex_program::plex;
use process_ends::{
    ClearingSink, Known, NotingShelf, Progress, complain, is_asked, no_memory, words_of,
};
use std::alloc::Global;
use std::io::ErrorKind;
use std::process::ExitCode;
use std::rt::{Clock, Env, Files};
use std::sync::Wait;
use std::thread::Threads;

fn main(rt: HostRuntime) -> ExitCode {
    let status = match words_of(&rt, rt.alloc()) {
        Ok(Some(words)) => run(&rt, rt.alloc(), &words, true),
        Ok(None) => run(&rt, rt.alloc(), &[], false),
        Err(Memory) => no_memory(&rt, PROGRAM),
    };
    ExitCode::from(status.number())
}

/// Runs the program with real files and the standard output, and reports its end on the standard
/// error. `words` is empty if an argument is not UTF-8 (`are_text` false).
fn run<R: Threads + Wait + Sync + Files + Print + Eprint + Clock + Env>(
    rt: &R,
    alloc: Global,
    words: &[Word],
    are_text: bool,
) -> Status {
    let progress = asked_progress(rt);
    let mut shelf = NotingShelf::new(FileShelf::new(rt), words);
    let (end, write_failure) = write_out(rt, alloc, words, &mut shelf, progress.as_ref());
    if let Some(progress) = &progress {
        progress.clear();
    }
    if end.status == Status::Usage {
        let _ = say_wrong(rt, alloc, words, are_text);
    }
    let known = Known {
        program: PROGRAM,
        files: files_in(words),
        unread: shelf.unread(),
        read_failure: shelf.inner().cause(),
        write_failure,
    };
    complain(rt, end, &known)
}

/// Makes the call with the standard output. Returns the cause of a write failure too.
fn write_out<R: Threads + Wait + Sync + Print + Eprint + Clock, S: Shelf>(
    rt: &R,
    alloc: Global,
    words: &[Word],
    shelf: &mut S,
    progress: Option<&Progress<'_, R>>,
) -> (ProgramEnd, Option<ErrorKind>) {
    let mut sink = ClearingSink::new(OutSink::new(rt), progress);
    let end = call(rt, alloc, words, shelf, &mut sink, progress);
    (end, sink.inner().cause())
}

/// Makes the call, with a progress line if there is one.
fn call<R: Threads + Wait + Sync + Clock + Eprint, S: Shelf, K: Sink>(
    rt: &R,
    alloc: Global,
    words: &[Word],
    shelf: &mut S,
    sink: &mut K,
    progress: Option<&Progress<'_, R>>,
) -> ProgramEnd {
    match progress {
        Some(gate) => plex(rt, alloc, words, shelf, sink, gate),
        None => plex(rt, alloc, words, shelf, sink, &NoGate),
    }
}

/// The progress line, if the environment turns it on.
fn asked_progress<R: Clock + Eprint + Env>(rt: &R) -> Option<Progress<'_, R>> {
    if is_asked(rt) {
        Progress::begin(rt)
    } else {
        None
    }
}

/// The arguments after the name of the command.
fn files_in(words: &[Word]) -> &[Word] {
    match words.split_first() {
        Some((_, files)) => files,
        None => words,
    }
}
