// The program `plex-merge`: passes the command's arguments, real files and the standard output to
// the one call that does the work. Lines on the standard error say what the standard output does
// not.
#![tactic(auto)]

mod usage;

use answer_meaning::ProgramEnd;
use merge_program::plex_merge;
use plex_io::{Shelf, Sink, Word};
use process_ends::{Called, Program, run_called};
use std::alloc::Global;
use std::io;
use std::process::ExitCode;
use usage::{PROGRAM, say_wrong};

fn main(rt: HostRuntime) -> ExitCode {
    run_called(&rt, &Merge)
}

/// The program, as main calls it.
struct Merge;

impl Called for Merge {
    fn program(&self) -> Program {
        PROGRAM
    }

    fn call<S: Shelf, K: Sink>(
        &self,
        alloc: Global,
        words: &[Word],
        shelf: &mut S,
        sink: &mut K,
    ) -> ProgramEnd {
        plex_merge(alloc, words, shelf, sink)
    }

    fn say_wrong<R: Eprint>(&self, rt: &R, words: &[Word], are_text: bool) -> io::Result<()> {
        say_wrong(rt, words, are_text)
    }
}
