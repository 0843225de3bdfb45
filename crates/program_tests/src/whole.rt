// The output of the program when memory is ample.
use crate::devices::{files_of, words_of};
use answer_meaning::Stop;
use command_words::Status;
use plex_io::{Gate, SteadyShelf, SteadySink};
use plex_num::Memory;
use plex_program::plex_steady;
use std::alloc::Global;
use std::sync::Wait;
use std::thread::Threads;

/// A status or a text differs from the expected one, or the program is out of memory.
#[derive(Clone, Copy, Debug)]
pub struct NotMade;

impl From<Memory> for NotMade {
    fn from(_: Memory) -> NotMade {
        NotMade
    }
}

impl From<Stop> for NotMade {
    fn from(_: Stop) -> NotMade {
        NotMade
    }
}

/// Checks that the program answers these arguments and files with this status and this text. The
/// sink has room for exactly this text.
pub fn answers<R: Threads + Wait + Sync, G: Gate + Sync>(
    rt: &R,
    alloc: Global,
    words: &[&str],
    files: &[(&str, &str)],
    gate: &G,
    (status, text): (Status, &str),
) -> Result<(), NotMade> {
    let words = words_of(alloc, words)?;
    let files = files_of(alloc, files)?;
    let mut shelf = SteadyShelf::new(files);
    let mut sink = SteadySink::new(alloc);
    sink.reserve(text.len())?;
    let ended = plex_steady(rt, alloc, words.as_slice(), &mut shelf, &mut sink, gate);
    if ended == status && sink.bytes() == text.as_bytes() {
        Ok(())
    } else {
        Err(NotMade)
    }
}
