// Tests of a run that ends at its limit, and of a run of merged lines.
use crate::devices::{COUNTER, files_of, words_of};
use crate::whole::{NotMade, answers};
use command_words::Status;
use merge_program::plex_merge;
use plex_io::{NoGate, SteadyShelf, SteadySink};
use std::alloc::Global;
use std::test::Fail;

/// Each job of WHEEL sends the next one.
const WHEEL: &str = "SIGNAL AGAIN SINGLE BUFFERED B DATA 0;
BLOCK WHEEL;
DECLARE; VARIABLE TURNS WIDTH 32;
SURVEY; RECEIVE AGAIN; SEND AGAIN;
PROGRAM;
ENTER AGAIN;
TURNS = TURNS + 1;
SEND AGAIN;
END BLOCK;
";

const ONE_PUSH: &str = "AFTER 0 AGAIN WHEEL NONE\n";

/// A run of many jobs ends at its limit as a short one does.
#[test]
fn a_run_ends_after_five_hundred_jobs(rt: HostRuntime) -> Result<(), Fail> {
    let words = ["run", "E", "S", "--jobs", "500"];
    let files = [("E", WHEEL), ("S", ONE_PUSH)];
    let report = "JOBS 500\nVAR WHEEL.TURNS 500\nEND LIMIT\n";
    let wanted = (Status::Limit, report);
    answers(&rt, rt.alloc(), &words, &files, &NoGate, wanted)?;
    Ok(())
}

const TWO_TICKS: &str = "AFTER 0 TICK COUNTER NONE
AFTER 2 TICK COUNTER NONE
";

const THREE_MORE: &str = "EVERY 2 FROM 1 TIMES 3 TICK COUNTER NONE\n";

/// The ticks of both files.
const MERGED: &str = "AFTER 0 TICK COUNTER NONE
AFTER 1 TICK COUNTER NONE
AFTER 2 TICK COUNTER NONE
AFTER 3 TICK COUNTER NONE
AFTER 5 TICK COUNTER NONE
";

const FIVE_CAME: &str = "JOBS 5\nVAR COUNTER.N 5\nEND DONE\n";

/// Checks that the two files are written as MERGED, with the status `Done`.
fn merges(alloc: Global) -> Result<(), NotMade> {
    let words = words_of(alloc, &["E", "S", "T"])?;
    let files = [("E", COUNTER), ("S", TWO_TICKS), ("T", THREE_MORE)];
    let files = files_of(alloc, &files)?;
    let mut shelf = SteadyShelf::new(files);
    let mut sink = SteadySink::new(alloc);
    sink.reserve(MERGED.len())?;
    let end = plex_merge(alloc, words.as_slice(), &mut shelf, &mut sink);
    if end.status == Status::Done && sink.bytes() == MERGED.as_bytes() {
        Ok(())
    } else {
        Err(NotMade)
    }
}

#[test]
fn merged_lines_are_run_as_timed_ones(rt: HostRuntime) -> Result<(), Fail> {
    merges(rt.alloc())?;
    let words = ["timed", "E", "S", "T"];
    let files = [("E", COUNTER), ("S", TWO_TICKS), ("T", THREE_MORE)];
    let wanted = (Status::Done, FIVE_CAME);
    answers(&rt, rt.alloc(), &words, &files, &NoGate, wanted)?;
    let words = ["run", "E", "M"];
    let files = [("E", COUNTER), ("M", MERGED)];
    answers(&rt, rt.alloc(), &words, &files, &NoGate, wanted)?;
    Ok(())
}
