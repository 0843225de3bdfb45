// Tests of the programs with in-memory devices: each status that a device can cause, and what is
// written then.
use command_words::Status;
use plex_io::{MemoryShelf, MemorySink, NoGate, StoredFile, Word};
use plex_num::{Memory, Seq};
use plex_program::plex;
use std::alloc::Global;
use std::test::Fail;

/// N counts the ticks that came.
pub const COUNTER: &str = "SIGNAL TICK SINGLE BUFFERED B DATA 0;
BLOCK COUNTER;
DECLARE; VARIABLE N WIDTH 32;
SURVEY; RECEIVE TICK;
PROGRAM;
ENTER TICK;
N = N + 1;
EXIT;
END BLOCK;
";

const THREE_TICKS: &str = "AFTER 0 TICK COUNTER NONE
AFTER 0 TICK COUNTER NONE
AFTER 0 TICK COUNTER NONE
";

/// Files with these names and texts.
pub fn files_of(alloc: Global, files: &[(&str, &str)]) -> Result<Seq<StoredFile>, Memory> {
    let mut stored = Seq::new(alloc);
    for (name, content) in files {
        let name = Seq::copied(alloc, name.as_bytes())?;
        let content = Seq::copied(alloc, content.as_bytes())?;
        stored.push(StoredFile { name, content })?;
    }
    Ok(stored)
}

/// The arguments of a command.
pub fn words_of(alloc: Global, words: &[&str]) -> Result<Seq<Word>, Memory> {
    let mut all = Seq::new(alloc);
    for word in words {
        all.push(Seq::copied(alloc, word.as_bytes())?)?;
    }
    Ok(all)
}

fn numbers_of(alloc: Global, numbers: &[u64]) -> Result<Seq<u64>, Memory> {
    let mut all = Seq::new(alloc);
    for number in numbers {
        all.push(*number)?;
    }
    Ok(all)
}

#[test]
fn says_which_device_failed(rt: HostRuntime) -> Result<(), Fail> {
    let both: &[(&str, &str)] = &[("E", COUNTER), ("S", THREE_TICKS)];
    let cases = [
        (both, [2], 8, 64, [0], Status::Read, ""),
        (&[("E", COUNTER)], [0], 8, 64, [0], Status::Read, ""),
        (both, [0], 8, 64, [2], Status::Write, "JOBS 3\nV"),
        (both, [0], 64, 5, [0], Status::Write, "JOBS "),
    ];
    for (files, shelf_fails, piece, room, sink_fails, status, text) in cases {
        let words = words_of(rt.alloc(), &["run", "E", "S"])?;
        let stored = files_of(rt.alloc(), files)?;
        let mut shelf = MemoryShelf::new(stored, numbers_of(rt.alloc(), &shelf_fails)?);
        let fails = numbers_of(rt.alloc(), &sink_fails)?;
        let mut sink = MemorySink::new(rt.alloc(), piece, room, fails)?;
        let ended = plex(
            &rt,
            rt.alloc(),
            words.as_slice(),
            &mut shelf,
            &mut sink,
            &NoGate,
        );
        assert_eq!(rt; ended.status, status, "{text}");
        assert_eq!(rt; sink.bytes(), text.as_bytes(), "{text}");
    }
    Ok(())
}
