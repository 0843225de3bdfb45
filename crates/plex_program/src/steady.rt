// The program over in-memory devices that never fail.
ghost use Rattle.std.specs.Prelude.{◌≡◌, ◌⊎◌};
ghost use Rattle.plex_io.specs.Steady.{always_held};
ghost use Rattle.answer_meaning.specs.Answer.{IsAnswer};
ghost use Rattle.answer_meaning.specs.Whole.{HasRoom, IsWhole};

use crate::program::plex;
use command_words::Status;
use plex_io::{Gate, SteadyShelf, SteadySink, Word};
use std::alloc::Global;
use std::sync::Wait;
use std::thread::Threads;

/// `plex` over a steady shelf and a steady sink. No read fails and no file is missing. If the sink
/// has room for the answer's text, no write fails either: the whole text is written and the status
/// is the answer's; or the program is out of memory (`Memory`) and has written nothing. This
/// follows from the contract of `plex` alone, so it holds for each call of it with two such
/// devices.
#[tactic(auto, using(answer_meaning::proofs::Endings::whole_end, answer_meaning::proofs::Endings::silent_end))]
pub fn plex_steady<R: Threads + Wait + Sync, G: Gate + Sync>(
    rt: &R,
    alloc: Global,
    words: &[Word],
    shelf: &mut SteadyShelf,
    sink: &mut SteadySink,
    gate: &G,
) -> Status
    ensures whole { HasRoom (IsAnswer words.now (always_held shelf.old)) sink.old →
        (result ≡ Status.Memory) ⊎ IsWhole (IsAnswer words.now (always_held shelf.old))
        sink.old.bytes sink.new.bytes result }
    ensures memory { result ≡ Status.Memory → sink.new.bytes ≡ sink.old.bytes }
{
    let end = plex(rt, alloc, words, shelf, sink, gate);
    end.status
}
