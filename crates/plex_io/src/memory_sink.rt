// Output in memory.
ghost use Rattle.std.specs.Prelude.{◌≡◌, ◌≤◌, ◌+◌, ◌++◌, ◌↔◌, [], Some, length, take, vec_len};
ghost use Rattle.std.specs.Prelude.{vec_capacity, IsErr, IfOk, MatchResult};
ghost use Rattle.plex_io.specs.Written.{TakesSome, no_size};
ghost use Rattle.plex_io.specs.Kept.{taken, Refuses, after_write, after_refusal};

use crate::sink::{Sink, SinkFailed};
use plex_num::{Memory, Seq};
use std::alloc::Global;
use std::marker::Model;

/// A sink in memory, which tells its bytes and no size. Of a piece it takes as many bytes as its
/// largest piece and the room that is left allow. A write fails exactly where its number is listed,
/// or where there is something to write and no room is left. Writes have numbers from 1.
#[derive(Drop)]
pub struct MemorySink {
    bytes: Vec<u8>,
    piece: usize,
    fails: Seq<u64>,
    calls: u64,
    faults: u64,
}

impl Model for MemorySink {
    ghost use Rattle.std.specs.Prelude.{vec_capacity, ◌≤◌};
    ghost use Rattle.plex_io.specs.Kept.{SinkState};

    ghost Value = { SinkState };

    ghost view = { λ s. record {
      bytes = s.bytes.items;
      piece = s.piece;
      room = vec_capacity s.bytes;
      fails = s.fails;
      calls = s.calls;
      faults = s.faults;
    } };

    ghost invariant = { λ s. 1 ≤ s.piece };
}

impl MemorySink {
    /// An empty sink with room for `room` bytes, which are taken now: its writes take no memory.
    /// A write takes at most `piece` bytes, and the writes with the listed numbers are to fail.
    pub fn new(
        alloc: Global,
        piece: usize,
        room: usize,
        fails: Seq<u64>,
    ) -> Result<MemorySink, Memory>
        requires { 1 ≤ piece }
        ensures { IfOk result (λ s. s ≡ record {
          bytes = [];
          piece = piece;
          room = room;
          fails = fails;
          calls = 0;
          faults = 0;
        }) }
    {
        match Vec::with_capacity(alloc, room) {
            Ok(bytes) => Ok(MemorySink {
                bytes,
                piece,
                fails,
                calls: 0,
                faults: 0,
            }),
            Err(_) => Err(Memory),
        }
    }

    /// The bytes written so far.
    pub fn bytes(&self) -> &[u8]
        ensures { result.now ≡ self.now.bytes }
    {
        &self.bytes
    }
}

impl Sink for MemorySink {
    ghost written = { λ s. Some s.bytes };

    ghost size = { λ _. no_size };

    ghost faults = { λ s. s.faults };

    fn write(&mut self, piece: &[u8]) -> Result<usize, SinkFailed>
        ensures count { IfOk result (λ n. TakesSome (length piece.now) n) }
        ensures taken { IfOk result (λ n. n ≡ taken self.old (length piece.now)) }
        ensures fails { IsErr result ↔ Refuses self.old (length piece.now) }
        ensures after { MatchResult result
            (λ n. self.new ≡ after_write self.old (take n piece.now))
            (λ _. self.new ≡ after_refusal self.old) }
        ensures later { self.old.faults ≤ self.new.faults }
    {
        self.calls = self.calls.saturating_add(1);
        let left = self.bytes.capacity() - self.bytes.len();
        let taken = piece.len().min(self.piece).min(left);
        if self.fails.as_slice().contains(&self.calls) {
            self.faults = self.faults.saturating_add(1);
            return Err(SinkFailed);
        }
        if taken == 0 && !piece.is_empty() {
            self.faults = self.faults.saturating_add(1);
            return Err(SinkFailed);
        }
        append_reserved(&mut self.bytes, &piece[..taken]);
        Ok(taken)
    }
}

/// Appends a piece for which there is room.
pub(crate) fn append_reserved(bytes: &mut Vec<u8>, piece: &[u8])
    requires { vec_len bytes.old + length piece.now ≤ vec_capacity bytes.old }
    ensures items { bytes.new.items ≡ bytes.old.items ++ piece.now }
    ensures capacity { vec_capacity bytes.new ≡ vec_capacity bytes.old }
{
    for byte in piece {
        bytes.push_reserved(*byte);
    }
}
