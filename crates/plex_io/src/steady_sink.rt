// Output in memory that is full at a size which it tells.
ghost use Rattle.std.specs.Prelude.{◌≡◌, ◌≤◌, ◌+◌, ◌↔◌, [], Some, length, take, IsErr, IsOk, IfOk};
ghost use Rattle.std.specs.Prelude.{OnOk, MatchResult};
ghost use Rattle.plex_io.specs.Written.{TakesSome};
ghost use Rattle.plex_io.specs.Steady.{fitting, Overflows, with_bytes, with_fault};

use crate::memory_sink::append_reserved;
use crate::sink::{Sink, SinkFailed};
use plex_num::Memory;
use std::alloc::Global;
use std::marker::Model;

/// A sink in memory, which tells its bytes and the size at which it is full. Of a piece it takes as
/// many bytes as there is room left. Its writes take no memory; a write fails exactly where there
/// is something to write and no room is left.
#[derive(Drop)]
pub struct SteadySink {
    bytes: Vec<u8>,
    faults: u64,
}

impl Model for SteadySink {
    ghost use Rattle.std.specs.Prelude.{vec_capacity};
    ghost use Rattle.plex_io.specs.Steady.{SteadyState};

    ghost Value = { SteadyState };

    ghost view = { λ s. record {
      bytes = s.bytes.items;
      size = vec_capacity s.bytes;
      faults = s.faults;
    } };
}

impl SteadySink {
    /// An empty sink of the size 0; it takes no memory.
    pub fn new(alloc: Global) -> SteadySink
        ensures { result ≡ record { bytes = []; size = 0; faults = 0 } }
    {
        SteadySink {
            bytes: Vec::new(alloc),
            faults: 0,
        }
    }

    /// Makes room for that many bytes more than it holds, where there is not so much already. Where
    /// memory is refused, it holds what it held.
    pub fn reserve(&mut self, room: usize) -> Result<(), Memory>
        ensures bytes { self.new.bytes ≡ self.old.bytes }
        ensures room { OnOk result (length self.new.bytes + room ≤ self.new.size) }
        ensures no_less { self.old.size ≤ self.new.size }
        ensures there { length self.old.bytes + room ≤ self.old.size → IsOk result }
        ensures faults { self.new.faults ≡ self.old.faults }
    {
        match self.bytes.reserve(room) {
            Ok(()) => Ok(()),
            Err(_) => Err(Memory),
        }
    }

    /// The bytes written so far.
    pub fn bytes(&self) -> &[u8]
        ensures { result.now ≡ self.now.bytes }
    {
        &self.bytes
    }
}

impl Sink for SteadySink {
    ghost written = { λ s. Some s.bytes };

    ghost size = { λ s. Some s.size };

    ghost faults = { λ s. s.faults };

    fn write(&mut self, piece: &[u8]) -> Result<usize, SinkFailed>
        ensures count { IfOk result (λ n. TakesSome (length piece.now) n) }
        ensures taken { IfOk result (λ n. n ≡ fitting self.old (length piece.now)) }
        ensures fails { IsErr result ↔ Overflows self.old (length piece.now) }
        ensures after { MatchResult result
            (λ n. self.new ≡ with_bytes self.old (take n piece.now))
            (λ _. self.new ≡ with_fault self.old) }
        ensures later { self.old.faults ≤ self.new.faults }
    {
        let left = self.bytes.capacity() - self.bytes.len();
        let taken = piece.len().min(left);
        if taken == 0 && !piece.is_empty() {
            self.faults = self.faults.saturating_add(1);
            return Err(SinkFailed);
        }
        append_reserved(&mut self.bytes, &piece[..taken]);
        Ok(taken)
    }
}
