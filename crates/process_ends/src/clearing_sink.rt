// A sink that clears the progress line before it writes.
ghost use Rattle.std.specs.Prelude.{◌≡◌, ◌≤◌, length, take, IfOk, OnErr};
ghost use Rattle.plex_io.specs.Causes.{Rose};
ghost use Rattle.plex_io.specs.Written.{appended, IsFull, TakesSome};

use crate::progress::Progress;
use plex_io::{Sink, SinkFailed};

/// A sink that wraps another one and clears the progress line before each write.
#[derive(Drop)]
pub struct ClearingSink<'a, K, R> {
    sink: K,
    progress: Option<&'a Progress<'a, R>>,
}

impl<'a, K: Sink, R: Eprint> ClearingSink<'a, K, R> {
    /// Wraps the given sink.
    pub fn new(sink: K, progress: Option<&'a Progress<'a, R>>) -> ClearingSink<'a, K, R>
        ensures { result.sink ≡ sink }
    {
        ClearingSink { sink, progress }
    }

    /// The wrapped sink.
    pub fn inner(&self) -> &K
        ensures { result.now ≡ self.now.sink }
    {
        &self.sink
    }
}

impl<'a, K: Sink, R: Eprint> Sink for ClearingSink<'a, K, R> {
    ghost written = { λ clearing. K.written clearing.sink };

    ghost size = { λ clearing. K.size clearing.sink };

    ghost faults = { λ clearing. K.faults clearing.sink };

    fn write(&mut self, piece: &[u8]) -> Result<usize, SinkFailed>
        ensures count { IfOk result (λ n. TakesSome (length piece.now) n) }
        ensures ok { IfOk result (λ n.
            K.written self.new.sink ≡ appended (K.written self.old.sink) (take n piece.now)) }
        ensures err { OnErr result (K.written self.new.sink ≡ K.written self.old.sink) }
        ensures failed { OnErr result (Rose (K.faults self.old.sink) (K.faults self.new.sink)) }
        ensures full { OnErr result (IsFull (K.size self.new.sink) (K.written self.new.sink)) }
        ensures size { K.size self.new.sink ≡ K.size self.old.sink }
        ensures later { K.faults self.old.sink ≤ K.faults self.new.sink }
    {
        if let Some(progress) = self.progress {
            progress.clear();
        }
        self.sink.write(piece)
    }
}
