// Where text goes.
ghost use Rattle.std.specs.Prelude.{◌≡◌, ◌≤◌, ℕ, List, [], Option, length, take, IfOk, OnOk, OnErr};
ghost use Rattle.plex_io.specs.Causes.{Rose};
ghost use Rattle.plex_io.specs.Written.{appended, TakesSome, IsFull, WroteLess};

/// A write failed, and the sink's count of faults rose.
#[derive(Debug, Drop)]
pub struct SinkFailed;

/// What takes bytes.
pub trait Sink {
    // the bytes written, where they are told
    ghost written: { Self → Option (List ℕ) };

    // the size at which it is full, where it tells one
    ghost size: { Self → Option ℕ };

    // how often the sink has failed; it never falls
    ghost faults: { Self → ℕ };

    /// Takes the piece's first bytes, at least one where there is one, and answers how many. After
    /// `SinkFailed` nothing of the piece was taken, and a sink that tells its size is full.
    fn write(&mut self, piece: &[u8]) -> Result<usize, SinkFailed>
        ensures count { IfOk result (λ n. TakesSome (length piece.now) n) }
        ensures ok { IfOk result (λ n.
            written self.new ≡ appended (written self.old) (take n piece.now)) }
        ensures err { OnErr result (written self.new ≡ written self.old) }
        ensures failed { OnErr result (Rose (faults self.old) (faults self.new)) }
        ensures full { OnErr result (IsFull (size self.new) (written self.new)) }
        ensures size { size self.new ≡ size self.old }
        ensures later { faults self.old ≤ faults self.new };
}

/// Writes the whole text, by as many writes as it takes; it takes no memory. `SinkFailed` comes
/// where one of these failed: then a proper prefix of the text was written. For an empty text
/// nothing is called.
#[tactic(auto, using(crate::proofs::Prefixes::appended_rest, crate::proofs::Prefixes::appended_none, crate::proofs::Prefixes::appended_all))]
pub fn write_all<K: Sink>(sink: &mut K, text: &[u8]) -> Result<(), SinkFailed>
    ensures ok { OnOk result (K.written sink.new ≡ appended (K.written sink.old) text.now) }
    ensures err { OnErr result (WroteLess (K.written sink.old) (K.written sink.new) text.now) }
    ensures failed { OnErr result (Rose (K.faults sink.old) (K.faults sink.new)) }
    ensures full { OnErr result (IsFull (K.size sink.new) (K.written sink.new)) }
    ensures size { K.size sink.new ≡ K.size sink.old }
    ensures later { K.faults sink.old ≤ K.faults sink.new }
    ensures empty { text.now ≡ [] → sink.new ≡ sink.old }
{
    let mut at = 0;
    while at < text.len() {
        at += sink.write(&text[at..])?;
    }
    Ok(())
}
