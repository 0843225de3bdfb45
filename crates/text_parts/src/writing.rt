// Texts, written.
ghost use Rattle.std.specs.Prelude.{◌≡◌, ◌≤◌, OnOk, OnErr};
ghost use Rattle.std.specs.List.{concat};
ghost use Rattle.plex_io.specs.Causes.{Rose};
ghost use Rattle.plex_io.specs.Written.{appended, IsFull, WroteLess};

use crate::parts::Parts;
use crate::text::Text;
use plex_io::{Sink, SinkFailed, write_all};

/// Writes the whole text, by as many writes as it takes; it takes no memory. `SinkFailed` comes
/// where one of these failed: then a proper prefix of the text was written.
pub fn write_text<K: Sink>(sink: &mut K, text: &Text) -> Result<(), SinkFailed>
    ensures ok { OnOk result (K.written sink.new ≡ appended (K.written sink.old) text.now) }
    ensures err { OnErr result (WroteLess (K.written sink.old) (K.written sink.new) text.now) }
    ensures failed { OnErr result (Rose (K.faults sink.old) (K.faults sink.new)) }
    ensures full { OnErr result (IsFull (K.size sink.new) (K.written sink.new)) }
    ensures size { K.size sink.new ≡ K.size sink.old }
    ensures later { K.faults sink.old ≤ K.faults sink.new }
{
    write_parts(sink, &text.parts)?;
    write_all(sink, text.last.as_slice())?;
    Ok(())
}

/// Writes all these parts, one after the other.
fn write_parts<K: Sink>(sink: &mut K, parts: &Parts) -> Result<(), SinkFailed>
    ensures ok { OnOk result (K.written sink.new
        ≡ appended (K.written sink.old) (concat parts.now)) }
    ensures err { OnErr result (WroteLess (K.written sink.old) (K.written sink.new)
        (concat parts.now)) }
    ensures failed { OnErr result (Rose (K.faults sink.old) (K.faults sink.new)) }
    ensures full { OnErr result (IsFull (K.size sink.new) (K.written sink.new)) }
    ensures size { K.size sink.new ≡ K.size sink.old }
    ensures later { K.faults sink.old ≤ K.faults sink.new }
{
    for i in 0..parts.len() {
        write_all(sink, parts.at(i))?;
    }
    Ok(())
}
