// A whole signal file.
ghost use Rattle.std.specs.Prelude.{◌≡◌, ◌≤◌, ◌^◌, IfOk, length};
ghost use Rattle.signal_file.specs.Lines.{signal_lines};

use crate::before::Before;
use crate::directory::Known;
use crate::fault::SignalsFault;
use crate::line::Line;
use crate::meaning::added;
use plex_num::{Memory, Seq};
use std::alloc::Global;
use text_lines::next_line;

/// The signal lines of a text of at most 16 MiB, in order; or its first fault. It stops where
/// memory is refused.
#[tactic(auto, using(crate::proofs::Behind::file_read))]
pub fn read_signals(
    alloc: Global,
    known: &Known<'_>,
    text: &[u8],
) -> Result<Result<Seq<Line>, SignalsFault>, Memory>
    requires { length text.now ≤ 2 ^ 24 }
    ensures { IfOk result (λ told. told ≡ signal_lines known.now.exchange.now text.now) }
{
    let mut before = Before {
        last: 0,
        origins: Seq::new(alloc),
    };
    let mut list = Seq::new(alloc);
    let mut rest = text;
    while let Some((line, after)) = next_line(rest) {
        match added(known, &before, line) {
            Ok(None) => before.skip()?,
            Ok(Some(signal)) => {
                before.note(&signal)?;
                list.push(signal)?;
            }
            Err(fault) => return Ok(Err(fault)),
        }
        rest = after;
    }
    Ok(Ok(list))
}
