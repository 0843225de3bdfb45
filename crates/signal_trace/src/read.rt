// A whole filter.
ghost use Rattle.std.specs.Prelude.{◌≡◌, ◌≤◌, ◌^◌, IfOk, length};
ghost use Rattle.signal_trace.specs.Filter.{filter_of};

use crate::fault::FilterFault;
use crate::meaning::added;
use crate::show::Show;
use plex_num::{Memory, Seq};
use signal_file::Known;
use std::alloc::Global;
use text_lines::next_line;

/// The lines of a filter of at most 16 MiB, in order, without those that are skipped; or its first
/// fault. It stops where memory is refused.
#[tactic(auto, using(crate::proofs::Behind::file_read))]
pub fn read_filter(
    alloc: Global,
    known: &Known<'_>,
    text: &[u8],
) -> Result<Result<Seq<Show>, FilterFault>, Memory>
    requires { length text.now ≤ 2 ^ 24 }
    ensures { IfOk result (λ told. told ≡ filter_of known.now.exchange.now text.now) }
{
    let mut shows = Seq::new(alloc);
    let mut number: u32 = 0;
    let mut rest = text;
    while let Some((line, after)) = next_line(rest) {
        number += 1;
        match added(known, number, line) {
            Ok(None) => {}
            Ok(Some(show)) => shows.push(show)?,
            Err(fault) => return Ok(Err(fault)),
        }
        rest = after;
    }
    Ok(Ok(shows))
}
