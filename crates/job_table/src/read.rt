// A whole table.
ghost use Rattle.std.specs.Prelude.{◌≡◌, ◌≤◌, ◌<◌, ◌^◌, ◌++◌, IfOk, OnOk, length};
ghost use Rattle.std.specs.List.{AllByRecursion};
ghost use Rattle.std.specs.Option.{option_to_list};
ghost use Rattle.job_table.specs.Merged.{IsInRange, line_count};
ghost use Rattle.job_table.specs.Table.{table_periods};

use crate::fault::TableFault;
use crate::meaning::{Before, added};
use crate::period::Period;
use plex_num::{Memory, Seq};
use signal_file::{Known, Line};
use std::alloc::Global;
use text_lines::next_line;

/// The periods of a table of at most 16 MiB, in order; or its first fault. It is to be merged with
/// these lines of a signal file, whose number counts. It stops where memory is refused.
#[tactic(auto, using(crate::proofs::Tabled::table_read, crate::proofs::Fitted::table_fits))]
pub fn read_table(
    alloc: Global,
    known: &Known<'_>,
    lines: &Seq<Line>,
    text: &[u8],
) -> Result<Result<Seq<Period>, TableFault>, Memory>
    requires few { length lines.now < 2 ^ 32 }
    requires short { length text.now ≤ 2 ^ 24 }
    ensures told { IfOk result (λ told. told
        ≡ table_periods known.now.exchange.now (length lines.now) text.now) }
    ensures ranges { IfOk result (λ told. IfOk told (λ periods. AllByRecursion IsInRange periods)) }
    ensures few { IfOk result (λ told. IfOk told
        (λ periods. line_count lines.now periods < 2 ^ 32)) }
{
    let mut before = Before {
        lines: 0,
        signals: lines.len() as u64,
    };
    let mut list = Seq::new(alloc);
    let mut rest = text;
    while let Some((line, after)) = next_line(rest) {
        match added(known, before, line) {
            Ok(period) => {
                before = before.with(&period);
                push_some(&mut list, period)?;
            }
            Err(fault) => return Ok(Err(fault)),
        }
        rest = after;
    }
    Ok(Ok(list))
}

/// Appends a period, if there is one.
fn push_some(list: &mut Seq<Period>, period: Option<Period>) -> Result<(), Memory>
    ensures { OnOk result (list.new ≡ list.old ++ option_to_list period) }
{
    match period {
        Some(period) => list.push(period),
        None => Ok(()),
    }
}
