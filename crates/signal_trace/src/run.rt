// The single run, and the jobs of it that a filter shows.
ghost use Rattle.std.specs.Prelude.{◌≡◌, IfOk};
ghost use Rattle.store_layout.specs.Laid.{IsLayout};
ghost use Rattle.exchange_run.specs.Runs.{IsEndOf, MayGoOn, state_of};
ghost use Rattle.signal_trace.specs.Text.{trace_text};
ghost use Rattle.signal_trace.specs.Trace.{trace};

use crate::show::Show;
use crate::table::ShowTable;
use crate::tracer::Tracer;
use exchange_model::Exchange;
use exchange_run::{Ended, Runner, Standing, run_books};
use plex_num::{Memory, Seq};
use std::alloc::Global;
use store_layout::Layout;
use text_parts::Text;

/// The end of a run that was traced, and the text of the jobs that the filter shows.
#[derive(Drop)]
pub struct Traced {
    pub text: Text,
    pub end: Ended,
}

/// Runs the jobs of an exchange to the end of the single run, one at a time, each by the runner,
/// and tells of those that a filter shows. No job may have ended or run in the books, and books and
/// words must stand for a valid state. Memory is the only reason for an error.
pub fn trace_run<R: Runner>(
    alloc: Global,
    exchange: &Exchange,
    layout: &Layout,
    run: Standing,
    shows: &Seq<Show>,
    runner: &mut R,
) -> Result<Traced, Memory>
    requires run { MayGoOn exchange.now run }
    requires none { run.books.state.ended ≡ 0 }
    requires layout { IsLayout exchange.now.blocks layout.now }
    requires runner { R.runs runner.old exchange.now }
    ensures text { IfOk result (λ t. t.text ≡ trace_text exchange.now
        (trace exchange.now run.books.limit (state_of run) shows.now)) }
    ensures end { IfOk result (λ t.
        IsEndOf exchange.now (state_of run) run.books.limit t.end) }
{
    let table = ShowTable::new(alloc, shows)?;
    let mut tracer = Tracer {
        alloc,
        shows: &table,
        text: Text::new(alloc),
    };
    let end = run_books(exchange, layout, run, runner, &mut tracer)?;
    Ok(Traced {
        text: tracer.text,
        end,
    })
}
