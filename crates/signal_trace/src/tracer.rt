// The jobs that a filter shows, as they end.
ghost use Rattle.std.specs.Prelude.{◌≡◌, IfOk};
ghost use Rattle.signal_trace.specs.Trace.{shows_job};

use crate::table::ShowTable;
use crate::text::add_job;
use exchange_model::Exchange;
use exchange_run::Watcher;
use job_types::{JobDone, JobStart, Outbox, Outcome, Sent};
use plex_num::{Memory, Seq};
use std::alloc::Global;
use text_parts::Text;

/// A job of a run: its number, from 1, in the order in which the jobs ended; how it started; the
/// signals that it sent, in order; and how it ended.
pub struct TracedJob {
    pub number: u64,
    pub start: JobStart,
    pub sends: Seq<Sent>,
    pub outcome: Outcome,
}

impl Drop for TracedJob {
    fn drop(self) {
        let TracedJob {
            number: _,
            start: _,
            sends: _,
            outcome: _,
        } = self;
    }
}

/// The lines of a filter, and the text of the jobs so far that they show.
#[derive(Drop)]
pub(crate) struct Tracer<'a> {
    pub alloc: Global,
    pub shows: &'a ShowTable<'a>,
    pub text: Text,
}

impl Watcher for Tracer<'_> {
    ghost use Rattle.signal_trace.specs.Turns.{told};

    ghost told = { told };

    fn note(
        &mut self,
        exchange: &Exchange,
        number: u64,
        start: &JobStart,
        done: &JobDone,
    ) -> Result<(), Memory> {
        if !is_shown(exchange, self.shows, number, start, done.outcome) {
            return Ok(());
        }
        let sends = sends_of(self.alloc, &done.sends)?;
        let job = TracedJob {
            number,
            start: start.copy(),
            sends,
            outcome: done.outcome,
        };
        let mut end = self.text.take_end();
        add_job(&mut end, exchange, &job)?;
        self.text.put(end)?;
        Ok(())
    }
}

/// Whether some line of a filter shows a job.
fn is_shown(
    exchange: &Exchange,
    shows: &ShowTable<'_>,
    number: u64,
    start: &JobStart,
    outcome: Outcome,
) -> bool
    ensures { result ≡ shows_job exchange.now shows.now number start.now outcome }
{
    match exchange.entries.get(start.job.entry as usize) {
        Some(entry) => shows.any(*entry, start.job.forlopp, number, outcome),
        None => false,
    }
}

/// A list of the signals of an outbox.
fn sends_of(alloc: Global, outbox: &Outbox) -> Result<Seq<Sent>, Memory>
    ensures { IfOk result (λ sends. sends ≡ outbox.now) }
{
    let mut sends = Seq::new(alloc);
    for sent in outbox.as_slice() {
        sends.push(sent.copy())?;
    }
    Ok(sends)
}
