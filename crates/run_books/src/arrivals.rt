// Lines of the signal file arrive.
ghost use Rattle.std.specs.Prelude.{◌≡◌, ◌+◌, ◌<◌, ◌^◌, false, length};
ghost use Rattle.job_buffers.specs.Room.{room_at};
ghost use Rattle.source_meaning.specs.Arrivals.{forlopp_for, is_due, next_after};
ghost use Rattle.source_meaning.specs.State.{has_stopped};
ghost use Rattle.run_books.specs.Accounts.{LetsArrive, TakesLine, TellsArrival, admitted, job_of};
ghost use Rattle.run_books.specs.Accounts.{with_loss};
ghost use Rattle.run_books.specs.Lines.{coming_of, origin_of};

use crate::books::Books;
use crate::event::ReportEvent;
use crate::event_log::EventLog;
use exchange_model::Exchange;
use forlopp_chain::Chains;
use job_buffers::Buffers;
use job_types::Job;
use plex_num::Memory;
use signal_file::{Line, LineKind};

impl Books {
    /// Lets the next line arrive, if it is due: true exactly where it is, and else nothing changes.
    /// No job may run, and the last restart must not have come. Where memory is refused, nothing
    /// changes.
    pub fn arrive(&mut self, exchange: &Exchange) -> Result<bool, Memory>
        requires nobody { self.old.running ≡ 0 }
        requires goes_on { has_stopped self.old.state ≡ false }
        ensures { TellsArrival exchange.now self.old self.new result }
    {
        let Some(line) = self.schedule.next() else {
            return Ok(false);
        };
        if !self.is_due(line) {
            return Ok(false);
        }
        let (number, kind) = (line.number, line.kind);
        let job = self.job_of(exchange, line);
        self.take_line(number, kind, job)?;
        Ok(true)
    }

    /// The next line arrives, which must be there; it has this number, its forlopp comes from
    /// there, and this is its job.
    fn take_line(&mut self, number: u32, kind: LineKind, job: Job) -> Result<(), Memory>
        requires { 0 < length self.old.state.lines }
        ensures { TakesLine number (origin_of kind) job self.old self.new result }
    {
        self.waiting.reserve(job.level, 1)?;
        self.events.reserve(1)?;
        self.schedule.arrive(job.forlopp)?;
        self.next = next_after(kind, self.next);
        admit(
            &self.chains,
            &mut self.waiting,
            &mut self.events,
            number,
            job,
        );
        Ok(())
    }

    /// Whether a line is due.
    fn is_due(&self, line: &Line) -> bool
        ensures { result ≡ is_due (coming_of line.now) self.now.state }
    {
        u64::from(line.after) <= self.ended || self.waiting.pick().is_none()
    }

    /// The forlopp of a line that arrives.
    fn forlopp_for(&self, kind: LineKind) -> u64
        ensures { result ≡ forlopp_for (origin_of kind) self.now.state }
    {
        match kind {
            LineKind::Fresh => self.next,
            LineKind::Bare => 0,
            LineKind::Same { line } => self.schedule.given_to(line),
        }
    }

    /// The job of a line that arrives.
    fn job_of(&self, exchange: &Exchange, line: &Line) -> Job
        ensures { result ≡ job_of exchange.now (coming_of line.now) self.now.state }
    {
        Job {
            entry: line.entry,
            level: exchange.level_of(line.entry),
            values: line.values.copy(),
            forlopp: self.forlopp_for(line.kind),
        }
    }
}

/// One line after the other arrives, as long as the next one is due. No job may run. Where memory
/// is refused, some of them have arrived, and the same call lets the others follow.
pub fn let_arrive(exchange: &Exchange, books: &mut Books) -> Result<(), Memory>
    requires nobody { books.old.running ≡ 0 }
    ensures { LetsArrive exchange.now books.old books.new result }
{
    if books.stopped() {
        return Ok(());
    }
    'lines: loop {
        if !books.arrive(exchange)? {
            return Ok(());
        }
    }
}

/// The next new number after a line of this kind.
fn next_after(kind: LineKind, next: u64) -> u64
    requires { next + 1 < 2 ^ 64 }
    ensures { result ≡ next_after (origin_of kind) next }
{
    match kind {
        LineKind::Fresh => next + 1,
        LineKind::Bare | LineKind::Same { .. } => next,
    }
}

/// The job of a line joins its list, unless its forlopp is dead: then the line is lost. There must
/// be room for both.
fn admit(chains: &Chains, waiting: &mut Buffers, events: &mut EventLog, number: u32, job: Job)
    requires waiting { 0 < room_at job.level waiting.old.room }
    requires events { 0 < events.old.room }
    ensures waiting { waiting.new.waiting ≡ admitted chains.now.dead job waiting.old.waiting }
    ensures events { events.new.events ≡ with_loss chains.now.dead job number events.old.events }
{
    if chains.is_dead(job.forlopp) {
        events.push_reserved(ReportEvent::Lost { line: number });
    } else {
        waiting.push_reserved(job);
    }
}
