// What crosses threads: a job that waits, and a job that has run.
ghost use Rattle.std.specs.Prelude.{◌≡◌};
ghost use Rattle.job_runner.specs.Runs.{HasRun};
ghost use Rattle.worker_pool.specs.Ways.{AreMeans};

use crate::means::Means;
use crate::naming::Naming;
use job_run::JobRun;
use job_runner::run_in_place;
use plex_io::{Gate, Moment};
use shared_store::JobSeat;
use std::marker::{Model, PhantomData};
use ticket_book::{Ticket, TicketBook};

/// A job that waits for a thread. Contracts see what its ticket claims: its number, and the loan of
/// its seat.
#[derive(Drop)]
pub struct Task<B: Naming> {
    pub(crate) ticket: Ticket,
    pub(crate) seat: JobSeat,
    pub(crate) run: Box<JobRun>,
    /// The number by which the gate knows the job.
    pub(crate) job: u64,
    pub(crate) of: PhantomData<B>,
}

impl<B: Naming> Model for Task<B> {
    ghost use Rattle.ticket_book.specs.declared.page.Claim.{Claim};
    ghost use Rattle.worker_pool.specs.Handed.{IsTask};

    ghost Value = { Claim };

    ghost view = { λ t. t.ticket.1 };

    ghost invariant = { λ t. IsTask B.exchange B.code B.store B.book t.ticket t.seat t.run.value };
}

/// A job that has run. Contracts see what its ticket claims: its number, and the loan whose job
/// ran.
#[derive(Drop)]
pub struct Ended<B: Naming> {
    ticket: Ticket,
    seat: JobSeat,
    run: Box<JobRun>,
    of: PhantomData<B>,
}

impl<B: Naming> Model for Ended<B> {
    ghost use Rattle.ticket_book.specs.declared.page.Claim.{Claim};
    ghost use Rattle.worker_pool.specs.Handed.{IsEnded};

    ghost Value = { Claim };

    ghost view = { λ t. t.ticket.1 };

    ghost invariant = { λ t. IsEnded B.exchange B.code B.store B.book t.ticket t.seat t.run.value };
}

impl<B: Naming> Task<B> {
    /// Runs the job in the thread that calls. The gate is told before and after it, by the job's
    /// number there; after it also how many instructions the run made.
    pub fn run<G: Gate>(self, means: &Means<'_>, gate: &G) -> Ended<B>
        requires means { AreMeans B.exchange B.code B.store means.now }
        ensures { result ≡ self }
    {
        let Task {
            ticket,
            seat,
            mut run,
            job,
            of: _,
        } = self;
        let Means {
            exchange,
            code,
            store,
        } = *means;
        gate.at(job, Moment::Before);
        let seat = run_in_place(exchange, store, seat, &mut run, code);
        gate.at(job, Moment::After { steps: run.steps() });
        Ended {
            ticket,
            seat,
            run,
            of: PhantomData,
        }
    }
}

impl<B: Naming> Ended<B> {
    /// The number of its ticket.
    pub fn number(&self) -> u64
        ensures { result ≡ self.now.number }
    {
        self.ticket.number()
    }

    /// The seat and the run of the job of a ticket's loan. The ticket must have the number of the
    /// job's own.
    pub fn settle(self, book: &TicketBook, mine: Ticket) -> (JobSeat, Box<JobRun>)
        requires book { (book.now ≡ B.book) × (mine.0 ≡ B.book) }
        requires number { mine.1.number ≡ self.number }
        ensures { HasRun B.exchange B.code B.store mine.1.loan result.0 result.1.value }
    {
        let Ended {
            ticket,
            seat,
            run,
            of: _,
        } = self;
        book.meet(mine, ticket);
        (seat, run)
    }
}
