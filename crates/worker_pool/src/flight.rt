// A job that was lent its words, and its end.
ghost use Rattle.std.specs.Prelude.{◌≡◌, ◌+◌, ◌<◌, ◌^◌};
ghost use Rattle.job_runner.specs.Runs.{IsReady, HasRun};
ghost use Rattle.machine_meaning.specs.Faithful.{Faithful};
ghost use Rattle.worker_pool.specs.Ways.{AreMeans};

use crate::means::Means;
use crate::naming::Naming;
use crate::task::{Ended, Task};
use crate::work_queue::WorkQueue;
use job_run::JobRun;
use plex_io::Gate;
use shared_store::JobSeat;
use std::marker::{Model, PhantomData};
use std::sync::Wait;
use ticket_book::{Pen, Ticket, TicketBook};

/// Where the job of a flight is.
#[derive(Drop)]
enum Whereabouts<B: Naming> {
    /// It has not begun, and no other thread knows of it.
    InHand(Task<B>),
    /// It was brought to the work queue, under this number.
    AtShop(u64),
    /// It has run to its end here.
    Over(Ended<B>),
}

/// A job that waits, runs or has run, wherever it is. Contracts see the loan that it is of. It
/// cannot be dropped: it must be finished.
pub struct Flight<B: Naming> {
    ticket: Ticket,
    at: Whereabouts<B>,
}

impl<B: Naming> Model for Flight<B> {
    ghost use Rattle.std.specs.Prelude.{◌≡◌};
    ghost use Rattle.shared_store.specs.declared.view.Lent.{Lent};

    ghost Value = { Lent };

    ghost view = { λ f. f.ticket.1.loan };

    ghost invariant = { λ f. f.ticket.0 ≡ B.book };
}

/// Makes a job of a seat and a run that are ready, and takes it in hand. Its ticket's number is how
/// many tickets the pen wrote before; there must be fewer than 2^64 - 1. `job` is the number by
/// which the gate knows the job.
pub fn launch<B: Naming>(
    book: &TicketBook,
    pen: &mut Pen,
    seat: JobSeat,
    run: Box<JobRun>,
    job: u64,
) -> Flight<B>
    requires book { (book.now ≡ B.book) × (pen.old.0 ≡ B.book) }
    requires room { pen.old.1 + 1 < 2 ^ 64 }
    requires faithful { Faithful B.exchange B.code }
    requires ready { IsReady B.exchange B.code B.store seat run.value }
    ensures flight { result ≡ seat.1.lent }
    ensures pen { pen.new ≡ (B.book, pen.old.1 + 1) }
{
    let mut mine = book.write(pen, &seat);
    let ticket = book.copy(&mut mine);
    let task = Task {
        ticket,
        seat,
        run,
        job,
        of: PhantomData,
    };
    Flight {
        ticket: mine,
        at: Whereabouts::InHand(task),
    }
}

impl<B: Naming> Flight<B> {
    /// Whether the job has not begun and no other thread knows of it.
    pub fn is_in_hand(&self) -> bool {
        match &self.at {
            Whereabouts::InHand(_) => true,
            _ => false,
        }
    }

    /// Whether the job has come to its end. Where it was brought to a work queue, it is this one.
    pub fn has_ended(&self, queue: &WorkQueue<B>) -> bool {
        match &self.at {
            Whereabouts::InHand(_) => false,
            Whereabouts::AtShop(number) => queue.has_ended(*number),
            Whereabouts::Over(_) => true,
        }
    }

    /// The job is brought to the work queue, if it is in hand.
    pub fn bring<R: Wait>(self, rt: &R, queue: &WorkQueue<B>) -> Flight<B>
        ensures { result ≡ self }
    {
        let Flight { ticket, at } = self;
        let at = match at {
            Whereabouts::InHand(task) => Whereabouts::AtShop(queue.bring(rt, task)),
            elsewhere => elsewhere,
        };
        Flight { ticket, at }
    }

    /// The job is run to its end in the thread that calls, if it is in hand.
    pub fn run_here<G: Gate>(self, means: &Means<'_>, gate: &G) -> Flight<B>
        requires means { AreMeans B.exchange B.code B.store means.now }
        ensures { result ≡ self }
    {
        let Flight { ticket, at } = self;
        let at = match at {
            Whereabouts::InHand(task) => Whereabouts::Over(task.run(means, gate)),
            elsewhere => elsewhere,
        };
        Flight { ticket, at }
    }

    /// The end of the job: it is run here where it is in hand, and waited for where it was brought
    /// to a work queue, which must be this one. The seat comes back with the touches of its loan's
    /// job, and the run at its end.
    pub fn finish<R: Wait, G: Gate>(
        self,
        rt: &R,
        queue: &WorkQueue<B>,
        means: &Means<'_>,
        book: &TicketBook,
        gate: &G,
    ) -> (JobSeat, Box<JobRun>)
        requires means { AreMeans B.exchange B.code B.store means.now }
        requires book { book.now ≡ B.book }
        ensures { HasRun B.exchange B.code B.store self result.0 result.1.value }
    {
        let Flight { ticket, at } = self;
        let ended = match at {
            Whereabouts::InHand(task) => task.run(means, gate),
            Whereabouts::AtShop(number) => queue.end_of(rt, number, means, gate),
            Whereabouts::Over(ended) => ended,
        };
        if ended.number() == ticket.number() {
            return ended.settle(book, ticket);
        }
        for _ in rt.forever() {}
        unreachable!()
    }
}
