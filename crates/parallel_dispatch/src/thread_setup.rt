// What the threads of a run need.
use lone_job::RunContext;
use std::alloc::Global;
use ticket_book::TicketBook;
use worker_pool::{Means, Naming, WorkQueue};

/// The resources of a run: threads, memory, and the gate that is called before and after each job.
#[derive(Drop)]
pub struct Host<'a, R, G> {
    pub rt: &'a R,
    pub alloc: Global,
    pub gate: &'a G,
}

/// What jobs in flight need: the runtime, memory, the gate, the context, what the jobs are run
/// with, the ticket book, and the queue from which workers take jobs.
#[derive(Drop)]
pub(crate) struct ThreadSetup<'e, B: Naming, R, G> {
    pub rt: &'e R,
    pub alloc: Global,
    pub gate: &'e G,
    pub context: RunContext<'e>,
    pub means: Means<'e>,
    pub book: &'e TicketBook,
    pub queue: &'e WorkQueue<B>,
}
