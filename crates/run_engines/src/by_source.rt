// Jobs run by what their statements mean.
ghost use Rattle.std.specs.Prelude.{IfOk};
ghost use Rattle.source_interpreter.specs.Cases.{AreTablesOf};

use exchange_model::Exchange;
use exchange_run::Runner;
use job_types::{Chain, JobDone, JobStart, Outbox, Outcome};
use offload_policy::Rest;
use plex_io::{Gate, Moment};
use plex_num::{Memory, Seq};
use source_interpreter::{Cases, plain_job};
use std::alloc::Global;

/// Runs each job by the source interpreter, and calls the gate before and after it. It counts no
/// steps, and tells the gate of none.
#[derive(Drop)]
pub struct BySource<'a, G> {
    alloc: Global,
    cases: Cases,
    gate: &'a G,
    /// What the last job left, in whose place the next one begins; nothing before the first one.
    done: Option<Box<JobDone>>,
    /// How many jobs have begun.
    begun: u64,
}

impl<'a, G: Gate> BySource<'a, G> {
    /// Before the first job of an exchange, whose tables are made; `Memory` comes where memory is
    /// refused.
    pub fn new(alloc: Global, exchange: &Exchange, gate: &'a G) -> Result<BySource<'a, G>, Memory>
        ensures { IfOk result (λ runner. AreTablesOf runner.cases exchange.now.blocks) }
    {
        let cases = Cases::new(alloc, exchange)?;
        Ok(BySource {
            alloc,
            cases,
            gate,
            done: None,
            begun: 0,
        })
    }
}

impl<'a, G: Gate> Runner for BySource<'a, G> {
    ghost use Rattle.std.specs.Prelude.{◌≡◌, Some};
    ghost use Rattle.std.specs.Option.{option_map};
    ghost use Rattle.source_interpreter.specs.Cases.{AreTablesOf};

    ghost runs = { λ r x. AreTablesOf r.cases x.blocks };

    ghost has_left = { λ r d. option_map (λ place. place.value) r.done ≡ Some d };

    fn run(
        &mut self,
        exchange: &Exchange,
        start: &JobStart,
        words: &mut Seq<u32>,
    ) -> Result<(), Memory> {
        self.begun = self.begun.wrapping_add(1);
        self.gate.at(self.begun, Moment::Before);
        let place = place_of(self.alloc, self.done.take())?;
        let done = plain_job(self.alloc, exchange, &self.cases, words, start, place)?;
        self.done = Some(done);
        self.gate.at(self.begun, Moment::After { steps: 0 });
        Ok(())
    }

    fn done(&self) -> &JobDone {
        match &self.done {
            Some(done) => done,
            None => unreachable!(),
        }
    }

    fn has_long_jobs(&self, _rest: Rest) -> bool {
        false
    }
}

// Where a job may leave what it leaves: the place of the last one, or a new one where there was
// none.
fn place_of(alloc: Global, last: Option<Box<JobDone>>) -> Result<Box<JobDone>, Memory> {
    if let Some(place) = last {
        return Ok(place);
    }
    let empty = JobDone {
        sends: Outbox::new(),
        chain: Chain::new(),
        outcome: Outcome::Ended,
    };
    match Box::new(alloc, empty) {
        Ok(place) => Ok(place),
        Err(_) => Err(Memory),
    }
}
