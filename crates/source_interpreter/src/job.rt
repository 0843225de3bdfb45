// A job, from its start to its end.
ghost use Rattle.std.specs.Prelude.{◌≡◌, [], OnOk, OnErr, IfOk, Some};
ghost use Rattle.source_meaning.specs.Job.{begins, job};
ghost use Rattle.source_interpreter.specs.Cases.{AreTablesOf};
ghost use Rattle.source_interpreter.specs.Leaves.{IsReached, RunsTo};
ghost use Rattle.source_interpreter.specs.Running.{config_of};

use crate::cases::Cases;
use crate::run::Run;
use crate::stop::Stop;
use exchange_model::Exchange;
use job_types::{JobDone, JobStart, Outcome};
use plex_num::{Memory, Seq};
use std::alloc::Global;

/// Runs one job of an exchange by what its statements mean, over stored words. The tables are those
/// of the exchange.
///
/// It takes every exchange, start and store; the words of the store and what the job leaves are
/// those of the definition. What it leaves comes back in `place`, whatever an earlier job left
/// there, so that one place serves all jobs. `Memory` comes where there is no room for what remains
/// to be done. The store then has the writes made so far: it is that of the job after a number of
/// steps.
#[tactic(auto, using(crate::proofs::Ending::job_ends, crate::proofs::Ending::job_not_begun, crate::proofs::Ending::job_stops))]
pub fn plain_job(
    alloc: Global,
    exchange: &Exchange,
    cases: &Cases,
    store: &mut Seq<u32>,
    start: &JobStart,
    place: Box<JobDone>,
) -> Result<Box<JobDone>, Memory>
    requires { AreTablesOf cases.now exchange.now.blocks }
    ensures outcome { IfOk result (λ done.
        (job exchange.now start.now store.old).over ≡ Some done.value.outcome) }
    ensures sends { IfOk result (λ done.
        (job exchange.now start.now store.old).own.sends ≡ done.value.sends) }
    ensures chain { IfOk result (λ done.
        (job exchange.now start.now store.old).own.chain ≡ done.value.chain) }
    ensures store { OnOk result (store.new ≡ (job exchange.now start.now store.old).world.store) }
    ensures memory { OnErr result
        (IsReached exchange.now (begins exchange.now start.now store.old) store.new) }
{
    let mut run = Run::begin(alloc, exchange, cases, start, place)?;
    let outcome = run.finish(store)?;
    Ok(run.into_done(outcome))
}

impl<'a> Run<'a> {
    // Makes step after step until the job is over, and says how it ended.
    #[tactic(auto, using(crate::proofs::Ending::laters))]
    fn finish(&mut self, store: &mut Seq<u32>) -> Result<Outcome, Memory>
        ensures over { IfOk result (λ o. RunsTo self.old store.old o self.new store.new) }
        ensures memory { OnErr result
            (IsReached self.old.exchange (config_of self.old store.old []) store.new) }
    {
        loop {
            match self.step(store) {
                Ok(()) => {}
                Err(Stop::Ended) => return Ok(Outcome::Ended),
                Err(Stop::Fault(fault)) => {
                    return Ok(Outcome::Faulted {
                        fault,
                        point: self.point(),
                    });
                }
                Err(Stop::Memory) => return Err(Memory),
            }
        }
    }
}
