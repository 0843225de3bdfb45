// Jobs run by compiled code.
ghost use Rattle.std.specs.Prelude.{◌≡◌};

use crate::length::length_of;
use exchange_model::Exchange;
use exchange_run::Runner;
use job_run::JobRun;
use job_types::{JobDone, JobStart};
use machine_code::Code;
use offload_policy::{Lengths, Rest};
use plex_io::{Gate, Moment};
use plex_num::{Memory, Seq};
use register_machine::run_to_end;

/// Runs each job by the register machine on faithful code, and calls the gate before and after it.
/// One run serves all jobs, each begun in the place of the one before.
#[derive(Drop)]
pub struct ByCode<'a, G> {
    code: &'a Code,
    gate: &'a G,
    run: JobRun,
    /// How many jobs have begun, those before this runner among them.
    begun: u64,
    lengths: Lengths,
}

impl<'a, G: Gate> ByCode<'a, G> {
    /// Before the next job, where so many have ended: the gate knows it by the number behind those.
    pub fn behind(code: &'a Code, gate: &'a G, ended: u64) -> ByCode<'a, G>
        ensures { result.code.now ≡ code.now }
    {
        ByCode {
            code,
            gate,
            run: JobRun::idle(),
            begun: ended,
            lengths: Lengths::new(),
        }
    }
}

impl<'a, G: Gate> Runner for ByCode<'a, G> {
    ghost use Rattle.run_engines.specs.Machines.{Leaves};
    ghost use Rattle.machine_meaning.specs.Faithful.{Faithful};

    ghost runs = { λ r x. Faithful x r.code.now };

    ghost has_left = { λ r d. Leaves r.run d };

    #[tactic(auto, using(crate::proofs::Starting::entry_within))]
    fn run(
        &mut self,
        exchange: &Exchange,
        start: &JobStart,
        words: &mut Seq<u32>,
    ) -> Result<(), Memory> {
        exchange.kept();
        self.begun = self.begun.wrapping_add(1);
        self.gate.at(self.begun, Moment::Before);
        self.run.begin(self.code, start);
        run_to_end(exchange, &mut self.run, self.code, words);
        let steps = self.run.steps();
        self.lengths.add(length_of(&self.run));
        self.gate.at(self.begun, Moment::After { steps });
        Ok(())
    }

    fn done(&self) -> &JobDone {
        self.run.done()
    }

    fn has_long_jobs(&self, rest: Rest) -> bool {
        self.lengths.allow(rest)
    }
}
