// Runs jobs by code for as long as they are short.
ghost use Rattle.std.specs.Prelude.{IfOk, MatchOption};
ghost use Rattle.store_layout.specs.Laid.{IsLayout};
ghost use Rattle.machine_meaning.specs.Faithful.{Faithful};
ghost use Rattle.checked.specs.Kept.{IsChecked};
ghost use Rattle.certificate_check.specs.Own.{IsGivenUp};
ghost use Rattle.exchange_run.specs.Runs.{MayGoOn, state_of};
ghost use Rattle.run_certificates.specs.Growth.{HasGrown};

use certificate_check::{Own, keep_own_if_few};
use checked::Checked;
use exchange_model::Exchange;
use exchange_run::{Come, Ended, Standing, Unwatched, run_books, run_until};
use offload_policy::{FIRST_LOOKS, ROUNDS, Rest, STEPS_FOR_LOOK};
use plex_io::Gate;
use plex_num::Memory;
use run_engines::ByCode;
use std::alloc::Global;
use store_layout::Layout;

/// More instructions than the jobs of a run execute: an analysis that was out of memory is not
/// tried again.
const NEVER: u64 = u64::MAX;

/// The result of a run while its jobs are short.
#[derive(Drop)]
pub enum Grown {
    /// It is over.
    Over(Ended),
    /// Its jobs have become long, and these summaries of the exchange's own certificate are kept.
    Long(Standing, Checked),
}

/// Runs jobs sequentially for as long as they are short, since the analysis and the threads would
/// cost more than such jobs take. Then analyses the exchange, with a bound on the work.
///
/// An analysis that would exceed the bound is given up. The run then continues as before until it
/// has executed so many instructions that an analysis with twice the bound is a small part of them,
/// and so on. After an analysis that is out of memory none is tried again. The only error is out of
/// memory.
#[tactic(auto, using(exchange_run::proofs::Resting::way_rules))]
pub fn until_long<G: Gate>(
    alloc: Global,
    exchange: &Exchange,
    layout: &Layout,
    run: Standing,
    runner: &mut ByCode<'_, G>,
    workers: u32,
) -> Result<Grown, Memory>
    requires layout { IsLayout exchange.now.blocks layout.now }
    requires run { MayGoOn exchange.now run }
    requires runner { Faithful exchange.now runner.old.code.now }
    ensures { IfOk result (λ grown. HasGrown exchange.now (state_of run) run.books.limit grown) }
{
    let mut there = run;
    let mut looks = FIRST_LOOKS;
    let mut least = 0;
    for _round in 0..ROUNDS {
        let rest = Some(Rest::when(workers, least));
        there = match run_until(exchange, layout, there, runner, &mut Unwatched, rest)? {
            Come::Over(end) => return Ok(Grown::Over(end)),
            Come::Among(rests) => rests,
        };
        let more = looks.saturating_mul(2);
        least = match kept_within(alloc, exchange, looks) {
            Ok(Some(checked)) => return Ok(Grown::Long(there, checked)),
            Ok(None) => (more as u64).saturating_mul(STEPS_FOR_LOOK),
            Err(_) => NEVER,
        };
        looks = more;
    }
    let end = run_books(exchange, layout, there, runner, &mut Unwatched)?;
    Ok(Grown::Over(end))
}

/// The summaries kept of the exchange's own certificate; `None` if the analysis takes more than
/// this many looks at facts, which the number of least facts found accounts for. The only error is
/// out of memory.
#[tactic(auto, using(certificate_check::proofs::Owning::given_up))]
fn kept_within(alloc: Global, exchange: &Exchange, looks: usize) -> Result<Option<Checked>, Memory>
    ensures { IfOk result (λ kept. MatchOption kept
        (IsGivenUp exchange.now looks)
        (IsChecked exchange.now)) }
{
    match keep_own_if_few(alloc, exchange, looks)? {
        Own::Kept(checked) => Ok(Some(checked)),
        Own::Many(_) => Ok(None),
    }
}
