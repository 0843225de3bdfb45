// A job runs on the shared words.
ghost use Rattle.machine_meaning.specs.Faithful.{Faithful};
ghost use Rattle.job_runner.specs.Runs.{IsReady, HasRun};

use crate::loan_words::LoanWords;
use exchange_model::Exchange;
use job_run::JobRun;
use machine_code::Code;
use register_machine::run_to_end;
use shared_store::{JobSeat, SharedStore};

/// Runs a job to its end on the words that it was lent. The code must be faithful for the exchange,
/// the seat that of a loan of this store that has touched nothing, the run at the loan's start, the
/// loan's base values the stored words of a valid state which the start fits, and each touch of the
/// job's meaning there one that the loan's permit lets. The run comes back at the end to which the
/// machine comes alone on the base values, whatever other seats do meanwhile. The seat comes back
/// with the job's touches.
pub fn run_job(
    exchange: &Exchange,
    store: &SharedStore,
    seat: JobSeat,
    mut run: JobRun,
    code: &Code,
) -> (JobSeat, JobRun)
    requires faithful { Faithful exchange.now code.now }
    requires ready { IsReady exchange.now code.now store.now seat run }
    ensures { HasRun exchange.now code.now store.now seat.1.lent result.0 result.1 }
{
    let seat = run_in_place(exchange, store, seat, &mut run, code);
    (seat, run)
}

/// The same with a run that stays where it is: it is large, and may serve one job after the other.
pub fn run_in_place(
    exchange: &Exchange,
    store: &SharedStore,
    seat: JobSeat,
    run: &mut JobRun,
    code: &Code,
) -> JobSeat
    requires faithful { Faithful exchange.now code.now }
    requires ready { IsReady exchange.now code.now store.now seat run.old }
    ensures { HasRun exchange.now code.now store.now seat.1.lent result run.new }
{
    exchange.kept();
    let mut words = LoanWords { store, seat };
    run_to_end(exchange, run, code, &mut words);
    let LoanWords { store: _, seat } = words;
    seat
}
