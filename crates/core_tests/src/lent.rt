// Tests a job that runs on a loan.
ghost use Rattle.std.specs.Prelude.{◌≡◌, ◌<◌, ◌^◌, [], ◌∷◌, length, map, IfOk};
ghost use Rattle.exchange_run.specs.Runs.{MayRun};
ghost use Rattle.machine_meaning.specs.Faithful.{Faithful};
ghost use Rattle.run_books.specs.Lines.{coming_of};
ghost use Rattle.source_meaning.specs.Valid.{LinesFit};

use crate::given::{NotMade, books_of, exchange_of, lines_of};
use crate::texts::{PARTS, TWO_ASKS};
use code_gen::compile;
use exchange_model::Exchange;
use job_run::JobRun;
use job_runner::run_job;
use job_types::JobStart;
use machine_code::{Code, Permit, Span};
use plex_num::{Memory, Seq};
use shared_store::SharedStore;
use signal_file::Line;
use std::alloc::Global;
use std::test::Fail;
use store_layout::{layout_of, opening};

/// A permit to write each of this many words.
fn all_words(alloc: Global, count: u32) -> Result<Permit, Memory>
    ensures { IfOk result (λ p.
        p.writes ≡ record { first = 0; count = count; stride = 1 } ∷ []) }
{
    let mut writes = Seq::new(alloc);
    writes.push(Span {
        first: 0,
        count,
        stride: 1,
    })?;
    Ok(Permit {
        reads: Seq::new(alloc),
        writes,
    })
}

/// The number of the exchange's words.
fn count_of(exchange: &Exchange) -> u32
    ensures { result ≡ exchange.now.cells }
{
    exchange.cells
}

/// The number of instructions that the job executes on these words, all of them lent to it.
fn steps_on(
    alloc: Global,
    exchange: &Exchange,
    code: &Code,
    start: &JobStart,
    words: &Seq<u32>,
) -> Result<u64, NotMade>
    requires faithful { Faithful exchange.now code.now }
    requires start { MayRun exchange.now start.now words.now }
{
    exchange.kept();
    let count = count_of(exchange);
    let permit = all_words(alloc, count)?;
    let (store, mut root) = SharedStore::new(alloc, words)?;
    let seat = store.lend(&mut root, start, permit);
    let run = JobRun::new(code, start);
    let (seat, run) = run_job(exchange, &store, seat, run, code);
    store.take_back(&mut root, seat);
    Ok(run.steps())
}

/// The same for the first job of these lines.
fn steps_of_first(alloc: Global, exchange: &Exchange, lines: Seq<Line>) -> Result<u64, NotMade>
    requires fit { LinesFit exchange.now [] (map coming_of lines) }
    requires few { length lines < 2 ^ 32 }
{
    exchange.kept();
    let layout = layout_of(alloc, exchange)?;
    let code = compile(alloc, exchange, &layout)?;
    let words = opening(alloc, exchange, &layout)?;
    let books = books_of(alloc, exchange, lines)?;
    match books.peek() {
        Some(start) => steps_on(alloc, exchange, &code, &start, &words),
        None => Err(NotMade),
    }
}

/// The same for the exchange and the lines of two texts.
fn steps_in(alloc: Global, exchange: &str, lines: &str) -> Result<u64, NotMade> {
    let exchange = exchange_of(alloc, exchange)?;
    let lines = lines_of(alloc, &exchange, lines)?;
    steps_of_first(alloc, &exchange, lines)
}

/// The job's statements are the ENTER, a SEND and the EXIT.
#[test]
fn a_job_runs_on_lent_words(rt: HostRuntime) -> Result<(), Fail> {
    let steps = steps_in(rt.alloc(), PARTS, TWO_ASKS)?;
    assert_eq!(rt; steps, 9);
    Ok(())
}
