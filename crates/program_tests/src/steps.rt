// The number of instructions that the dispatcher counts.
ghost use Rattle.std.specs.Prelude.{◌≤◌};
ghost use Rattle.plex_limits.specs.declared.limits.TheConstants.{MOST_JOBS};
ghost use Rattle.store_layout.specs.Laid.{IsLayout};
ghost use Rattle.machine_meaning.specs.Faithful.{Faithful};
ghost use Rattle.checked.specs.Kept.{IsChecked};
ghost use Rattle.exchange_run.specs.Runs.{MayGoOn};
ghost use Rattle.answer_meaning.specs.Lines.{AreRead};

use crate::devices::files_of;
use crate::whole::NotMade;
use certificate_check::{Own, keep_own_if_few};
use checked::Checked;
use code_gen::compile;
use exchange_model::Exchange;
use exchange_run::{Standing, before_lines};
use known_exchange::{known_in, lines_in};
use lone_job::RunContext;
use machine_code::Code;
use parallel_dispatch::{Dispatched, Host, StoredRun, dispatch};
use plex_io::{NoGate, SteadyShelf};
use plex_num::Seq;
use shared_store::SharedStore;
use signal_file::Line;
use std::alloc::Global;
use std::sync::Wait;
use std::thread::Threads;
use store_layout::{Layout, layout_of};

/// The bound of the analysis, in looks at facts.
const LOOKS: usize = 65_536;

/// The number of instructions of these signal lines' jobs, with two workers, as the dispatcher
/// counts them.
pub fn steps_of<R: Threads + Wait + Sync>(
    rt: &R,
    alloc: Global,
    exchange: &str,
    signals: &str,
) -> Result<u64, NotMade> {
    let files = files_of(alloc, &[("E", exchange), ("S", signals)])?;
    let exchange = Seq::copied(alloc, b"E")?;
    let signals = Seq::copied(alloc, b"S")?;
    let mut shelf = SteadyShelf::new(files);
    let known = known_in(alloc, &mut shelf, &exchange)?;
    let lines = lines_in(alloc, &mut shelf, &known, &signals)?;
    counted(rt, alloc, &known.exchange, lines)
}

/// The same for lines that are read already.
#[tactic(auto, using(run_answers::proofs::Opened::opened_rules))]
fn counted<R: Threads + Wait + Sync>(
    rt: &R,
    alloc: Global,
    exchange: &Exchange,
    lines: Seq<Line>,
) -> Result<u64, NotMade>
    requires lines { AreRead exchange.now lines }
{
    exchange.kept();
    let layout = layout_of(alloc, exchange)?;
    let run = before_lines(alloc, exchange, &layout, lines, 100)?;
    let code = compile(alloc, exchange, &layout)?;
    match keep_own_if_few(alloc, exchange, LOOKS)? {
        Own::Kept(checked) => dispatched(rt, alloc, exchange, &layout, &code, &checked, run),
        Own::Many(_) => Err(NotMade),
    }
}

/// The same for a run in an intermediate state.
#[tactic(auto, using(worker_answers::proofs::Rooted::root_rules))]
fn dispatched<R: Threads + Wait + Sync>(
    rt: &R,
    alloc: Global,
    exchange: &Exchange,
    layout: &Layout,
    code: &Code,
    checked: &Checked,
    run: Standing,
) -> Result<u64, NotMade>
    requires layout { IsLayout exchange.now.blocks layout.now }
    requires faithful { Faithful exchange.now code.now }
    requires checked { IsChecked exchange.now checked.now }
    requires run { MayGoOn exchange.now run }
    requires limit { run.books.limit ≤ MOST_JOBS }
{
    let context = RunContext {
        exchange,
        layout,
        code,
        checked,
        workers: 2,
    };
    let (store, root) = SharedStore::new(alloc, &run.words)?;
    let stored = StoredRun {
        books: run.books,
        root,
        may_rest: false,
    };
    let host = Host {
        rt,
        alloc,
        gate: &NoGate,
    };
    match dispatch(&host, &context, &store, stored) {
        Ok(Dispatched::Over(end)) => Ok(end.steps),
        Ok(Dispatched::Rests(_)) => Err(NotMade),
        Err(_) => Err(NotMade),
    }
}
