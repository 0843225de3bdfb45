// What is to be stored after a job has come to its end: it is listed before the first change, so
// that none can be refused.
ghost use Rattle.std.specs.Prelude.{◌≡◌, ◌+◌, ◌≤◌, length, IfOk};
ghost use Rattle.std.specs.FinMap as map;
ghost use Rattle.job_types.specs.Forlopps.{all_records};
ghost use Rattle.plex_limits.specs.declared.limits.TheConstants.{MOST_CELLS, MOST_JOBS};
ghost use Rattle.run_books.specs.Stores.{IsAftermathOf, open_stores, restart_stores};
ghost use Rattle.store_layout.specs.Laid.{IsLayout};

use crate::stores::{Write, list_cleared, list_records};
use exchange_model::Exchange;
use forlopp_chain::Chains;
use job_types::{Held, JobDone, Outcome};
use plex_num::{Memory, Seq};
use std::alloc::Global;
use store_layout::Layout;

/// The stores that the end of a job brings with it, and how many records go where the exchange
/// begins anew.
#[derive(Drop)]
pub struct Aftermath {
    pub stores: Seq<Write>,
    pub records: u32,
}

/// The aftermath of a job of this forlopp that left this, where the forlopps have these chains.
#[tactic(auto, using(crate::proofs::Settled::aftermath_ended, crate::proofs::Settled::aftermath_anew, crate::proofs::Settled::aftermath_released))]
pub fn aftermath_of(
    alloc: Global,
    exchange: &Exchange,
    layout: &Layout,
    chains: &Chains,
    forlopp: u64,
    done: &JobDone,
) -> Result<Aftermath, Memory>
    requires layout { IsLayout exchange.now.blocks layout.now }
    requires few { map.len chains.now.chains ≤ MOST_CELLS + MOST_JOBS }
    ensures { IfOk result
        (λ a. IsAftermathOf exchange.now forlopp done.now chains.now.chains a) }
{
    let Outcome::Faulted { .. } = done.outcome else {
        return Ok(Aftermath {
            stores: Seq::new(alloc),
            records: 0,
        });
    };
    if forlopp == 0 {
        return of_restart(alloc, exchange, layout, chains);
    }
    of_release(alloc, exchange, layout, done.chain.as_slice())
}

/// The aftermath of a fault without forlopp.
#[tactic(auto, using(crate::proofs::Counted::records_few))]
fn of_restart(
    alloc: Global,
    exchange: &Exchange,
    layout: &Layout,
    chains: &Chains,
) -> Result<Aftermath, Memory>
    requires layout { IsLayout exchange.now.blocks layout.now }
    requires few { map.len chains.now.chains ≤ MOST_CELLS + MOST_JOBS }
    ensures stores { IfOk result (λ a. a.stores ≡ restart_stores exchange.now chains.now.chains) }
    ensures records { IfOk result (λ a. a.records ≡ length (all_records chains.now.chains)) }
{
    let records = chains.records()?;
    let mut stores = Seq::new(alloc);
    list_records(&mut stores, exchange, layout, records.as_slice())?;
    list_cleared(&mut stores, exchange)?;
    Ok(Aftermath {
        stores,
        records: records.len() as u32,
    })
}

/// The aftermath of a fault in a forlopp of this chain.
fn of_release(
    alloc: Global,
    exchange: &Exchange,
    layout: &Layout,
    chain: &[Held],
) -> Result<Aftermath, Memory>
    requires { IsLayout exchange.now.blocks layout.now }
    ensures { IfOk result (λ a. a.stores ≡ open_stores exchange.now chain.now) }
{
    let mut stores = Seq::new(alloc);
    list_records(&mut stores, exchange, layout, chain)?;
    Ok(Aftermath { stores, records: 0 })
}
