// The permit of a start.
ghost use Rattle.std.specs.Prelude.{◌≡◌, ◌↔◌, ℕ, true, IfOk};
ghost use Rattle.machine_code.specs.Permits.{may_read, may_write};
ghost use Rattle.store_layout.specs.Laid.{IsLayout};
ghost use Rattle.start_permit.specs.Granted.{IsCellTable, MayRead, MayWrite};

use crate::granting::{Grounds, words_of};
use crate::table::CellTable;
use entry_summary::Summary;
use exchange_model::Exchange;
use forlopp_chain::Chains;
use job_types::JobStart;
use machine_code::Permit;
use plex_num::Memory;
use std::alloc::Global;
use store_layout::Layout;

/// The words that a job of this start may read and write, by what the jobs of its entry may do and
/// by which records stand in the chains. The table is that of the exchange, and so is the layout.
/// Memory is the only reason for an error.
pub fn permit(
    alloc: Global,
    exchange: &Exchange,
    table: &CellTable,
    summary: &Summary,
    layout: &Layout,
    chains: &Chains,
    start: &JobStart,
) -> Result<Permit, Memory>
    requires layout { IsLayout exchange.now.blocks layout.now }
    requires table { IsCellTable exchange.now table.now }
    ensures reads { IfOk result (λ permit. (word : ℕ) → (may_read permit word ≡ true)
        ↔ MayRead exchange.now summary.now start.now chains.now.chains word) }
    ensures writes { IfOk result (λ permit. (word : ℕ) → (may_write permit word ≡ true)
        ↔ MayWrite exchange.now summary.now start.now chains.now.chains word) }
{
    let records = chains.records()?;
    let held = records.as_slice();
    let all = summary.accesses.as_slice();
    let grounds = Grounds {
        exchange,
        layout,
        table,
        all,
        held,
        start,
    };
    let reads = words_of(alloc, &grounds, false)?;
    let writes = words_of(alloc, &grounds, true)?;
    Ok(Permit { reads, writes })
}
