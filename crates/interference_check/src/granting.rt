// The permits of starts.
ghost use Rattle.std.specs.Prelude.{◌≡◌, ◌<◌, IfOk, length};
ghost use Rattle.source_meaning.specs.State.{State};
ghost use Rattle.source_meaning.specs.Valid.{IsFitting, IsValid};
ghost use Rattle.store_layout.specs.Laid.{IsLayout};
ghost use Rattle.start_permit.specs.Granted.{IsCellTable};
ghost use Rattle.checked.specs.Kept.{IsChecked};
ghost use Rattle.interference_check.specs.Permits.{IsPermitOf, OfEntry, StaysWithin};

use checked::Checked;
use exchange_model::Exchange;
use forlopp_chain::Chains;
use job_types::JobStart;
use machine_code::Permit;
use plex_num::Memory;
use start_permit::CellTable;
use std::alloc::Global;
use store_layout::Layout;

/// The words that a job of this start may read and write, by the summary of its entry and by which
/// records stand in the chains. The layout and the table are those of the exchange. Where the
/// certificate is one of the exchange, the job stays within its permit in every valid state that
/// has these chains and that the start fits. Memory is the only reason for an error.
pub fn permit(
    alloc: Global,
    exchange: &Exchange,
    checked: &Checked,
    layout: &Layout,
    table: &CellTable,
    chains: &Chains,
    start: &JobStart,
) -> Result<Permit, Memory>
    requires entry { start.now.job.entry < length checked.now.summaries }
    requires layout { IsLayout exchange.now.blocks layout.now }
    requires table { IsCellTable exchange.now table.now }
    ensures exact { IfOk result (λ permit. OfEntry checked.now start.now.job.entry
        (λ m. IsPermitOf exchange.now m start.now chains.now.chains permit)) }
    ensures stays { IfOk result (λ permit. (s : State)
        → IsChecked exchange.now checked.now → IsValid exchange.now s
        → IsFitting exchange.now s start.now → s.chains ≡ chains.now.chains
        → OfEntry checked.now start.now.job.entry
        (λ m. StaysWithin exchange.now m permit start.now s.store)) }
{
    exchange.kept();
    let summary = checked.summary(start.job.entry);
    start_permit::permit(alloc, exchange, table, summary, layout, chains, start)
}
