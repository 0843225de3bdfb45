// What is kept of the certificate of an exchange itself.
ghost use Rattle.std.specs.Prelude.{IfOk};
ghost use Rattle.certificate_meaning.specs.Summaries.{AreSummaries};
ghost use Rattle.checked.specs.Kept.{IsChecked};
ghost use Rattle.certificate_check.specs.Own.{IsOwn};

use access_summary::{Excess, FewOrMany, summaries_if_few};
use checked::Checked;
use exchange_model::Exchange;
use kept_summaries::Summaries;
use plex_num::Memory;
use std::alloc::Global;

/// What is kept of the exchange's own certificate, for which there may be so many looks at facts.
#[derive(Drop)]
pub enum Own {
    /// The summary of each entry, by the least facts.
    Kept(Checked),
    /// More looks were made, and nothing is kept.
    Many(Excess),
}

/// What the exchange's own certificate says of the entries: the summary of each by the least facts,
/// which are found once and need no second look. Where more than so many looks at facts, about, are
/// wanted, in all or for one entry, for which there may be a sixteenth of them, it tells how many
/// were made, no more than there may be for the least facts that were found. Memory is the only
/// reason for an error.
pub fn keep_own_if_few(alloc: Global, exchange: &Exchange, looks: usize) -> Result<Own, Memory>
    ensures { IfOk result (IsOwn exchange.now looks) }
{
    match summaries_if_few(alloc, exchange, looks)? {
        FewOrMany::Few(summaries) => Ok(Own::Kept(kept_by_least(exchange, summaries))),
        FewOrMany::Many(excess) => Ok(Own::Many(excess)),
    }
}

/// What keeps these summaries by the least facts.
fn kept_by_least(exchange: &Exchange, summaries: Summaries) -> Checked
    requires { AreSummaries exchange.now summaries }
    ensures checked { IsChecked exchange.now result }
    ensures least { AreSummaries exchange.now result.summaries }
{
    exchange.kept();
    Checked::new(summaries)
}
