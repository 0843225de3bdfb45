// The text of an analysis.
ghost use Rattle.std.specs.Prelude.{◌≡◌, IfOk};
ghost use Rattle.analysis_text.specs.Analysis.{IsAnalysis};

use crate::entries::add_entries;
use crate::names::names_of;
use crate::pairs::add_pairs;
use exchange_model::Exchange;
use kept_summaries::Summaries;
use plex_num::Memory;
use std::alloc::Global;
use text_parts::{Parts, Text};

/// The text of the analysis of an exchange whose entries have these summaries, in the order of the
/// entries: what the jobs of each entry may do, and of each ordered pair of entries whether they
/// never run at once, with the first conflict, or on which tests. Memory is the only reason for an
/// error.
#[tactic(auto, using(crate::proofs::Joined::whole))]
pub fn analysis(alloc: Global, exchange: &Exchange, summaries: &Summaries) -> Result<Text, Memory>
    ensures { IfOk result (IsAnalysis exchange.now summaries.now) }
{
    let names = names_of(alloc, exchange)?;
    let mut parts = Parts::new(alloc);
    add_entries(&mut parts, alloc, exchange, &names, summaries)?;
    let mut text = Text::in_parts(alloc, parts);
    add_pairs(&mut text, alloc, &names, summaries)?;
    text.append(b"END PAIRS\n")?;
    Ok(text)
}
