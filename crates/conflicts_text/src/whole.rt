// The whole text.
ghost use Rattle.std.specs.Prelude.{◌≡◌, IfOk};
ghost use Rattle.certificate_meaning.specs.Summaries.{AreSummaries};
ghost use Rattle.conflicts_meaning.specs.Told.{AreConflicts};

use crate::sections::asked_sections;
use crate::told::{Means, add_sections};
use analysis_text::analysis;
use conflicts_meaning::{EntryPair, MOST_TOLD};
use entry_accesses::numbers_of;
use exchange_model::Exchange;
use flow_table::{places_of, table_of};
use kept_summaries::Summaries;
use least_facts::Analyser;
use plex_num::Memory;
use std::alloc::Global;
use text_parts::Text;

/// The conflicts of an exchange whose entries have these summaries, for all entries or for the
/// requested pair: the analysis, the points that cause each access and each level of the entries,
/// and all conflicting accesses. The only error is out of memory.
pub fn conflicts(
    alloc: Global,
    exchange: &Exchange,
    summaries: &Summaries,
    asked: Option<EntryPair>,
) -> Result<Text, Memory>
    requires { AreSummaries exchange.now summaries.now }
    ensures { IfOk result (AreConflicts exchange.now asked) }
{
    exchange.kept();
    let table = table_of(alloc, exchange)?;
    let places = places_of(alloc, exchange)?;
    let numbers = numbers_of(alloc, exchange)?;
    let mut analyser = Analyser::new(alloc, exchange, &table)?;
    let made = asked_sections(alloc, summaries.len(), asked)?;
    let told = made.as_slice();
    let stands = places.as_slice();
    let means = Means {
        exchange,
        table: &table,
        places: stands,
        numbers: &numbers,
        summaries,
    };
    let mut text = analysis(alloc, exchange, summaries)?;
    text.append(b"CONFLICTS 1\n")?;
    add_sections(&mut text, alloc, &means, &mut analyser, told, MOST_TOLD)?;
    Ok(text)
}
