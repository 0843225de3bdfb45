// The whole text.
ghost use Rattle.std.specs.Prelude.{◌≡◌, OnOk};
ghost use Rattle.analysis_text.specs.Pairs.{GainsText};
ghost use Rattle.certificate_meaning.specs.Summaries.{AreSummaries};
ghost use Rattle.additions_text.specs.Additions.{AreAdditions};

use crate::lists::lists_of;
use crate::parts::{Known, add_sections};
use analysis_text::names_of;
use conflicts_meaning::EntryPair;
use conflicts_text::{Means, asked_sections};
use entry_accesses::numbers_of;
use exchange_model::Exchange;
use flow_table::{places_of, table_of};
use kept_summaries::Summaries;
use least_facts::Analyser;
use plex_num::Memory;
use std::alloc::Global;
use text_parts::Text;

/// Appends the additions of an exchange whose entries have these summaries, for all entries or for
/// the requested pair: the variables and fields that each entry's jobs only add to, and each pair's
/// verdict without accesses to what both only add to, if it differs. The only error is out of
/// memory.
pub fn add_additions(
    text: &mut Text,
    alloc: Global,
    exchange: &Exchange,
    summaries: &Summaries,
    asked: Option<EntryPair>,
) -> Result<(), Memory>
    requires { AreSummaries exchange.now summaries.now }
    ensures { OnOk result (GainsText (AreAdditions exchange.now asked) text.old text.new) }
{
    exchange.kept();
    let table = table_of(alloc, exchange)?;
    let places = places_of(alloc, exchange)?;
    let numbers = numbers_of(alloc, exchange)?;
    let mut analyser = Analyser::new(alloc, exchange, &table)?;
    let stands = places.as_slice();
    let means = Means {
        exchange,
        table: &table,
        places: stands,
        numbers: &numbers,
        summaries,
    };
    let lists = lists_of(alloc, &means, &mut analyser, asked)?;
    let names = names_of(alloc, exchange)?;
    let made = asked_sections(alloc, summaries.len(), asked)?;
    let sections = made.as_slice();
    let known = Known {
        exchange,
        names: &names,
        summaries,
        lists: &lists,
    };
    text.append(b"ADDITIONS 1\n")?;
    add_sections(text, alloc, &known, asked, sections)?;
    text.append(b"END ADDITIONS\n")?;
    Ok(())
}
