// The texts of the sections.
ghost use Rattle.std.specs.Prelude.{◌≡◌, ◌<◌, Some, length, slice_get, IfOk, OnOk};
ghost use Rattle.analysis_text.specs.Names.{names_of};
ghost use Rattle.analysis_text.specs.Pairs.{GainsText};
ghost use Rattle.conflicts_meaning.specs.declared.rows.Section.TheVariants as section;
ghost use Rattle.conflicts_text.specs.Within.{AllWithin, IsWithin};
ghost use Rattle.additions_text.specs.Additions.{InTurn, IsEntryText, IsPairText, IsSectionText};
ghost use Rattle.additions_text.specs.Lists.{AllAsked, AreLists, AsksFor};

use crate::lines::{adding_text, adds_lines};
use addition_pairs::adding_of;
use analysis_text::Names;
use conflicts_meaning::{EntryPair, Section};
use entry_additions::Added;
use exchange_model::Exchange;
use kept_summaries::Summaries;
use plex_num::{Memory, Seq};
use std::alloc::Global;
use text_parts::Text;

/// The names of an exchange, and for each entry its summary and its list of additions.
#[derive(Clone, Copy)]
pub(crate) struct Known<'a> {
    pub exchange: &'a Exchange,
    pub names: &'a Names,
    pub summaries: &'a Summaries,
    pub lists: &'a Seq<Added>,
}

/// Appends the texts of the sections.
pub(crate) fn add_sections(
    text: &mut Text,
    alloc: Global,
    known: &Known<'_>,
    asked: Option<EntryPair>,
    sections: &[Section],
) -> Result<(), Memory>
    requires names { known.now.names.now ≡ names_of known.now.exchange.now.blocks }
    requires lists { AreLists known.now.exchange.now asked (length known.now.summaries.now)
        known.now.lists.now }
    requires within { AllWithin (length known.now.summaries.now) sections.now }
    requires asked { AllAsked asked sections.now }
    ensures { OnOk result (GainsText
        (InTurn (IsSectionText known.now.exchange.now known.now.summaries.now) sections.now)
        text.old text.new) }
{
    for place in 0..sections.len() {
        let section = section_at(sections, place);
        let part = section_text(alloc, known, asked, section)?;
        let bytes = part.as_slice();
        text.append(bytes)?;
    }
    Ok(())
}

/// The section at an index.
fn section_at(sections: &[Section], place: usize) -> Section
    requires { place < length sections.now }
    ensures { slice_get sections.now place ≡ Some result }
{
    sections[place]
}

fn section_text(
    alloc: Global,
    known: &Known<'_>,
    asked: Option<EntryPair>,
    section: Section,
) -> Result<Seq<u8>, Memory>
    requires names { known.now.names.now ≡ names_of known.now.exchange.now.blocks }
    requires lists { AreLists known.now.exchange.now asked (length known.now.summaries.now)
        known.now.lists.now }
    requires within { IsWithin (length known.now.summaries.now) section }
    requires asked { AsksFor asked section }
    ensures { IfOk result
        (IsSectionText known.now.exchange.now known.now.summaries.now section) }
{
    match section {
        Section::Entry { number } => entry_text(alloc, known, asked, number),
        Section::Pair { pair } => pair_text(alloc, known, asked, pair),
    }
}

fn entry_text(
    alloc: Global,
    known: &Known<'_>,
    asked: Option<EntryPair>,
    number: usize,
) -> Result<Seq<u8>, Memory>
    requires names { known.now.names.now ≡ names_of known.now.exchange.now.blocks }
    requires lists { AreLists known.now.exchange.now asked (length known.now.summaries.now)
        known.now.lists.now }
    requires within { IsWithin (length known.now.summaries.now) (section.Entry number) }
    requires asked { AsksFor asked (section.Entry number) }
    ensures { IfOk result (IsEntryText known.now.exchange.now number) }
{
    let list = list_at(known.lists, number);
    adds_lines(alloc, known.names, number, list)
}

fn pair_text(
    alloc: Global,
    known: &Known<'_>,
    asked: Option<EntryPair>,
    pair: EntryPair,
) -> Result<Seq<u8>, Memory>
    requires names { known.now.names.now ≡ names_of known.now.exchange.now.blocks }
    requires lists { AreLists known.now.exchange.now asked (length known.now.summaries.now)
        known.now.lists.now }
    requires within { IsWithin (length known.now.summaries.now) (section.Pair pair) }
    requires asked { AsksFor asked (section.Pair pair) }
    ensures { IfOk result (IsPairText known.now.exchange.now known.now.summaries.now pair) }
{
    let first = known.summaries.at(pair.first);
    let later = known.summaries.at(pair.later);
    let first_adds = list_at(known.lists, pair.first);
    let later_adds = list_at(known.lists, pair.later);
    let told = adding_of(alloc, first, later, first_adds, later_adds)?;
    adding_text(alloc, known.names, pair, &told)
}

/// The list of an entry.
fn list_at(lists: &Seq<Added>, number: usize) -> &Added
    requires { number < length lists.now }
    ensures { slice_get lists.now number ≡ Some result.now }
{
    &lists.as_slice()[number]
}
