// For each entry, the variables and fields that its jobs only add to.
ghost use Rattle.std.specs.Prelude.{◌≡◌, ◌<◌, length, true, IfOk, OnOk};
ghost use Rattle.flow_points.specs.Facts.{IsLeast};
ghost use Rattle.least_facts.specs.Least.{IsFor};
ghost use Rattle.conflicts_text.specs.Means.{AreOf};
ghost use Rattle.entry_additions.specs.Added.{AddsExactly};
ghost use Rattle.additions_text.specs.Lists.{AreLists, IsListOf, is_asked as is_asked_for};

use conflict_rows::KnownEntry;
use conflicts_meaning::EntryPair;
use conflicts_text::Means;
use entry_additions::{Added, added_of};
use least_facts::Analyser;
use plex_num::{Memory, Seq};
use std::alloc::Global;

/// The list of each entry; an entry that is not requested has an empty list.
pub(crate) fn lists_of(
    alloc: Global,
    means: &Means<'_>,
    analyser: &mut Analyser,
    asked: Option<EntryPair>,
) -> Result<Seq<Added>, Memory>
    requires of { AreOf means.now.exchange.now means.now.table.now means.now.places.now
        means.now.numbers.now means.now.summaries.now }
    requires own { IsFor means.now.exchange.now means.now.table.now analyser.old }
    ensures { IfOk result
        (AreLists means.now.exchange.now asked (length means.now.summaries.now)) }
{
    let mut lists = Seq::new(alloc);
    for number in 0..means.summaries.len() {
        let list = list_of(alloc, means, analyser, asked, number)?;
        lists.push(list)?;
    }
    Ok(lists)
}

fn list_of(
    alloc: Global,
    means: &Means<'_>,
    analyser: &mut Analyser,
    asked: Option<EntryPair>,
    number: usize,
) -> Result<Added, Memory>
    requires of { AreOf means.now.exchange.now means.now.table.now means.now.places.now
        means.now.numbers.now means.now.summaries.now }
    requires own { IsFor means.now.exchange.now means.now.table.now analyser.old }
    requires within { number < length means.now.summaries.now }
    ensures own { OnOk result (IsFor means.now.exchange.now means.now.table.now analyser.new) }
    ensures list { IfOk result (IsListOf means.now.exchange.now asked number) }
{
    if is_asked(asked, number) {
        return added_at(alloc, means, analyser, number);
    }
    Ok(nothing(alloc))
}

/// No variables and no fields.
fn nothing(alloc: Global) -> Added {
    Added {
        variables: Seq::new(alloc),
        fields: Seq::new(alloc),
    }
}

/// Whether an entry's lines are requested.
fn is_asked(asked: Option<EntryPair>, number: usize) -> bool
    ensures { result ≡ is_asked_for asked number }
{
    match asked {
        None => true,
        Some(pair) => (number == pair.first) | (number == pair.later),
    }
}

/// The variables and fields that an entry's jobs only add to. Computes the entry's facts once more.
fn added_at(
    alloc: Global,
    means: &Means<'_>,
    analyser: &mut Analyser,
    number: usize,
) -> Result<Added, Memory>
    requires of { AreOf means.now.exchange.now means.now.table.now means.now.places.now
        means.now.numbers.now means.now.summaries.now }
    requires own { IsFor means.now.exchange.now means.now.table.now analyser.old }
    requires within { number < length means.now.summaries.now }
    ensures own { OnOk result (IsFor means.now.exchange.now means.now.table.now analyser.new) }
    ensures list { IfOk result
        (AddsExactly means.now.exchange.now (IsLeast means.now.exchange.now) number) }
{
    means.exchange.kept();
    let entry = number as u32;
    analyser.learn(alloc, means.exchange, means.table, entry, None)?;
    let facts = analyser.known();
    let of = KnownEntry {
        exchange: means.exchange,
        numbers: means.numbers,
        known: facts,
        entry,
    };
    let summary = means.summaries.at(number);
    let list = added_of(alloc, &of, means.places, summary)?;
    Ok(list)
}
