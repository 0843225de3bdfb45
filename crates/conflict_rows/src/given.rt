// The points whose statements give what a summary has.
ghost use Rattle.std.specs.Prelude.{◌≡◌, ◌↔◌, ◌∷◌, ◌+◌, ◌<◌, ℕ, true, [], map, length, slice_get};
ghost use Rattle.std.specs.Prelude.{Some, IfOk, OnOk};
ghost use Rattle.std.specs.List.{Contains};
ghost use Rattle.std.specs.List.Sorted.{IsStrictlySortedBy};
ghost use Rattle.flow_table.specs.Texts.{AreReachedAmong, seen};
ghost use Rattle.fact_rows.specs.Known.{Knows, KnowsAt};
ghost use Rattle.entry_summary.specs.Orders.{access_order};
ghost use Rattle.entry_accesses.specs.Adding.{Adds};
ghost use Rattle.entry_accesses.specs.Levels.{is_sent};
ghost use Rattle.entry_accesses.specs.Listed.{AreAccesses};
ghost use Rattle.entry_accesses.specs.Numbered.{AreNumbers};
ghost use Rattle.conflicts_meaning.specs.declared.rows.GivenAt.{GivenAt as RowType};
ghost use Rattle.conflicts_meaning.specs.Points.{AreGiven, AreSomeGiven, given_order};
ghost use Rattle.conflict_rows.specs.Found.{FindsWithin, is_past as is_past_bound};
ghost use Rattle.conflict_rows.specs.Items.{GivenBy};
ghost use Rattle.conflict_rows.specs.Points.{AccessAt, GivesAt, LevelAt};

use crate::at_point::AtPoint;
use crate::found::{GivenRows, is_past};
use crate::places::{at, level_at, place_of};
use conflicts_meaning::GivenAt;
use entry_accesses::{CellNumbers, Listed, accesses_within, levels_of};
use entry_summary::{Access, Summary};
use exchange_model::Exchange;
use fact_rows::FactRows;
use flow_table::{KnownFacts, PlaceAt};
use plex_num::{Level, Memory, Seq};
use std::alloc::Global;

/// What is known of an entry, and of the exchange.
#[derive(Clone, Copy)]
pub struct KnownEntry<'a> {
    pub exchange: &'a Exchange,
    pub numbers: &'a CellNumbers,
    pub known: &'a FactRows,
    pub entry: u32,
}

/// All points whose statements give an access of the summary, or send to a level of it, in a job of
/// the entry: in order, each once. The places are those that are reached. Memory is the only reason
/// for an error.
pub fn given_in(
    alloc: Global,
    of: &KnownEntry<'_>,
    places: &[PlaceAt<'_>],
    summary: &Summary,
) -> Result<Seq<GivenAt>, Memory>
    requires places { AreReachedAmong of.now.exchange.now (Knows of.now.known.now) of.now.entry
        (map seen places.now) }
    requires numbers { AreNumbers of.now.exchange.now of.now.numbers.now }
    ensures { IfOk result (AreGiven of.now.exchange.now (Knows of.now.known.now) of.now.entry
        summary.now) }
{
    let found = given_within(alloc, of, places, summary, None)?;
    match found {
        GivenRows::Whole { rows } => Ok(rows),
        GivenRows::Over { .. } => unreachable!(),
    }
}

/// The same points where no more than so many are found, if there is a bound; else some of them,
/// which are more. Memory is the only reason for an error.
pub fn given_within(
    alloc: Global,
    of: &KnownEntry<'_>,
    places: &[PlaceAt<'_>],
    summary: &Summary,
    most: Option<usize>,
) -> Result<GivenRows, Memory>
    requires places { AreReachedAmong of.now.exchange.now (Knows of.now.known.now) of.now.entry
        (map seen places.now) }
    requires numbers { AreNumbers of.now.exchange.now of.now.numbers.now }
    ensures { IfOk result (FindsWithin most
        (AreGiven of.now.exchange.now (Knows of.now.known.now) of.now.entry summary.now)
        (AreSomeGiven of.now.exchange.now (Knows of.now.known.now) of.now.entry summary.now)) }
{
    let mut rows = Seq::new(alloc);
    for place in 0..places.len() {
        let at = place_at(places, place);
        push_place(alloc, of, &at, summary, &mut rows)?;
        rows = few_or_in_order(rows, most);
        if is_past(most, rows.len()) {
            return Ok(GivenRows::Over { rows });
        }
    }
    let sorted = in_order(rows);
    if is_past(most, sorted.len()) {
        return Ok(GivenRows::Over { rows: sorted });
    }
    Ok(GivenRows::Whole { rows: sorted })
}

/// The statement at a place of the list.
fn place_at<'a>(places: &[PlaceAt<'a>], place: usize) -> PlaceAt<'a>
    requires { place < length places.now }
    ensures { slice_get places.now place ≡ Some result }
{
    places[place]
}

/// Appends what a statement gives, which is all that is reached at its point.
fn push_place(
    alloc: Global,
    of: &KnownEntry<'_>,
    at: &PlaceAt<'_>,
    summary: &Summary,
    rows: &mut Seq<GivenAt>,
) -> Result<(), Memory>
    requires alone { AreReachedAmong of.now.exchange.now (KnowsAt of.now.known.now at.now.point)
        of.now.entry (map seen (at.now ∷ [])) }
    requires numbers { AreNumbers of.now.exchange.now of.now.numbers.now }
    ensures { OnOk result (Adds rows.old rows.new
        (GivesAt of.now.exchange.now (Knows of.now.known.now) of.now.entry summary.now at.now)) }
{
    let mut only = Seq::new(alloc);
    only.push(*at)?;
    let places = only.as_slice();
    let here = AtPoint {
        known: of.known,
        point: at.point,
    };
    let all = summary.accesses.as_slice();
    let accesses = accesses_at(alloc, of, places, &here)?;
    let given = accesses.as_slice();
    push_accesses(all, given, at.point, rows)?;
    let levels = summary.levels.as_slice();
    let sent = levels_of(alloc, of.exchange, places, &here, of.entry)?;
    let listed = sent.as_slice();
    push_levels(all, levels, listed, at.point, rows)?;
    Ok(())
}

/// The accesses of the statements at these places, however many they are.
fn accesses_at<K: KnownFacts>(
    alloc: Global,
    of: &KnownEntry<'_>,
    places: &[PlaceAt<'_>],
    known: &K,
) -> Result<Seq<Access>, Memory>
    requires places { AreReachedAmong of.now.exchange.now (K.knows known.now) of.now.entry
        (map seen places.now) }
    requires numbers { AreNumbers of.now.exchange.now of.now.numbers.now }
    ensures { IfOk result
        (AreAccesses of.now.exchange.now (K.knows known.now) of.now.entry) }
{
    let listed = accesses_within(
        alloc,
        of.exchange,
        of.numbers,
        places,
        known,
        of.entry,
        None,
    )?;
    match listed {
        Listed::Whole { accesses, .. } => Ok(accesses),
        Listed::Over { .. } => unreachable!(),
    }
}

/// Appends a row for each of these accesses that is among all, which are in order.
fn push_accesses(
    all: &[Access],
    accesses: &[Access],
    point: u32,
    rows: &mut Seq<GivenAt>,
) -> Result<(), Memory>
    requires { IsStrictlySortedBy access_order all.now }
    ensures { OnOk result
        (Adds rows.old rows.new (GivenBy (AccessAt all.now point) accesses.now)) }
{
    for place in 0..accesses.len() {
        push_access(all, at(accesses, place), point, rows)?;
    }
    Ok(())
}

#[tactic(auto, using(crate::proofs::Pointed::access_missing, crate::proofs::Pointed::access_pushed))]
fn push_access(
    all: &[Access],
    access: Access,
    point: u32,
    rows: &mut Seq<GivenAt>,
) -> Result<(), Memory>
    requires { IsStrictlySortedBy access_order all.now }
    ensures { OnOk result ((place : ℕ) → Adds rows.old rows.new
        (AccessAt all.now point place access)) }
{
    let Some(number) = place_of(all, access) else {
        return Ok(());
    };
    rows.push(GivenAt { number, point })
}

/// Appends a row for each level that is among those to which a statement sends. Levels are numbered
/// behind these accesses.
fn push_levels(
    all: &[Access],
    levels: &[Level],
    sent: &[Level],
    point: u32,
    rows: &mut Seq<GivenAt>,
) -> Result<(), Memory>
    ensures { OnOk result
        (Adds rows.old rows.new (GivenBy (LevelAt (length all.now) sent.now point) levels.now)) }
{
    for place in 0..levels.len() {
        push_level(
            all.len() + place,
            level_at(levels, place),
            sent,
            point,
            rows,
        )?;
    }
    Ok(())
}

/// Appends a row of a level with this number, if it is among those that are sent to.
#[tactic(auto, using(crate::proofs::Pointed::level_missing, crate::proofs::Pointed::level_pushed))]
fn push_level(
    number: usize,
    level: Level,
    sent: &[Level],
    point: u32,
    rows: &mut Seq<GivenAt>,
) -> Result<(), Memory>
    ensures { OnOk result ((count place : ℕ) → number ≡ count + place
        → Adds rows.old rows.new (LevelAt count sent.now point place level)) }
{
    if is_sent_to(sent, level) {
        return rows.push(GivenAt { number, point });
    }
    Ok(())
}

fn is_sent_to(sent: &[Level], level: Level) -> bool
    ensures { result ≡ is_sent sent.now level }
{
    sent.contains(&level)
}

/// The same rows; where they are more than may be found, in order, each once.
#[tactic(auto, using(crate::proofs::Bounded::few_rise))]
fn few_or_in_order(rows: Seq<GivenAt>, most: Option<usize>) -> Seq<GivenAt>
    ensures same { (r : RowType) → Contains result r ↔ Contains rows r }
    ensures rising { is_past_bound most (length result) ≡ true
        → IsStrictlySortedBy given_order result }
{
    if is_past(most, rows.len()) {
        return in_order(rows);
    }
    rows
}

/// The same rows in order, each once.
fn in_order(rows: Seq<GivenAt>) -> Seq<GivenAt>
    ensures same { (r : RowType) → Contains result r ↔ Contains rows r }
    ensures rising { IsStrictlySortedBy given_order result }
{
    let mut sorted = rows.into_vec();
    sorted.sort_unstable();
    sorted.dedup();
    Seq::from_vec(sorted)
}
