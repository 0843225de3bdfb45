// All that clashes of two summaries.
ghost use Rattle.std.specs.Prelude.{◌≡◌, ◌↔◌, ◌<◌, IfOk, OnOk};
ghost use Rattle.std.specs.List.{Contains};
ghost use Rattle.std.specs.List.Sorted.{IsStrictlySortedBy};
ghost use Rattle.entry_summary.specs.Orders.{access_order};
ghost use Rattle.entry_accesses.specs.Adding.{Adds};
ghost use Rattle.conflicts_meaning.specs.declared.rows.ClashRow.{ClashRow as RowType};
ghost use Rattle.conflicts_meaning.specs.Rows.{AreClashRows, row_order};
ghost use Rattle.conflict_rows.specs.Items.{GivenBy};
ghost use Rattle.conflict_rows.specs.Near.{ClashesFirst, ClashesLater, IsOfFirst, IsOfLater};
ghost use Rattle.conflict_rows.specs.Near.{IsOfLevel, IsOfLevelAt, NearFirst, NearLater};

use crate::clash::{clash, listed};
use crate::near::selector_of;
use crate::places::{at, level_at, place_of};
use crate::skip::{first_field, next_near};
use conflicts_meaning::ClashRow;
use entry_summary::{Access, Summary};
use flow_points::Value;
use pair_tests::{Conflict, asks, near_access, number_of};
use plex_num::{Level, Memory, Seq};
use std::alloc::Global;

/// All that clashes of two summaries, the first before the later one in the single run: in order,
/// each pair of accesses and each level once. Memory is the only reason for an error.
pub fn clashes_of(alloc: Global, first: &Summary, later: &Summary) -> Result<Seq<ClashRow>, Memory>
    ensures { IfOk result (AreClashRows first.now later.now) }
{
    let ones = first.accesses.as_slice();
    let others = later.accesses.as_slice();
    let mut rows = Seq::new(alloc);
    push_of_first(ones, others, &mut rows)?;
    push_of_later(ones, others, &mut rows)?;
    push_of_levels(ones, first.levels.as_slice(), later.level, &mut rows)?;
    Ok(in_order(rows))
}

/// Appends what accesses of the first clash with that is found by them. Those that none of the
/// later is near are passed.
fn push_of_first(ones: &[Access], others: &[Access], rows: &mut Seq<ClashRow>) -> Result<(), Memory>
    requires ones { IsStrictlySortedBy access_order ones.now }
    requires others { IsStrictlySortedBy access_order others.now }
    ensures { OnOk result (Adds rows.old rows.new (GivenBy (IsOfFirst others.now) ones.now)) }
{
    let mut place = next_near(ones, others, 0);
    while place < ones.len() {
        push_with(place, at(ones, place), others, rows)?;
        place = next_near(ones, others, place + 1);
    }
    Ok(())
}

/// Appends what an access of the first clashes with: with those of its number that have any
/// selector, and with those that have its own.
fn push_with(
    place: usize,
    one: Access,
    others: &[Access],
    rows: &mut Seq<ClashRow>,
) -> Result<(), Memory>
    requires { IsStrictlySortedBy access_order others.now }
    ensures { OnOk result (Adds rows.old rows.new (IsOfFirst others.now place one)) }
{
    push_both(place, one, Value::Any, others, rows)?;
    if !asks(one) {
        return Ok(());
    }
    push_both(place, one, selector_of(one), others, rows)?;
    Ok(())
}

/// Appends what an access of the first clashes with of those of its number with this selector.
fn push_both(
    place: usize,
    one: Access,
    selector: Value,
    others: &[Access],
    rows: &mut Seq<ClashRow>,
) -> Result<(), Memory>
    requires { IsStrictlySortedBy access_order others.now }
    ensures { OnOk result (Adds rows.old rows.new (NearLater others.now selector place one)) }
{
    let reads = near_access(one, false, selector);
    push_later(place, one, reads, others, rows)?;
    let writes = near_access(one, true, selector);
    push_later(place, one, writes, others, rows)?;
    Ok(())
}

/// Appends that an access of the first clashes with this one, if it does and this one is there.
#[tactic(auto, using(crate::proofs::Pushed::later_apart, crate::proofs::Pushed::later_missing, crate::proofs::Pushed::later_pushed))]
fn push_later(
    place: usize,
    one: Access,
    other: Access,
    others: &[Access],
    rows: &mut Seq<ClashRow>,
) -> Result<(), Memory>
    requires { IsStrictlySortedBy access_order others.now }
    ensures { OnOk result (Adds rows.old rows.new (ClashesLater others.now other place one)) }
{
    let Some(clash) = clash(one, other) else {
        return Ok(());
    };
    let Some(later) = place_of(others, other) else {
        return Ok(());
    };
    rows.push(ClashRow {
        clash,
        first: place,
        later,
    })
}

/// Appends what fields of the later clash with of those that the first accesses in any record.
/// Accesses of the later that none of the first is near are passed.
fn push_of_later(ones: &[Access], others: &[Access], rows: &mut Seq<ClashRow>) -> Result<(), Memory>
    requires ones { IsStrictlySortedBy access_order ones.now }
    requires others { IsStrictlySortedBy access_order others.now }
    ensures { OnOk result (Adds rows.old rows.new (GivenBy (IsOfLater ones.now) others.now)) }
{
    let mut place = next_near(others, ones, first_field(others));
    while place < others.len() {
        push_field(place, at(others, place), ones, rows)?;
        place = next_near(others, ones, place + 1);
    }
    Ok(())
}

/// Appends what an access of the later clashes with so, if it is of a field.
#[tactic(auto, using(crate::proofs::Pushed::no_field, crate::proofs::Pushed::of_field))]
fn push_field(
    place: usize,
    other: Access,
    ones: &[Access],
    rows: &mut Seq<ClashRow>,
) -> Result<(), Memory>
    requires { IsStrictlySortedBy access_order ones.now }
    ensures { OnOk result (Adds rows.old rows.new (IsOfLater ones.now place other)) }
{
    if !asks(other) {
        return Ok(());
    }
    push_any(place, other, ones, rows)?;
    Ok(())
}

fn push_any(
    place: usize,
    other: Access,
    ones: &[Access],
    rows: &mut Seq<ClashRow>,
) -> Result<(), Memory>
    requires { IsStrictlySortedBy access_order ones.now }
    ensures { OnOk result (Adds rows.old rows.new (NearFirst ones.now place other)) }
{
    let reads = near_access(other, false, Value::Any);
    push_first(place, other, reads, ones, rows)?;
    let writes = near_access(other, true, Value::Any);
    push_first(place, other, writes, ones, rows)?;
    Ok(())
}

/// Appends that this access of the first clashes with one of the later, if it does and is there.
#[tactic(auto, using(crate::proofs::Pushed::first_apart, crate::proofs::Pushed::first_missing, crate::proofs::Pushed::first_pushed))]
fn push_first(
    place: usize,
    other: Access,
    one: Access,
    ones: &[Access],
    rows: &mut Seq<ClashRow>,
) -> Result<(), Memory>
    requires { IsStrictlySortedBy access_order ones.now }
    ensures { OnOk result (Adds rows.old rows.new (ClashesFirst ones.now one place other)) }
{
    let Some(clash) = clash(one, other) else {
        return Ok(());
    };
    let Some(first) = place_of(ones, one) else {
        return Ok(());
    };
    rows.push(ClashRow {
        clash,
        first,
        later: place,
    })
}

/// Appends the levels to which the first may send that are above the level of the later. They are
/// numbered behind the accesses.
fn push_of_levels(
    ones: &[Access],
    levels: &[Level],
    later: Level,
    rows: &mut Seq<ClashRow>,
) -> Result<(), Memory>
    ensures { OnOk result
        (Adds rows.old rows.new (GivenBy (IsOfLevel ones.now later) levels.now)) }
{
    for place in 0..levels.len() {
        push_level(ones.len() + place, level_at(levels, place), later, rows)?;
    }
    Ok(())
}

/// Appends a level, which has this number, if it is above that of the later.
#[tactic(auto, using(crate::proofs::Pushed::level_below, crate::proofs::Pushed::level_pushed))]
fn push_level(
    number: usize,
    level: Level,
    later: Level,
    rows: &mut Seq<ClashRow>,
) -> Result<(), Memory>
    ensures { OnOk result (Adds rows.old rows.new (IsOfLevelAt later number level)) }
{
    if number_of(level) < number_of(later) {
        return rows.push(ClashRow {
            clash: listed(Conflict::Above { level }),
            first: number,
            later: 0,
        });
    }
    Ok(())
}

/// The same rows in order, each once.
fn in_order(rows: Seq<ClashRow>) -> Seq<ClashRow>
    ensures same { (r : RowType) → Contains result r ↔ Contains rows r }
    ensures rising { IsStrictlySortedBy row_order result }
{
    let mut sorted = rows.into_vec();
    sorted.sort_unstable();
    sorted.dedup();
    Seq::from_vec(sorted)
}
