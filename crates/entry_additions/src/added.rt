// The variables and fields that an entry's jobs only add to.
ghost use Rattle.std.specs.Prelude.{◌≡◌, ◌<◌, ℕ, Some, length, map, option_and_then, slice_get};
ghost use Rattle.std.specs.Prelude.{IfOk, OnOk};
ghost use Rattle.std.specs.List.Sorted.{IsStrictlySortedBy};
ghost use Rattle.std.specs.Ordering.{nat_cmp};
ghost use Rattle.flow_table.specs.Texts.{ArePlaces, seen};
ghost use Rattle.fact_rows.specs.Known.{Knows};
ghost use Rattle.fact_rows.specs.Numbers.{AreNumbers as AreThese};
ghost use Rattle.entry_summary.specs.Summaries.{IsSummary};
ghost use Rattle.entry_accesses.specs.Adding.{Adds};
ghost use Rattle.entry_accesses.specs.Numbered.{AreNumbers};
ghost use Rattle.conflict_rows.specs.Items.{GivenBy};
ghost use Rattle.entry_additions.specs.Added.{AddsExactly};
ghost use Rattle.entry_additions.specs.Cells.{number_in as number_in_access};
ghost use Rattle.entry_additions.specs.Others.{IsAlone, IsOnlyAdded, IsOther, IsOtherAt};

use crate::addition::adds_to;
use crate::cells::{CellKind, cells_in, listed_by, number_in};
use crate::numbers::{in_order, is_among};
use conflict_rows::{KnownEntry, given_in};
use conflicts_meaning::GivenAt;
use entry_accesses::CellNumbers;
use entry_summary::{Access, Summary};
use exchange_model::Exchange;
use flow_table::{PlaceAt, reached_places};
use plex_num::{Memory, Seq};
use std::alloc::Global;

/// What an entry's jobs only add to: variables, and fields of plain files in any record, each by
/// its number in the exchange. Both lists are strictly ascending.
#[derive(Drop)]
pub struct Added {
    pub variables: Seq<u32>,
    pub fields: Seq<u32>,
}

/// The variables and the fields of plain files that an entry's jobs only add to. `summary` is that
/// of the entry by the known facts; `places` are those of the exchange. The only error is out of
/// memory.
pub fn added_of(
    alloc: Global,
    of: &KnownEntry<'_>,
    places: &[PlaceAt<'_>],
    summary: &Summary,
) -> Result<Added, Memory>
    requires places { ArePlaces of.now.exchange.now (map seen places.now) }
    requires numbers { AreNumbers of.now.exchange.now of.now.numbers.now }
    requires summary { IsSummary of.now.exchange.now (Knows of.now.known.now) of.now.entry
        summary.now }
    ensures { IfOk result
        (AddsExactly of.now.exchange.now (Knows of.now.known.now) of.now.entry) }
{
    let there = reached_places(alloc, places, of.known, of.entry)?;
    let cells = cells_in(alloc, summary)?;
    let reached = there.as_slice();
    let rows = given_in(alloc, of, reached, &cells)?;
    let accesses = cells.accesses.as_slice();
    let given = rows.as_slice();
    let kind = CellKind::Variable;
    let variables = added_in(
        alloc,
        of.exchange,
        of.numbers,
        places,
        accesses,
        given,
        kind,
    )?;
    let kind = CellKind::Field;
    let fields = added_in(
        alloc,
        of.exchange,
        of.numbers,
        places,
        accesses,
        given,
        kind,
    )?;
    Ok(Added { variables, fields })
}

/// The variables that these accesses write, or the fields that they concern, without those that
/// some row shows in another use.
fn added_in(
    alloc: Global,
    exchange: &Exchange,
    numbers: &CellNumbers,
    places: &[PlaceAt<'_>],
    accesses: &[Access],
    rows: &[GivenAt],
    kind: CellKind,
) -> Result<Seq<u32>, Memory>
    requires places { ArePlaces exchange.now (map seen places.now) }
    requires numbers { AreNumbers exchange.now numbers.now }
    ensures { IfOk result
        (AreThese (IsOnlyAdded exchange.now (map seen places.now) accesses.now rows.now kind)) }
{
    let mut found = Seq::new(alloc);
    push_others(exchange, numbers, places, accesses, rows, kind, &mut found)?;
    let others = in_order(found);
    let mut added = Seq::new(alloc);
    push_alone(accesses, others.as_slice(), kind, &mut added)?;
    Ok(in_order(added))
}

/// Appends for each row its variable or field, if the statement at the row's point does not add to
/// it.
fn push_others(
    exchange: &Exchange,
    numbers: &CellNumbers,
    places: &[PlaceAt<'_>],
    accesses: &[Access],
    rows: &[GivenAt],
    kind: CellKind,
    others: &mut Seq<u32>,
) -> Result<(), Memory>
    requires places { ArePlaces exchange.now (map seen places.now) }
    requires numbers { AreNumbers exchange.now numbers.now }
    ensures { OnOk result (Adds others.old others.new
        (GivenBy (IsOtherAt exchange.now (map seen places.now) accesses.now kind) rows.now)) }
{
    for place in 0..rows.len() {
        let row = row_at(rows, place);
        push_other(exchange, numbers, places, accesses, &row, kind, others)?;
    }
    Ok(())
}

/// The row at an index.
fn row_at(rows: &[GivenAt], place: usize) -> GivenAt
    requires { place < length rows.now }
    ensures { slice_get rows.now place ≡ Some result }
{
    rows[place]
}

#[tactic(auto, using(crate::proofs::Pushing::no_number, crate::proofs::Pushing::no_place))]
fn push_other(
    exchange: &Exchange,
    numbers: &CellNumbers,
    places: &[PlaceAt<'_>],
    accesses: &[Access],
    row: &GivenAt,
    kind: CellKind,
    others: &mut Seq<u32>,
) -> Result<(), Memory>
    requires places { ArePlaces exchange.now (map seen places.now) }
    requires numbers { AreNumbers exchange.now numbers.now }
    ensures { OnOk result (Adds others.old others.new
        (IsOther exchange.now (map seen places.now) accesses.now kind row.now)) }
{
    exchange.kept();
    let Some(number) = number_at(accesses, row.number, kind) else {
        return Ok(());
    };
    let Some(at) = place_at(places, row.point) else {
        return Ok(());
    };
    let adds = adds_to(exchange, numbers, at.block, at.kind, kind, number);
    if adds {
        return Ok(());
    }
    others.push(number)?;
    Ok(())
}

/// The variable or field of the access at an index, if there is one and it is of this kind.
fn number_at(accesses: &[Access], place: usize, kind: CellKind) -> Option<u32>
    ensures { result ≡ option_and_then (number_in_access kind) (slice_get accesses.now place) }
{
    match accesses.get(place) {
        Some(access) => number_in(kind, *access),
        None => None,
    }
}

/// The statement at a point, if there is one.
fn place_at<'a>(places: &[PlaceAt<'a>], point: u32) -> Option<PlaceAt<'a>>
    ensures { result ≡ slice_get places.now point }
{
    places.get(point as usize).copied()
}

/// Appends the numbers that these accesses list, without `others`, which are in order.
fn push_alone(
    accesses: &[Access],
    others: &[u32],
    kind: CellKind,
    added: &mut Seq<u32>,
) -> Result<(), Memory>
    requires { IsStrictlySortedBy nat_cmp others.now }
    ensures { OnOk result
        (Adds added.old added.new (GivenBy (IsAlone others.now kind) accesses.now)) }
{
    for place in 0..accesses.len() {
        let access = access_at(accesses, place);
        push_one(access, others, kind, added)?;
    }
    Ok(())
}

/// The access at an index.
fn access_at(accesses: &[Access], place: usize) -> Access
    requires { place < length accesses.now }
    ensures { slice_get accesses.now place ≡ Some result }
{
    accesses[place]
}

#[tactic(auto, using(crate::proofs::Pushing::not_listed, crate::proofs::Pushing::not_alone, crate::proofs::Pushing::alone_pushed))]
fn push_one(
    access: Access,
    others: &[u32],
    kind: CellKind,
    added: &mut Seq<u32>,
) -> Result<(), Memory>
    requires { IsStrictlySortedBy nat_cmp others.now }
    ensures { OnOk result ((place : ℕ)
        → Adds added.old added.new (IsAlone others.now kind place access)) }
{
    let Some(number) = listed_by(kind, access) else {
        return Ok(());
    };
    if is_among(others, number) {
        return Ok(());
    }
    added.push(number)
}
