// The search for what follows from nothing.
ghost use Rattle.std.specs.Prelude.{◌≡◌, ◌∷◌, ℕ, Some, IfOk, OnOk};
ghost use Rattle.std.specs.List.{Contains};
ghost use Rattle.flow_points.specs.declared.fact.Fact.{Fact as FactType};
ghost use Rattle.flow_points.specs.Places.{IsRetrieveAt};
ghost use Rattle.flow_points.specs.Slots.{answer_count};
ghost use Rattle.flow_table.specs.declared.way.Way.{Way as WayType};
ghost use Rattle.flow_table.specs.Ways.{IsWayEnd};
ghost use Rattle.fact_flows.specs.Flows.{FlowsTo, OneGives, WayGives};
ghost use Rattle.fact_rows.specs.Known.{Knows, slots_of};
ghost use Rattle.least_facts.specs.Giving.{IsOwnLeast};
ghost use Rattle.answer_table.specs.Answers.{IsFact, answer_way};
ghost use Rattle.least_facts.specs.Growing.{AreFound, HandedFrom, IsHandedBy, IsVisited, Searches};
ghost use Rattle.least_facts.specs.Growing.{WaySends, handing_of, search_of, without};
ghost use Rattle.least_facts.specs.Looks.{FindsWithin};
ghost use Rattle.least_facts.specs.Marks.{marks_of};
ghost use Rattle.least_facts.specs.Settings.{IsGoodIn, IsSetting, StandsIn, WentIn};

use crate::counting::over_by_now;
use crate::giving::{give_point, slot_count};
use crate::looks::Looked;
use crate::marks::{Change, Marked, first_of, is_noted, settle, take};
use crate::setting::Setting;
use answer_table::{AnswerTable, awaited_in, gives_answer};
use fact_flows::push_given_at_start;
use fact_rows::FactRows;
use flow_points::{Fact, Passing, Slot, Source};
use flow_table::{Ends, FlowTable, KnownFacts, Way, is_guarded};
use plex_num::{Memory, Seq};
use std::alloc::Global;

/// Finds the least facts of an entry, so that the rows know these and no others. Where there is a
/// bound, `most`, and more slots than that were looked at, it is `Over`, and the rows know some of
/// them; no more looks are told than there may be for these.
pub(crate) fn find(
    setting: &Setting<'_>,
    most: Option<usize>,
    rows: &mut FactRows,
) -> Result<Looked, Memory>
    requires setting { IsSetting setting.now }
    requires slots { rows.old.marks.slots ≡ slots_of setting.now.table.now }
    ensures found { IfOk result
        (FindsWithin (IsOwnLeast setting.now.exchange.now setting.now.entry) most
        (AreFound setting.now.exchange.now setting.now.table.now setting.now.entry rows.new)) }
    ensures slots { OnOk result (rows.new.marks.slots ≡ slots_of setting.now.table.now) }
{
    let exchange = setting.exchange;
    exchange.kept();
    rows.begin(setting.entry);
    let mut marked = Marked::new(setting.alloc, exchange.signals.len())?;
    let mut facts = Seq::new(setting.alloc);
    push_given_at_start(
        setting.alloc,
        exchange,
        setting.table,
        &*rows,
        setting.entry,
        &mut facts,
    )?;
    let begun = facts.as_slice();
    add_all(setting, begun, rows, &mut marked)?;
    let mut looks: usize = 0;
    let mut next: usize = 0;
    while let Some(point) = take(&mut marked) {
        if let Some(looks) = over_by_now(setting.alloc, &*rows, most, looks, &mut next)? {
            return Ok(Looked::Over { looks });
        }
        let more = visit(setting, point, rows, &mut marked)?;
        looks = looks.saturating_add(more);
    }
    Ok(Looked::Whole { looks })
}

/// Adds these facts, and marks where something new came to be known.
fn add_all(
    setting: &Setting<'_>,
    facts: &[Fact],
    rows: &mut FactRows,
    marked: &mut Marked,
) -> Result<(), Memory>
    requires setting { IsSetting setting.now }
    requires stands { StandsIn setting.now (search_of rows.old marked.old) }
    requires least { (f : FactType)
        → Contains facts.now f → IsOwnLeast setting.now.exchange.now setting.now.entry f }
    ensures { OnOk result (WentIn setting.now (Contains facts.now)
        (search_of rows.old marked.old) (search_of rows.new marked.new)) }
{
    for fact in facts {
        add(setting, *fact, rows, marked)?;
    }
    Ok(())
}

/// Adds a fact, and marks its point if it is new.
fn add(
    setting: &Setting<'_>,
    fact: Fact,
    rows: &mut FactRows,
    marked: &mut Marked,
) -> Result<(), Memory>
    requires setting { IsSetting setting.now }
    requires stands { StandsIn setting.now (search_of rows.old marked.old) }
    requires least { IsOwnLeast setting.now.exchange.now setting.now.entry fact }
    ensures { OnOk result (WentIn setting.now (IsFact fact)
        (search_of rows.old marked.old) (search_of rows.new marked.new)) }
{
    setting.exchange.kept();
    let noted = is_noted(setting, &*rows, fact.point);
    let grown = rows.add(fact)?;
    let change = Change {
        point: fact.point,
        grown,
        noted,
        late: false,
    };
    settle(setting, &*rows, change, marked)?;
    Ok(())
}

/// Sends on what stands before a point, which was marked; how many slots were looked at, and one
/// more.
fn visit(
    setting: &Setting<'_>,
    point: u32,
    rows: &mut FactRows,
    marked: &mut Marked,
) -> Result<usize, Memory>
    requires setting { IsSetting setting.now }
    requires searches { Searches setting.now.exchange.now setting.now.table.now setting.now.entry
        (without (search_of rows.old marked.old) (point ∷ marks_of marked.old)) }
    ensures { OnOk result (IsVisited setting.now.exchange.now setting.now.table.now
        setting.now.answers.now setting.now.entry
        (search_of rows.old marked.old) (search_of rows.new marked.new)) }
{
    setting.exchange.kept();
    if !rows.is_reached(setting.entry, point) {
        return Ok(1);
    }
    match setting.table.rows.get(point as usize) {
        Some(row) => {
            let ways = row.ways.as_slice();
            let sent = send_ways(setting, point, ways, rows, marked)?;
            let handed = hand_out(setting, point, row.answered, rows, marked)?;
            Ok(sent.saturating_add(handed).saturating_add(1))
        }
        None => Ok(1),
    }
}

/// Sends on what stands before a point that is reached on these ways; how many slots were looked
/// at.
fn send_ways(
    setting: &Setting<'_>,
    point: u32,
    ways: &[Way],
    rows: &mut FactRows,
    marked: &mut Marked,
) -> Result<usize, Memory>
    requires setting { IsSetting setting.now }
    requires stands { StandsIn setting.now (search_of rows.old marked.old) }
    requires good { (w : WayType) → Contains ways.now w → (q : ℕ)
        → IsWayEnd setting.now.exchange.now w.ends q → IsGoodIn setting.now point w.how q }
    ensures { OnOk result (WentIn setting.now
        (OneGives (WaySends setting.now.exchange.now marked.old.firsts.items (Knows rows.old)
        setting.now.entry point) ways.now)
        (search_of rows.old marked.old) (search_of rows.new marked.new)) }
{
    let mut looked: usize = 0;
    for way in ways {
        let more = send(setting, point, way, rows, marked)?;
        looked = looked.saturating_add(more);
    }
    Ok(looked)
}

/// Sends on what stands before a point that is reached on a way, an answer to the RETRIEVE of it
/// that was reached first; how many slots were looked at.
fn send(
    setting: &Setting<'_>,
    point: u32,
    way: &Way,
    rows: &mut FactRows,
    marked: &mut Marked,
) -> Result<usize, Memory>
    requires setting { IsSetting setting.now }
    requires stands { StandsIn setting.now (search_of rows.old marked.old) }
    requires good { (q : ℕ)
        → IsWayEnd setting.now.exchange.now way.now.ends q
        → IsGoodIn setting.now point way.now.how q }
    ensures { OnOk result (WentIn setting.now
        (WaySends setting.now.exchange.now marked.old.firsts.items (Knows rows.old)
        setting.now.entry point way.now)
        (search_of rows.old marked.old) (search_of rows.new marked.new)) }
{
    let how = &way.how;
    match &way.ends {
        Ends::Points(points) => {
            let ends = points.as_slice();
            let more = flow_all(setting, point, how, ends, rows, marked)?;
            Ok(more)
        }
        Ends::Retrieves(answer) => {
            let answer = *answer;
            if !gives_answer(how) {
                let all = flow_retrieves(setting, point, how, answer, rows, marked)?;
                return Ok(all);
            }
            let Some(first) = first_of(&marked.firsts, answer) else {
                return Ok(0);
            };
            let more = flow(setting, point, how, first, true, rows, marked)?;
            Ok(more)
        }
    }
}

/// Sends what stands before a point to all RETRIEVEs of an answer; how many slots were looked at.
fn flow_retrieves(
    setting: &Setting<'_>,
    point: u32,
    how: &Passing,
    answer: u32,
    rows: &mut FactRows,
    marked: &mut Marked,
) -> Result<usize, Memory>
    requires setting { IsSetting setting.now }
    requires stands { StandsIn setting.now (search_of rows.old marked.old) }
    requires good { (q : ℕ)
        → IsRetrieveAt setting.now.exchange.now q answer
        → IsGoodIn setting.now point how.now q }
    ensures { OnOk result (WentIn setting.now
        (WayGives setting.now.exchange.now (Knows rows.old) setting.now.entry point
        (answer_way how.now answer))
        (search_of rows.old marked.old) (search_of rows.new marked.new)) }
{
    setting.exchange.kept();
    match setting.table.retrieves.get(answer as usize) {
        Some(points) => {
            let ends = points.as_slice();
            let more = flow_all(setting, point, how, ends, rows, marked)?;
            Ok(more)
        }
        None => Ok(0),
    }
}

/// Sends what stands before a point to these other ones; how many slots were looked at.
fn flow_all(
    setting: &Setting<'_>,
    point: u32,
    how: &Passing,
    ends: &[u32],
    rows: &mut FactRows,
    marked: &mut Marked,
) -> Result<usize, Memory>
    requires setting { IsSetting setting.now }
    requires stands { StandsIn setting.now (search_of rows.old marked.old) }
    requires good { (q : ℕ)
        → Contains ends.now q → IsGoodIn setting.now point how.now q }
    ensures { OnOk result (WentIn setting.now
        (OneGives (FlowsTo setting.now.exchange.now (Knows rows.old)
        setting.now.entry point how.now) ends.now)
        (search_of rows.old marked.old) (search_of rows.new marked.new)) }
{
    let mut looked: usize = 0;
    for to in ends {
        let more = flow(setting, point, how, *to, false, rows, marked)?;
        looked = looked.saturating_add(more);
    }
    Ok(looked)
}

/// Sends what stands before a point to another one, and marks that where something is new, at the
/// end of all where it is late; how many slots were looked at, and one more.
fn flow(
    setting: &Setting<'_>,
    from: u32,
    how: &Passing,
    to: u32,
    late: bool,
    rows: &mut FactRows,
    marked: &mut Marked,
) -> Result<usize, Memory>
    requires setting { IsSetting setting.now }
    requires stands { StandsIn setting.now (search_of rows.old marked.old) }
    requires good { IsGoodIn setting.now from how.now to }
    ensures { OnOk result (WentIn setting.now
        (FlowsTo setting.now.exchange.now (Knows rows.old) setting.now.entry from how.now to)
        (search_of rows.old marked.old) (search_of rows.new marked.new)) }
{
    setting.exchange.kept();
    if !is_guarded(setting.alloc, &*rows, setting.entry, from, to, how)? {
        return Ok(1);
    }
    let noted = is_noted(setting, &*rows, to);
    let grown = give_point(setting, from, how, to, rows)?;
    let change = Change {
        point: to,
        grown,
        noted,
        late,
    };
    settle(setting, &*rows, change, marked)?;
    Ok(slots_before(setting.table, to).saturating_add(1))
}

/// How many slots stand before a point.
fn slots_before(table: &FlowTable, point: u32) -> usize {
    match table.rows.get(point as usize) {
        Some(row) => slot_count(row),
        None => 0,
    }
}

/// Hands out what has come to a RETRIEVE, where it is the first of its answer, which has so many
/// values, to the others that are reached; how many slots were looked at.
fn hand_out(
    setting: &Setting<'_>,
    point: u32,
    count: u8,
    rows: &mut FactRows,
    marked: &mut Marked,
) -> Result<usize, Memory>
    requires setting { IsSetting setting.now }
    requires stands { StandsIn setting.now (search_of rows.old marked.old) }
    requires count { (n : ℕ)
        → IsRetrieveAt setting.now.exchange.now point n
        → count ≡ answer_count setting.now.exchange.now (Some n) }
    ensures { OnOk result (WentIn setting.now
        (HandedFrom setting.now.exchange.now marked.old.firsts.items (Knows rows.old)
        setting.now.entry point)
        (search_of rows.old marked.old) (search_of rows.new marked.new)) }
{
    setting.exchange.kept();
    let Some(answer) = handed_by(setting.answers, &marked.firsts, point) else {
        return Ok(0);
    };
    let values = handing(setting.alloc, count)?;
    let how = Passing::Answers { values };
    let handed = flow_retrieves(setting, point, &how, answer, rows, marked)?;
    Ok(handed)
}

/// The answer of which the statement at a point is the first RETRIEVE.
fn handed_by(answers: &AnswerTable, firsts: &[Option<u32>], point: u32) -> Option<u32>
    ensures { IsHandedBy answers.now firsts.now point result }
{
    let Some(answer) = awaited_in(answers, point) else {
        return None;
    };
    match first_of(firsts, answer) {
        Some(first) => { if first == point { Some(answer) } else { None } }
        None => None,
    }
}

/// The values of an answer as they stand before a RETRIEVE of it.
fn handing(alloc: Global, count: u8) -> Result<Seq<Source>, Memory>
    ensures { IfOk result (λ values. values ≡ handing_of count) }
{
    let mut values = Seq::new(alloc);
    for k in 0..count {
        values.push(Source::Of(Slot::Answered(k)))?;
    }
    Ok(values)
}
