// The lines of a signal file and the signals of a table, as one list.
ghost use Rattle.std.specs.Prelude.{◌≡◌, ◌+◌, ◌*◌, ◌<◌, ◌^◌, ◌++◌, IfOk, OnOk, length};
ghost use Rattle.std.specs.Prelude.{if◌then◌else◌};
ghost use Rattle.std.specs.List.{AllByRecursion};
ghost use Rattle.signal_file.specs.declared.line.LineKind.TheVariants.{Fresh, Bare};
ghost use Rattle.job_table.specs.Merged.{IsInRange, all_lines, by_count, line_at, line_count};
ghost use Rattle.job_table.specs.Merged.{lines_of, merged, numbered, renamed, renumbered};
ghost use Rattle.job_table.specs.Places.{ArePlaces, noted};

use crate::period::Period;
use crate::places::{Places, places_of};
use plex_num::{Memory, Seq};
use signal_file::{Line, LineKind};
use std::alloc::Global;

/// The lines of a signal file, and behind them the signals of each period in turn, ordered by
/// count, equal counts as they stand. They are numbered from 1, and a line that takes the forlopp
/// of another names it by its new number. The last count of each period is below 2^32, and so is
/// the number of all lines.
#[tactic(auto, using(crate::proofs::Turns::lines_merged))]
pub fn merge(alloc: Global, lines: &Seq<Line>, periods: &Seq<Period>) -> Result<Seq<Line>, Memory>
    requires ranges { AllByRecursion IsInRange periods.now }
    requires few { line_count lines.now periods.now < 2 ^ 32 }
    ensures { IfOk result (λ list. list ≡ merged lines.now periods.now) }
{
    let all = all_lines(alloc, lines.as_slice(), periods.as_slice())?;
    let sorted = by_count(all)?;
    let places = places_of(alloc, sorted.as_slice())?;
    numbered(alloc, sorted.as_slice(), &places)
}

/// All lines, before they are ordered.
#[tactic(auto, using(crate::proofs::Turns::all_listed))]
fn all_lines(alloc: Global, lines: &[Line], periods: &[Period]) -> Result<Seq<Line>, Memory>
    requires { AllByRecursion IsInRange periods.now }
    ensures { IfOk result (λ all. all ≡ all_lines lines.now periods.now) }
{
    let mut all = copies(alloc, lines)?;
    for period in periods {
        push_period(&mut all, period)?;
    }
    Ok(all)
}

/// The same lines.
fn copies(alloc: Global, lines: &[Line]) -> Result<Seq<Line>, Memory>
    ensures { IfOk result (λ all. all ≡ lines.now) }
{
    let mut all = Seq::new(alloc);
    for line in lines {
        all.push(copy(line))?;
    }
    Ok(all)
}

fn copy(line: &Line) -> Line
    ensures { result ≡ line.now }
{
    Line {
        number: line.number,
        after: line.after,
        entry: line.entry,
        values: line.values.copy(),
        kind: line.kind,
    }
}

/// Appends the signals of a period.
#[tactic(auto, using(crate::proofs::Turns::period_pushed))]
fn push_period(all: &mut Seq<Line>, period: &Period) -> Result<(), Memory>
    requires { IsInRange period.now }
    ensures { OnOk result (all.new ≡ all.old ++ lines_of period.now) }
{
    for turn in 0..period.times {
        all.push(line_at(period, turn))?;
    }
    Ok(())
}

/// One signal of a period, by its turn from 0.
fn line_at(period: &Period, turn: u32) -> Line
    requires { period.now.from + period.now.every * turn < 2 ^ 32 }
    ensures { result ≡ line_at period.now turn }
{
    Line {
        number: 0,
        after: period.from + period.every * turn,
        entry: period.entry,
        values: period.values.copy(),
        kind: kind_of(period.fresh),
    }
}

fn kind_of(fresh: bool) -> LineKind
    ensures { result ≡ (if fresh then Fresh else Bare) }
{
    if fresh {
        LineKind::Fresh
    } else {
        LineKind::Bare
    }
}

/// The lines, ordered by count, equal counts as they stand.
fn by_count(lines: Seq<Line>) -> Result<Seq<Line>, Memory>
    ensures { IfOk result (λ list. list ≡ by_count lines) }
{
    let mut items = lines.into_vec();
    match items.sort_by_key(|line| line.after) {
        Ok(()) => Ok(Seq::from_vec(items)),
        Err(_) => Err(Memory),
    }
}

/// The lines, numbered from 1. These are the places at which they stand.
#[tactic(auto, using(crate::proofs::Numbering::lines_numbered))]
fn numbered(alloc: Global, lines: &[Line], places: &Places) -> Result<Seq<Line>, Memory>
    requires places { ArePlaces places.now lines.now }
    requires few { length lines.now < 2 ^ 32 }
    ensures { IfOk result (λ list. list ≡ numbered lines.now) }
{
    let mut list = Seq::new(alloc);
    for (place, line) in lines.iter().enumerate() {
        list.push(renumbered(places, place as u32 + 1, line))?;
    }
    Ok(list)
}

/// A line with its new number, and that of the line that it names.
fn renumbered(places: &Places, number: u32, line: &Line) -> Line
    ensures { result ≡ renumbered (noted places.now) number line.now }
{
    Line {
        number,
        after: line.after,
        entry: line.entry,
        values: line.values.copy(),
        kind: renamed(places, line.kind),
    }
}

fn renamed(places: &Places, kind: LineKind) -> LineKind
    ensures { result ≡ renamed (noted places.now) kind }
{
    match kind {
        LineKind::Fresh => LineKind::Fresh,
        LineKind::Bare => LineKind::Bare,
        LineKind::Same { line } => LineKind::Same {
            line: places.number(line).unwrap_or(0),
        },
    }
}
