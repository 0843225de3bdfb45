// The words of each access of a summary, told as spans.
ghost use Rattle.std.specs.Prelude.{◌≡◌, ◌↔◌, ◌+◌, ◌*◌, ◌<◌, ◌^◌, ℕ, true, false, IfOk, OnOk};
ghost use Rattle.std.specs.Prelude.{IsTrue, MatchOption, None, slice_get};
ghost use Rattle.exchange_model.specs.declared.exchange.Exchange as declared;
ghost use Rattle.job_types.specs.Forlopps.{ChainMap, all_records};
ghost use Rattle.source_meaning.specs.Config.{files_of};
ghost use Rattle.store_layout.specs.Laid.{IsLayout};
ghost use Rattle.start_permit.specs.Granted.{AreGrounds, Does, HasWord, IsOfField, IsOfMark};
ghost use Rattle.start_permit.specs.Granted.{IsCellTable, IsVariableWord, Lets, Marks, MayHold};
ghost use Rattle.start_permit.specs.Granted.{OneOf, Selects};
ghost use Rattle.start_permit.specs.Recorded.{AreBelow, Gains, InRow, IsBelow, IsRowOf, RowFits};
ghost use Rattle.start_permit.specs.Recorded.{spanned};

use crate::runs::{Run, all_below, free_runs, own_runs, selected};
use crate::table::CellTable;
use entry_summary::Access;
use exchange_model::Exchange;
use flow_points::Value;
use job_types::{Held, JobStart};
use machine_code::Span;
use plex_num::{Memory, Seq};
use std::alloc::Global;
use store_layout::{FileRow, Layout, file_of};

/// What the words of a start are told from.
#[derive(Clone, Copy)]
pub struct Grounds<'a> {
    pub exchange: &'a Exchange,
    pub layout: &'a Layout,
    pub table: &'a CellTable,
    /// What the jobs of its entry may do.
    pub all: &'a [Access],
    /// The records that stand in the chains of all forlopps.
    pub held: &'a [Held],
    pub start: &'a JobStart,
}

/// The words at a place of the records of a run.
fn span_of(row: FileRow, place: u32, run: Run) -> Span
    requires { row.first + run.first * row.stride + place < 2 ^ 32 }
    ensures { result ≡ record {
      first = row.first + run.first * row.stride + place;
      count = run.count;
      stride = row.stride;
    } }
{
    Span {
        first: row.first + run.first * row.stride + place,
        count: run.count,
        stride: row.stride,
    }
}

/// Appends the words at a place of the records of a run.
#[tactic(auto, using(crate::proofs::Gaining::no_run, crate::proofs::Gaining::run_gained, crate::proofs::Gaining::run_fits))]
fn push_run(row: FileRow, place: u32, run: Run, spans: &mut Seq<Span>) -> Result<(), Memory>
    requires fits { RowFits row place }
    requires below { IsBelow row.size run }
    ensures { OnOk result (Gains (InRow row place run) spans.old spans.new) }
{
    if run.count == 0 {
        return Ok(());
    }
    spans.push(span_of(row, place, run))?;
    Ok(())
}

/// Appends the words at a place of the records of these runs.
#[tactic(auto, using(crate::proofs::Gaining::go_begin, crate::proofs::Gaining::go_end))]
fn push_runs(row: FileRow, place: u32, runs: &[Run], spans: &mut Seq<Span>) -> Result<(), Memory>
    requires fits { RowFits row place }
    requires below { AreBelow row.size runs.now }
    ensures { OnOk result (Gains (OneOf (InRow row place) runs.now) spans.old spans.new) }
{
    for run in runs {
        push_run(row, place, *run, spans)?;
    }
    Ok(())
}

/// The row of a file.
fn row_of(exchange: &Exchange, layout: &Layout, file: u32) -> Option<FileRow>
    requires { IsLayout exchange.now.blocks layout.now }
    ensures { MatchOption result
        (slice_get (files_of exchange.now) file ≡ None)
        (λ row. IsRowOf exchange.now file row) }
{
    let _ = exchange;
    file_of(layout, file)
}

/// Appends the word of a variable.
fn push_variable(
    exchange: &Exchange,
    table: &CellTable,
    number: u32,
    spans: &mut Seq<Span>,
) -> Result<(), Memory>
    requires { IsCellTable exchange.now table.now }
    ensures { OnOk result (Gains (IsVariableWord exchange.now number) spans.old spans.new) }
{
    let _ = exchange;
    let Some(word) = table.variable(number) else {
        return Ok(());
    };
    spans.push(Span {
        first: word,
        count: 1,
        stride: 1,
    })?;
    Ok(())
}

/// Appends the words of a field in the records that a selector tells.
fn push_selected(
    exchange: &Exchange,
    layout: &Layout,
    table: &CellTable,
    values: &[u32],
    number: u32,
    selector: Value,
    spans: &mut Seq<Span>,
) -> Result<(), Memory>
    requires layout { IsLayout exchange.now.blocks layout.now }
    requires table { IsCellTable exchange.now table.now }
    ensures { OnOk result (Gains
        (IsOfField exchange.now number (λ file. Selects values.now selector))
        spans.old spans.new) }
{
    let Some(at) = table.field(number) else {
        return Ok(());
    };
    let Some(row) = row_of(exchange, layout, at.file) else {
        return Ok(());
    };
    let run = selected(selector, values, row.size);
    push_run(row, at.field, run, spans)?;
    Ok(())
}

/// Appends the words of a field in the records that a job may hold.
fn push_own(
    alloc: Global,
    exchange: &Exchange,
    layout: &Layout,
    table: &CellTable,
    accesses: &[Access],
    chain: &[Held],
    held: &[Held],
    number: u32,
    spans: &mut Seq<Span>,
) -> Result<(), Memory>
    requires layout { IsLayout exchange.now.blocks layout.now }
    requires table { IsCellTable exchange.now table.now }
    ensures { OnOk result ((chains : ChainMap) → held.now ≡ all_records chains → Gains
        (IsOfField exchange.now number (MayHold accesses.now chain.now chains))
        spans.old spans.new) }
{
    let Some(at) = table.field(number) else {
        return Ok(());
    };
    let Some(row) = row_of(exchange, layout, at.file) else {
        return Ok(());
    };
    let runs = own_runs(alloc, accesses, chain, held, at.file, row.size)?;
    push_runs(row, at.field, runs.as_slice(), spans)?;
    Ok(())
}

/// Appends the words of the marks of the records that a job may hold.
fn push_freed(
    alloc: Global,
    exchange: &Exchange,
    layout: &Layout,
    accesses: &[Access],
    chain: &[Held],
    held: &[Held],
    file: u32,
    spans: &mut Seq<Span>,
) -> Result<(), Memory>
    requires { IsLayout exchange.now.blocks layout.now }
    ensures { OnOk result ((chains : ChainMap) → held.now ≡ all_records chains → Gains
        (IsOfMark exchange.now file (MayHold accesses.now chain.now chains file))
        spans.old spans.new) }
{
    let Some(row) = row_of(exchange, layout, file) else {
        return Ok(());
    };
    let runs = own_runs(alloc, accesses, chain, held, file, row.size)?;
    push_runs(row, row.fields, runs.as_slice(), spans)?;
    Ok(())
}

/// Appends the words of the marks of all free records of a file.
fn push_free(
    alloc: Global,
    exchange: &Exchange,
    layout: &Layout,
    held: &[Held],
    file: u32,
    spans: &mut Seq<Span>,
) -> Result<(), Memory>
    requires { IsLayout exchange.now.blocks layout.now }
    ensures { OnOk result ((chains : ChainMap) → held.now ≡ all_records chains → Gains
        (IsOfMark exchange.now file (Marks true chains file)) spans.old spans.new) }
{
    let Some(row) = row_of(exchange, layout, file) else {
        return Ok(());
    };
    let runs = free_runs(alloc, held, file, row.size)?;
    push_runs(row, row.fields, runs.as_slice(), spans)?;
    Ok(())
}

/// Appends the words of all marks of a file.
fn push_marks(
    exchange: &Exchange,
    layout: &Layout,
    file: u32,
    spans: &mut Seq<Span>,
) -> Result<(), Memory>
    requires { IsLayout exchange.now.blocks layout.now }
    ensures { OnOk result ((chains : ChainMap) → Gains
        (IsOfMark exchange.now file (Marks false chains file)) spans.old spans.new) }
{
    let Some(row) = row_of(exchange, layout, file) else {
        return Ok(());
    };
    push_run(row, row.fields, all_below(row.size), spans)?;
    Ok(())
}

/// Appends the words of the marks that a SEIZE writes, or reads.
fn push_seized(
    alloc: Global,
    exchange: &Exchange,
    layout: &Layout,
    held: &[Held],
    write: bool,
    file: u32,
    spans: &mut Seq<Span>,
) -> Result<(), Memory>
    requires { IsLayout exchange.now.blocks layout.now }
    ensures { OnOk result ((chains : ChainMap) → held.now ≡ all_records chains → Gains
        (IsOfMark exchange.now file (Marks write chains file)) spans.old spans.new) }
{
    if write {
        push_free(alloc, exchange, layout, held, file, spans)?;
    } else {
        push_marks(exchange, layout, file, spans)?;
    }
    Ok(())
}

/// Whether an access writes, or reads.
fn does(write: bool, access: Access) -> bool
    ensures { IsTrue result ↔ Does write access }
{
    match access {
        Access::Variable { write: writes, .. } => writes == write,
        Access::Field { write: writes, .. } => writes == write,
        Access::Own { write: writes, .. } => writes == write,
        Access::Seizes { .. } => true,
        Access::Frees { .. } => write,
    }
}

/// Appends the words that an access, one of all these, writes, or reads.
fn push_words(
    alloc: Global,
    by: &Grounds<'_>,
    write: bool,
    access: Access,
    spans: &mut Seq<Span>,
) -> Result<(), Memory>
    requires { AreGrounds by.now }
    ensures { OnOk result ((chains : ChainMap) → by.now.held.now ≡ all_records chains
        → Gains (HasWord by.now.exchange.now by.now.all.now by.now.start.now chains write access)
        spans.old spans.new) }
{
    let exchange = by.exchange;
    let layout = by.layout;
    let table = by.table;
    let all = by.all;
    let held = by.held;
    let chain = by.start.chain.as_slice();
    match access {
        Access::Variable { number, .. } => push_variable(exchange, table, number, spans)?,
        Access::Field {
            number,
            selector,
            ..
        } => {
            let values = by.start.job.values.as_slice();
            push_selected(exchange, layout, table, values, number, selector, spans)?
        }
        Access::Own { number, .. } => {
            push_own(
                alloc, exchange, layout, table, all, chain, held, number, spans,
            )?
        }
        Access::Seizes { file } => {
            push_seized(alloc, exchange, layout, held, write, file, spans)?
        }
        Access::Frees { file } => {
            push_freed(alloc, exchange, layout, all, chain, held, file, spans)?
        }
    }
    Ok(())
}

/// Appends the words that an access lets a job write, or read.
fn push_access(
    alloc: Global,
    by: &Grounds<'_>,
    write: bool,
    access: Access,
    spans: &mut Seq<Span>,
) -> Result<(), Memory>
    requires { AreGrounds by.now }
    ensures { OnOk result ((chains : ChainMap) → by.now.held.now ≡ all_records chains → Gains (Lets
        by.now.exchange.now by.now.all.now by.now.start.now chains write access)
        spans.old spans.new) }
{
    if !does(write, access) {
        return Ok(());
    }
    push_words(alloc, by, write, access, spans)?;
    Ok(())
}

/// The words that the accesses let a job write, or read.
pub fn words_of(alloc: Global, by: &Grounds<'_>, write: bool) -> Result<Seq<Span>, Memory>
    requires { AreGrounds by.now }
    ensures { IfOk result (λ spans. (chains : ChainMap) → by.now.held.now ≡ all_records chains →
        (word : ℕ) → IsTrue (spanned spans word)
        ↔ OneOf (Lets by.now.exchange.now by.now.all.now by.now.start.now chains write)
        by.now.all.now word) }
{
    let all = by.all;
    let mut spans = Seq::new(alloc);
    for access in all {
        push_access(alloc, by, write, *access, &mut spans)?;
    }
    Ok(spans)
}
