// The ways from a statement.
ghost use Rattle.std.specs.Prelude.{◌≡◌, ◌∷◌, ◌++◌, [], map, max, min, slice_get, IfOk, OnOk, Some};
ghost use Rattle.std.specs.List.{AllByRecursion, list_any};
ghost use Rattle.exchange_model.specs.declared.stmt.StmtKind.{out-StmtKind};
ghost use Rattle.source_meaning.specs.Changes.{value_count};
ghost use Rattle.source_meaning.specs.Rests.{IsOfBlock};
ghost use Rattle.flow_points.specs.declared.fact.Value.TheVariants as value;
ghost use Rattle.flow_points.specs.declared.flow.Source.TheVariants as source;
ghost use Rattle.flow_points.specs.declared.flow.Passing.TheVariants as passing;
ghost use Rattle.flow_points.specs.Flows.{passed};
ghost use Rattle.flow_points.specs.Slots.{given_count};
ghost use Rattle.flow_points.specs.Sources.{expr_source};
ghost use Rattle.flow_table.specs.declared.way.Ends.TheVariants as ends;
ghost use Rattle.flow_table.specs.declared.way.Way.{Way};
ghost use Rattle.flow_table.specs.Alone.{IsExprIn};
ghost use Rattle.flow_table.specs.Ways.{bare_points, begun_points, choice_points};
ghost use Rattle.flow_table.specs.Ways.{is_bare as is_bare_choice, layer_ways, listed, most_of};
ghost use Rattle.flow_table.specs.Ways.{send_ways as ways_of_send, to_enters, to_next, to_points};

use crate::lookup::{label_point, push_enters, push_point};
use crate::points::Points;
use crate::source::source_of;
use crate::walk::first_of;
use crate::way::{Ends, Way};
use exchange_model::{Enter, Exchange, Expr, Receiver, SignalKind, StmtKind, When};
use flow_points::{Passing, Source, Value};
use plex_num::{Memory, Seq};
use std::alloc::Global;

/// The ways from a statement of a block, at its point and before its next.
pub fn ways_of(
    alloc: Global,
    exchange: &Exchange,
    kind: &StmtKind,
    block: u32,
    point: u32,
    next: Option<u32>,
) -> Result<Seq<Way>, Memory>
    requires { IsOfBlock exchange.now block (out-StmtKind kind.now) }
    ensures { IfOk result
        (λ ways. ways ≡ layer_ways exchange.now block point next (out-StmtKind kind.now)) }
{
    exchange.kept();
    match kind {
        StmtKind::Enter { temps, .. } => takes(alloc, temps, next),
        StmtKind::SetTemp { temp, value } => sets(alloc, *temp, value, next),
        StmtKind::SetVariable { .. } => one_way(alloc, Passing::Kept, next),
        StmtKind::SetField { .. } => one_way(alloc, Passing::Kept, next),
        StmtKind::Goto { label } => {
            one_way(alloc, Passing::Kept, label_point(exchange, block, *label))
        }
        StmtKind::IfGoto { label, .. } => {
            either(alloc, label_point(exchange, block, *label), next)
        }
        StmtKind::If { yes, no, .. } => {
            let first = first_of(yes.as_slice(), next);
            let other = first_of(no.as_slice(), next);
            either(alloc, first, other)
        }
        StmtKind::Case {
            whens,
            otherwise,
            ..
        } => {
            let other = first_of(otherwise.as_slice(), next);
            choices(alloc, whens.as_slice(), next, other)
        }
        StmtKind::On { temp, body, .. } => {
            let first = first_of(body.as_slice(), Some(point));
            sets_or_goes(alloc, *temp, first, next)
        }
        StmtKind::ForFirst { temp, label, .. } => {
            sets_or_goes(alloc, *temp, label_point(exchange, block, *label), next)
        }
        StmtKind::Send {
            signal,
            to,
            values,
            ..
        } => sends(alloc, exchange, *signal, *to, values.as_slice(), next),
        StmtKind::Retrieve { temps, .. } => retrieves(alloc, temps, next),
        StmtKind::Return { answer, values } => returns(alloc, *answer, values.as_slice()),
        StmtKind::Transfer { signal, to } => transfers(alloc, exchange, block, *signal, *to),
        StmtKind::Seize { temp, label, .. } => {
            sets_or_goes(alloc, *temp, next, label_point(exchange, block, *label))
        }
        StmtKind::Free { .. } => one_way(alloc, Passing::Kept, next),
        StmtKind::Exit => Ok(Seq::new(alloc)),
        StmtKind::Finish => Ok(Seq::new(alloc)),
    }
}

fn push_way(
    alloc: Global,
    how: Passing,
    points: Seq<u32>,
    ways: &mut Seq<Way>,
) -> Result<(), Memory>
    ensures { OnOk result (ways.new ≡ ways.old ++ to_points how points ∷ []) }
{
    let points = Points::from_seq(alloc, points)?;
    ways.push(Way {
        how,
        ends: Ends::Points(points),
    })
}

fn push_next(how: Passing, next: Option<u32>, ways: &mut Seq<Way>) -> Result<(), Memory>
    ensures { OnOk result (ways.new ≡ ways.old ++ to_next how next ∷ []) }
{
    ways.push(Way {
        how,
        ends: Ends::Points(Points::of_option(next)),
    })
}

/// One way, to a point if there is one.
fn one_way(alloc: Global, how: Passing, next: Option<u32>) -> Result<Seq<Way>, Memory>
    ensures { IfOk result (λ ways. ways ≡ to_next how next ∷ []) }
{
    let mut ways = Seq::with_capacity(alloc, 1)?;
    push_next(how, next, &mut ways)?;
    Ok(ways)
}

/// A temporary gets the values of an expression.
fn sets(alloc: Global, temp: u8, value: &Expr, next: Option<u32>) -> Result<Seq<Way>, Memory>
    requires { IsExprIn value.now }
    ensures { IfOk result
        (λ ways. ways ≡ to_next (passing.Sets temp (expr_source value.now)) next ∷ []) }
{
    let source = source_of(value);
    one_way(alloc, Passing::Sets { temp, source }, next)
}

/// Temporaries get the entry values.
fn takes(alloc: Global, temps: &Seq<u8>, next: Option<u32>) -> Result<Seq<Way>, Memory>
    ensures { IfOk result (λ ways. ways ≡ to_next (passing.Takes temps.now) next ∷ []) }
{
    let temps = Seq::copied(alloc, temps.as_slice())?;
    one_way(alloc, Passing::Takes { temps }, next)
}

/// Temporaries get the values of the answer.
fn retrieves(alloc: Global, temps: &Seq<u8>, next: Option<u32>) -> Result<Seq<Way>, Memory>
    ensures { IfOk result (λ ways. ways ≡ to_next (passing.Retrieves temps.now) next ∷ []) }
{
    let temps = Seq::copied(alloc, temps.as_slice())?;
    one_way(alloc, Passing::Retrieves { temps }, next)
}

/// One of two points, with everything as it is.
fn either(alloc: Global, first: Option<u32>, other: Option<u32>) -> Result<Seq<Way>, Memory>
    ensures { IfOk result
        (λ ways. ways ≡ to_points passing.Kept (listed first ++ listed other) ∷ []) }
{
    let mut points = Seq::with_capacity(alloc, 2)?;
    push_point(first, &mut points)?;
    push_point(other, &mut points)?;
    let mut ways = Seq::with_capacity(alloc, 1)?;
    push_way(alloc, Passing::Kept, points, &mut ways)?;
    Ok(ways)
}

/// The choices of a CASE, or another point, with everything as it is.
fn choices(
    alloc: Global,
    whens: &[When],
    next: Option<u32>,
    other: Option<u32>,
) -> Result<Seq<Way>, Memory>
    ensures { IfOk result (λ ways. ways ≡ to_points passing.Kept
        (choice_points whens.now next ++ listed other) ∷ []) }
{
    let mut points = Seq::new(alloc);
    push_begun(whens, &mut points)?;
    push_bare(whens, next, &mut points)?;
    push_point(other, &mut points)?;
    let mut ways = Seq::with_capacity(alloc, 1)?;
    push_way(alloc, Passing::Kept, points, &mut ways)?;
    Ok(ways)
}

/// Appends where the choices begin that have a statement to begin with.
#[tactic(auto, using(crate::proofs::Wayfaring::choices_begin, crate::proofs::Wayfaring::choices_end))]
fn push_begun(whens: &[When], points: &mut Seq<u32>) -> Result<(), Memory>
    ensures { OnOk result (points.new ≡ points.old ++ begun_points whens.now) }
{
    for when in whens {
        push_point(first_of(when.body.as_slice(), None), points)?;
    }
    Ok(())
}

/// Appends the point to which the choices lead that have no statement to begin with, if there is
/// one; it stands once for all of them.
#[tactic(auto, using(crate::proofs::Wayfaring::bare_some, crate::proofs::Wayfaring::bare_none))]
fn push_bare(whens: &[When], next: Option<u32>, points: &mut Seq<u32>) -> Result<(), Memory>
    ensures { OnOk result (points.new ≡ points.old ++ bare_points whens.now next) }
{
    if any_bare(whens) {
        return push_point(next, points);
    }
    Ok(())
}

fn any_bare(whens: &[When]) -> bool
    ensures { result ≡ list_any is_bare_choice whens.now }
{
    whens.iter().any(|when| is_bare(when))
}

/// Whether a choice has no statement to begin with.
fn is_bare(when: &When) -> bool
    ensures { result ≡ is_bare_choice when.now }
{
    first_of(when.body.as_slice(), None).is_none()
}

/// A temporary gets any value on one way, and everything is as it is on the other.
fn sets_or_goes(
    alloc: Global,
    temp: u8,
    sets: Option<u32>,
    goes: Option<u32>,
) -> Result<Seq<Way>, Memory>
    ensures { IfOk result (λ ways. ways ≡ to_next (passing.Sets temp (source.Is value.Any)) sets
        ∷ to_next passing.Kept goes ∷ []) }
{
    let source = Source::Is(Value::Any);
    let mut ways = Seq::with_capacity(alloc, 2)?;
    push_next(Passing::Sets { temp, source }, sets, &mut ways)?;
    push_next(Passing::Kept, goes, &mut ways)?;
    Ok(ways)
}

/// To the ENTERs of a signal.
fn push_way_in(
    alloc: Global,
    exchange: &Exchange,
    signal: u32,
    to: Option<Receiver>,
    how: Passing,
    ways: &mut Seq<Way>,
) -> Result<(), Memory>
    ensures { OnOk result (ways.new ≡ ways.old ++ to_enters exchange.now signal to how ∷ []) }
{
    let mut points = Seq::with_capacity(alloc, 1)?;
    push_enters(exchange, signal, to, &mut points)?;
    push_way(alloc, how, points, ways)
}

/// Where the values of these expressions come from.
#[tactic(auto, using(crate::proofs::Wayfaring::expr_at))]
fn sources_of(alloc: Global, values: &[Expr]) -> Result<Seq<Source>, Memory>
    requires { AllByRecursion IsExprIn values.now }
    ensures { IfOk result (λ sources. sources ≡ map expr_source values.now) }
{
    let mut sources = Seq::with_capacity(alloc, values.len())?;
    for value in values {
        sources.push(source_of(value))?;
    }
    Ok(sources)
}

/// An answer.
fn returns(alloc: Global, answer: u32, values: &[Expr]) -> Result<Seq<Way>, Memory>
    requires { AllByRecursion IsExprIn values.now }
    ensures { IfOk result (λ ways. ways ≡ record {
      how = passing.Answers (map expr_source values.now);
      ends = ends.Retrieves answer;
    } ∷ []) }
{
    let values = sources_of(alloc, values)?;
    let mut ways = Seq::with_capacity(alloc, 1)?;
    ways.push(Way {
        how: Passing::Answers { values },
        ends: Ends::Retrieves(answer),
    })?;
    Ok(ways)
}

/// A signal is sent.
fn sends(
    alloc: Global,
    exchange: &Exchange,
    signal: u32,
    to: Option<Receiver>,
    values: &[Expr],
    next: Option<u32>,
) -> Result<Seq<Way>, Memory>
    requires { AllByRecursion IsExprIn values.now }
    ensures { IfOk result (λ ways. ways ≡ ways_of_send exchange.now
        (slice_get exchange.now.signals signal) next signal to values.now) }
{
    match exchange.signals.get(signal as usize) {
        Some(SignalKind::Buffered { .. }) => one_way(alloc, Passing::Kept, next),
        Some(SignalKind::Outside { .. }) => one_way(alloc, Passing::Kept, next),
        Some(SignalKind::Direct { .. }) => begins(alloc, exchange, signal, to, values),
        Some(SignalKind::Combined { answer, .. }) => {
            calls(alloc, exchange, signal, to, values, *answer, next)
        }
        Some(SignalKind::Answer { .. }) => Ok(Seq::new(alloc)),
        None => Ok(Seq::new(alloc)),
    }
}

/// An activation begins with the values of these expressions.
fn begins(
    alloc: Global,
    exchange: &Exchange,
    signal: u32,
    to: Option<Receiver>,
    values: &[Expr],
) -> Result<Seq<Way>, Memory>
    requires { AllByRecursion IsExprIn values.now }
    ensures { IfOk result (λ ways. ways ≡ to_enters exchange.now signal to
        (passing.Begins (map expr_source values.now)) ∷ []) }
{
    let values = sources_of(alloc, values)?;
    let how = Passing::Begins { values };
    let mut ways = Seq::with_capacity(alloc, 1)?;
    push_way_in(alloc, exchange, signal, to, how, &mut ways)?;
    Ok(ways)
}

/// An activation begins with the values of these expressions, and the sender waits for its answer.
fn calls(
    alloc: Global,
    exchange: &Exchange,
    signal: u32,
    to: Option<Receiver>,
    values: &[Expr],
    answer: u32,
    next: Option<u32>,
) -> Result<Seq<Way>, Memory>
    requires { AllByRecursion IsExprIn values.now }
    ensures { IfOk result (λ ways. ways ≡ to_enters exchange.now signal to
        (passing.Calls (map expr_source values.now) answer) ∷ to_next passing.Kept next ∷ []) }
{
    let values = sources_of(alloc, values)?;
    let how = Passing::Calls { values, answer };
    let mut ways = Seq::with_capacity(alloc, 2)?;
    push_way_in(alloc, exchange, signal, to, how, &mut ways)?;
    push_next(Passing::Kept, next, &mut ways)?;
    Ok(ways)
}

/// The activation's entry values go on.
fn transfers(
    alloc: Global,
    exchange: &Exchange,
    block: u32,
    signal: u32,
    to: Option<Receiver>,
) -> Result<Seq<Way>, Memory>
    ensures { IfOk result (λ ways. ways ≡ to_enters exchange.now signal to
        (passing.Passes (passed exchange.now block signal)) ∷ []) }
{
    let count = smaller(count_of(exchange, signal), given_of(exchange, block));
    let mut ways = Seq::with_capacity(alloc, 1)?;
    push_way_in(
        alloc,
        exchange,
        signal,
        to,
        Passing::Passes { count },
        &mut ways,
    )?;
    Ok(ways)
}

fn smaller(a: u8, b: u8) -> u8
    ensures { result ≡ min a b }
{
    if a < b { a } else { b }
}

fn larger(a: u8, b: u8) -> u8
    ensures { result ≡ max a b }
{
    if a < b { b } else { a }
}

/// How many values a signal has; 0 where there is none.
#[tactic(auto, using(crate::proofs::Wayfaring::count_none, crate::proofs::Wayfaring::count_some))]
pub fn count_of(exchange: &Exchange, signal: u32) -> u8
    ensures { result ≡ value_count exchange.now signal }
{
    match exchange.signals.get(signal as usize) {
        Some(kind) => kind.count(),
        None => 0,
    }
}

/// How many entry values a block has; 0 where there is none.
#[tactic(auto, using(crate::proofs::Wayfaring::given_none, crate::proofs::Wayfaring::given_some))]
pub fn given_of(exchange: &Exchange, block: u32) -> u8
    ensures { result ≡ given_count exchange.now block }
{
    match exchange.blocks.get(block as usize) {
        Some(found) => most_values(exchange, found.enters.as_slice()),
        None => 0,
    }
}

/// The most values that a signal of these has.
#[tactic(auto, using(crate::proofs::Wayfaring::most_begin, crate::proofs::Wayfaring::most_end))]
fn most_values(exchange: &Exchange, rows: &[Enter]) -> u8
    ensures { result ≡ most_of exchange.now rows.now }
{
    let mut most = 0;
    for row in rows {
        most = larger(most, count_of(exchange, row.signal));
    }
    most
}
