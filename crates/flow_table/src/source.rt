// Where the values of an expression come from.
ghost use Rattle.std.specs.Prelude.{◌≡◌, map, IfOk};
ghost use Rattle.std.specs.List.{AllByRecursion};
ghost use Rattle.flow_points.specs.Sources.{expr_source};
ghost use Rattle.flow_table.specs.Alone.{IsExprIn, IsTermIn, IsFactorIn, own_source, term_source};

use exchange_model::{Expr, Factor, Term};
use flow_points::{SMALL_NUMBERS, Slot, Source, Value};
use plex_num::{Memory, Seq};
use std::alloc::Global;

/// Where the values of an expression of an exchange come from.
#[cycle(source)]
#[tactic(auto, using(crate::proofs::Sourcing::no_term))]
pub fn source_of(e: &Expr) -> Source
    requires { IsExprIn e.now }
    ensures { result ≡ expr_source e.now }
{
    match e.terms.as_slice() {
        [term] => source_of_term(term),
        _ => Source::Is(Value::Any),
    }
}

#[cycle(source)]
#[tactic(auto, using(crate::proofs::Sourcing::no_factor))]
fn source_of_term(term: &Term) -> Source
    requires { IsTermIn term.now }
    ensures { result ≡ term_source term.now }
{
    match term.factors.as_slice() {
        [joined] => source_of_factor(&joined.factor),
        _ => Source::Is(Value::Any),
    }
}

#[cycle(source)]
fn source_of_factor(factor: &Factor) -> Source
    requires { IsFactorIn factor.now }
    ensures { result ≡ own_source factor.now }
{
    match factor {
        Factor::Number(number) => small(*number),
        Factor::Temporary(temp) => Source::Of(Slot::Temp(*temp)),
        Factor::Bracket(inside) => source_of(inside),
        Factor::Reference(block) => Source::Is(Value::Const(*block + 1)),
        Factor::Variable(_) => Source::Is(Value::Any),
        Factor::Field { .. } => Source::Is(Value::Any),
    }
}

fn small(number: u32) -> Source
    ensures { result ≡ Rattle.flow_table.specs.Alone.small number }
{
    if number < SMALL_NUMBERS {
        Source::Is(Value::Const(number))
    } else {
        Source::Is(Value::Any)
    }
}
