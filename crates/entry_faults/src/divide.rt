// Whether something in an expression may be divided by 0.
ghost use Rattle.std.specs.Prelude.{◌≡◌};
ghost use Rattle.exchange_model.specs.declared.expr.Factor.{out-Factor};
ghost use Rattle.entry_summary.specs.Divides.{above_zero, divisor_in, joins_badly};
ghost use Rattle.entry_summary.specs.Divides.{term_divides as term_may_divide};
ghost use Rattle.entry_summary.specs.Faults.{divides as divides_by};
ghost use Rattle.entry_summary.specs.Faults.{may_divide_by_zero as may_divide};

use exchange_model::{Expr, Factor, FactorOp, Joined, Term};

/// Whether a right factor of `/` or of MOD in an expression is no number above 0.
#[cycle(divide)]
pub fn may_divide_by_zero(e: &Expr) -> bool
    ensures { result ≡ may_divide e.now }
{
    for term in e.terms.as_slice() {
        if term_divides(term) {
            return true;
        }
    }
    false
}

#[cycle(divide)]
fn term_divides(term: &Term) -> bool
    ensures { result ≡ term_may_divide term.now }
{
    for joined in term.factors.as_slice() {
        if joined_divides(joined) {
            return true;
        }
    }
    false
}

#[cycle(divide)]
fn joined_divides(joined: &Joined) -> bool
    ensures { result ≡ joins_badly joined.now }
{
    factor_divides(&joined.factor) | (divides(joined.by) & !is_above_zero(&joined.factor))
}

#[cycle(divide)]
fn factor_divides(factor: &Factor) -> bool
    ensures { result ≡ (divisor_in factor.now).inside }
{
    match factor {
        Factor::Bracket(inside) => may_divide_by_zero(inside),
        Factor::Number(_) => false,
        Factor::Variable(_) => false,
        Factor::Temporary(_) => false,
        Factor::Field { .. } => false,
        Factor::Reference(_) => false,
    }
}

fn divides(by: FactorOp) -> bool
    ensures { result ≡ divides_by by }
{
    match by {
        FactorOp::Times => false,
        FactorOp::Divide => true,
        FactorOp::Modulo => true,
    }
}

fn is_above_zero(factor: &Factor) -> bool
    ensures { result ≡ above_zero (out-Factor factor.now) }
{
    match factor {
        Factor::Number(number) => 0 < *number,
        _ => false,
    }
}
