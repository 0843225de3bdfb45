// Whether expressions name a variable, or a field of any record.
ghost use Rattle.std.specs.Prelude.{◌≡◌};
ghost use Rattle.entry_additions.specs.Naming.{expr_names as expr_has, factor_names as factor_has};
ghost use Rattle.entry_additions.specs.Naming.{named_of, term_names as term_has};

use crate::assigned::{Assigned, is_field, is_variable};
use exchange_model::{Expr, Factor, Term};

/// Whether a term names a variable, or a field of any record, at any depth.
#[cycle(names)]
pub(crate) fn term_names(term: &Term, of: Assigned) -> bool
    ensures { result ≡ term_has (named_of of) term.now }
{
    for joined in term.factors.as_slice() {
        if factor_names(&joined.factor, of) {
            return true;
        }
    }
    false
}

#[cycle(names)]
fn factor_names(factor: &Factor, of: Assigned) -> bool
    ensures { result ≡ factor_has (named_of of) factor.now }
{
    match factor {
        Factor::Variable(named) => is_variable(of, *named),
        Factor::Bracket(inside) => expr_names(inside, of),
        Factor::Number(_) => false,
        Factor::Temporary(_) => false,
        Factor::Field { file, field, .. } => is_field(of, *file, *field),
        Factor::Reference(_) => false,
    }
}

#[cycle(names)]
fn expr_names(e: &Expr, of: Assigned) -> bool
    ensures { result ≡ expr_has (named_of of) e.now }
{
    for term in e.terms.as_slice() {
        if term_names(term, of) {
            return true;
        }
    }
    false
}
