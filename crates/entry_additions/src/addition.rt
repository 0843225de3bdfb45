// Whether a statement adds to a variable or a field (docs/ANALYSIS.md, Additions).
ghost use Rattle.std.specs.Prelude.{◌≡◌, slice_get};
ghost use Rattle.std.specs.List.{count_by, list_any};
ghost use Rattle.exchange_model.specs.declared.expr.Factor.{out-Factor};
ghost use Rattle.exchange_model.specs.declared.stmt.StmtKind.{out-StmtKind};
ghost use Rattle.source_meaning.specs.Changes.{variable_width};
ghost use Rattle.source_meaning.specs.Config.{files_of};
ghost use Rattle.source_meaning.specs.Rests.{IsOfBlock};
ghost use Rattle.entry_accesses.specs.Numbered.{AreNumbers};
ghost use Rattle.entry_additions.specs.Naming.{named_of, term_names as term_has};
ghost use Rattle.entry_additions.specs.Sums.{adds as adds_of, is_alone as is_alone_of};
ghost use Rattle.entry_additions.specs.Sums.{is_own as is_own_of, is_sum as is_sum_of};
ghost use Rattle.entry_additions.specs.Sums.{is_the_name as is_the_name_of};
ghost use Rattle.entry_additions.specs.Sums.{is_times as is_times_of, width_at, width_in};

use crate::assigned::{Assigned, is_record_field, is_variable};
use crate::cells::{CellKind, is_of_fields, is_of_variables};
use crate::naming::term_names;
use entry_accesses::CellNumbers;
use exchange_model::{Exchange, Factor, FactorOp, FilePlace, Joined, StmtKind, Term};

/// Whether a statement of a block adds to the variable or field with this number in the exchange,
/// and its width is 32 bits.
pub(crate) fn adds_to(
    exchange: &Exchange,
    numbers: &CellNumbers,
    block: u32,
    statement: &StmtKind,
    kind: CellKind,
    number: u32,
) -> bool
    requires of_block { IsOfBlock exchange.now block (out-StmtKind statement.now) }
    requires numbers { AreNumbers exchange.now numbers.now }
    ensures { result ≡ adds_of exchange.now block kind number (out-StmtKind statement.now) }
{
    exchange.kept();
    match statement {
        StmtKind::SetVariable { variable, value } => {
            let own = numbers.variable(block, *variable);
            let of = Assigned::Variable {
                variable: *variable,
            };
            is_of_variables(kind)
                & (own == number)
                & (width_of(exchange, block, *variable) == 32)
                & is_sum(value.terms.as_slice(), of)
        }
        StmtKind::SetField {
            file,
            field,
            pointer,
            value,
        } => {
            let own = numbers.field(*file, *field);
            let of = Assigned::Field {
                file: *file,
                field: *field,
                pointer: *pointer,
            };
            is_of_fields(kind)
                & (own == number)
                & (width_of_field(exchange, *file, *field) == 32)
                & is_sum(value.terms.as_slice(), of)
        }
        _ => false,
    }
}

/// The width of a variable of a block; 0 if there is none.
fn width_of(exchange: &Exchange, block: u32, variable: u32) -> u8
    ensures { result ≡ variable_width exchange.now block variable }
{
    exchange
        .blocks
        .get(block as usize)
        .and_then(|block| block.variables.get(variable as usize))
        .map_or(0, |variable| variable.width)
}

/// The width of a field of a file; 0 if there is none.
#[tactic(auto, using(crate::proofs::Widths::no_file, crate::proofs::Widths::file_there))]
fn width_of_field(exchange: &Exchange, file: u32, field: u32) -> u8
    ensures { result ≡ width_in (slice_get (files_of exchange.now) file) field }
{
    let Some(found) = exchange.file(file) else {
        return 0;
    };
    width_here(&found, field)
}

fn width_here(place: &FilePlace<'_>, field: u32) -> u8
    ensures { result ≡ width_at place.now.file.now field }
{
    place
        .file
        .fields
        .get(field as usize)
        .map_or(0, |field| field.width)
}

/// Whether one of these terms is only the name, and no other one names the same variable or field.
fn is_sum(terms: &[Term], of: Assigned) -> bool
    ensures { result ≡ is_sum_of (named_of of) terms.now }
{
    (naming(terms, of) == 1) & has_own(terms, of)
}

/// How many of these terms name the variable or field.
fn naming(terms: &[Term], of: Assigned) -> usize
    ensures { result ≡ count_by (term_has (named_of of)) terms.now }
{
    terms.iter().filter(|term| term_names(term, of)).count()
}

/// Whether one of these terms is only the name.
fn has_own(terms: &[Term], of: Assigned) -> bool
    ensures { result ≡ list_any (is_own_of (named_of of)) terms.now }
{
    terms.iter().any(|term| is_own(term, of))
}

/// Whether a term is only the name, without a minus.
fn is_own(term: &Term, of: Assigned) -> bool
    ensures { result ≡ is_own_of (named_of of) term.now }
{
    !term.minus & is_alone(term.factors.as_slice(), of)
}

fn is_alone(factors: &[Joined], of: Assigned) -> bool
    ensures { result ≡ is_alone_of (named_of of) factors.now }
{
    match factors {
        [only] => is_times(only.by) & is_the_name(&only.factor, of),
        _ => false,
    }
}

fn is_times(by: FactorOp) -> bool
    ensures { result ≡ is_times_of by }
{
    match by {
        FactorOp::Times => true,
        FactorOp::Divide => false,
        FactorOp::Modulo => false,
    }
}

fn is_the_name(factor: &Factor, of: Assigned) -> bool
    ensures { result ≡ is_the_name_of (named_of of) (out-Factor factor.now) }
{
    match factor {
        Factor::Variable(named) => is_variable(of, *named),
        Factor::Field {
            file,
            field,
            pointer,
        } => is_record_field(of, *file, *field, *pointer),
        _ => false,
    }
}
