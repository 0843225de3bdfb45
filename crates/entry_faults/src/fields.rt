// The records at which an expression looks.
ghost use Rattle.std.specs.Prelude.{◌≡◌, ◌++◌, OnOk};
ghost use Rattle.source_meaning.specs.Named.{named_in, named_in_factor, named_in_term};
ghost use Rattle.entry_faults.specs.Fields.{pointers_named};

use exchange_model::{Expr, Factor, Term};
use plex_num::{Memory, Seq};

/// A temporary that has the number of a record of a file, which is a number through the exchange.
#[derive(Clone, Copy, PartialEq, Eq, PartialOrd, Ord)]
pub struct Pointer {
    pub file: u32,
    pub temp: u8,
}

/// Appends the pointers of the fields that an expression names.
#[cycle(fields)]
pub fn push_fields(e: &Expr, pointers: &mut Seq<Pointer>) -> Result<(), Memory>
    ensures { OnOk result (pointers.new ≡ pointers.old ++ pointers_named (named_in e.now)) }
{
    for term in e.terms.as_slice() {
        push_fields_of_term(term, pointers)?;
    }
    Ok(())
}

#[cycle(fields)]
fn push_fields_of_term(term: &Term, pointers: &mut Seq<Pointer>) -> Result<(), Memory>
    ensures { OnOk result (pointers.new ≡ pointers.old ++ pointers_named (named_in_term term.now)) }
{
    for joined in term.factors.as_slice() {
        push_fields_of_factor(&joined.factor, pointers)?;
    }
    Ok(())
}

#[cycle(fields)]
#[tactic(auto, using(crate::proofs::Reading::field_pushed, crate::proofs::Reading::bracket_pushed, crate::proofs::Reading::number_pushed, crate::proofs::Reading::variable_pushed, crate::proofs::Reading::temporary_pushed, crate::proofs::Reading::reference_pushed))]
fn push_fields_of_factor(factor: &Factor, pointers: &mut Seq<Pointer>) -> Result<(), Memory>
    ensures { OnOk result
        (pointers.new ≡ pointers.old ++ pointers_named (named_in_factor factor.now)) }
{
    match factor {
        Factor::Field { file, pointer, .. } => {
            let (file, temp) = (*file, *pointer);
            pointers.push(Pointer { file, temp })?;
            Ok(())
        }
        Factor::Bracket(inside) => {
            push_fields(inside, pointers)?;
            Ok(())
        }
        Factor::Number(_) => Ok(()),
        Factor::Variable(_) => Ok(()),
        Factor::Temporary(_) => Ok(()),
        Factor::Reference(_) => Ok(()),
    }
}
