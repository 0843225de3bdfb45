// Lists of names and of values, and receivers.
ghost use Rattle.std.specs.Prelude.{◌≡◌, IfOk};
ghost use Rattle.plex_print.specs.Printed.{comma_expr_text, comma_name_text, exprs_text};
ghost use Rattle.plex_print.specs.Printed.{names_text, reference_text};
ghost use Rattle.plex_print.specs.Writing.{each_of, maybe_of};

use crate::expression::expr;
use crate::word::{name, word};
use plex_ast::{Boxed, Expr, Exprs, Named, Names, Reference, ReferenceKind};
use plex_num::{Memory, Seq};

/// Appends a list of names, where there is one.
pub fn some_names(text: &mut Seq<u8>, list: &Option<Boxed<Names>>) -> Result<(), Memory>
    ensures { IfOk result (λ _. text.new ≡ maybe_of names_text list.now text.old) }
{
    match list {
        None => Ok(()),
        Some(list) => names(text, list.get()),
    }
}

#[tactic(auto, unfolding(crate::specs::Printed::names_text))]
fn names(text: &mut Seq<u8>, names: &Names) -> Result<(), Memory>
    ensures { IfOk result (λ _. text.new ≡ names_text names.now text.old) }
{
    word(text, b"WITH")?;
    name(text, &names.first)?;
    name_list(text, names.rest.as_slice())
}

fn name_list(text: &mut Seq<u8>, list: &[Named]) -> Result<(), Memory>
    ensures { IfOk result (λ _. text.new ≡ each_of comma_name_text list.now text.old) }
{
    let mut rest = list;
    'names: while let Some((next, left)) = rest.split_first() {
        comma_name(text, next)?;
        rest = left;
    }
    Ok(())
}

#[tactic(auto, unfolding(crate::specs::Printed::comma_name_text))]
fn comma_name(text: &mut Seq<u8>, next: &Named) -> Result<(), Memory>
    ensures { IfOk result (λ _. text.new ≡ comma_name_text next.now text.old) }
{
    word(text, b",")?;
    name(text, next)
}

/// Appends a list of values, where there is one.
pub fn some_exprs(
    text: &mut Seq<u8>,
    list: &Option<Boxed<Exprs>>,
    room: usize,
) -> Result<(), Memory>
    ensures { IfOk result (λ _. text.new ≡ maybe_of (exprs_text room) list.now text.old) }
{
    match list {
        None => Ok(()),
        Some(list) => exprs(text, list.get(), room),
    }
}

#[tactic(auto, unfolding(crate::specs::Printed::exprs_text))]
fn exprs(text: &mut Seq<u8>, exprs: &Exprs, room: usize) -> Result<(), Memory>
    ensures { IfOk result (λ _. text.new ≡ exprs_text room exprs.now text.old) }
{
    word(text, b"WITH")?;
    expr(text, &exprs.first, room)?;
    expr_list(text, exprs.rest.as_slice(), room)
}

fn expr_list(text: &mut Seq<u8>, list: &[Expr], room: usize) -> Result<(), Memory>
    ensures { IfOk result (λ _. text.new ≡ each_of (comma_expr_text room) list.now text.old) }
{
    let mut rest = list;
    'exprs: while let Some((next, left)) = rest.split_first() {
        comma_expr(text, next, room)?;
        rest = left;
    }
    Ok(())
}

#[tactic(auto, unfolding(crate::specs::Printed::comma_expr_text))]
fn comma_expr(text: &mut Seq<u8>, next: &Expr, room: usize) -> Result<(), Memory>
    ensures { IfOk result (λ _. text.new ≡ comma_expr_text room next.now text.old) }
{
    word(text, b",")?;
    expr(text, next, room)
}

/// Appends a receiver, where there is one.
pub fn some_reference(
    text: &mut Seq<u8>,
    reference: &Option<Boxed<Reference>>,
) -> Result<(), Memory>
    ensures { IfOk result (λ _. text.new ≡ maybe_of reference_text reference.now text.old) }
{
    match reference {
        None => Ok(()),
        Some(reference) => receiver(text, reference.get()),
    }
}

/// `REFERENCE name | REFERENCE ( name )`
#[tactic(auto, unfolding(crate::specs::Printed::reference_text))]
fn receiver(text: &mut Seq<u8>, reference: &Reference) -> Result<(), Memory>
    ensures { IfOk result (λ _. text.new ≡ reference_text reference.now text.old) }
{
    match &reference.kind {
        ReferenceKind::Block { name: block } => {
            word(text, b"REFERENCE")?;
            name(text, block)
        }
        ReferenceKind::Held { name: holder } => {
            word(text, b"REFERENCE")?;
            word(text, b"(")?;
            name(text, holder)?;
            word(text, b")")
        }
    }
}
