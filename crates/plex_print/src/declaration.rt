// Declarations.
ghost use Rattle.std.specs.Prelude.{◌≡◌, IfOk};
ghost use Rattle.std.specs.Prelude.{codes};
ghost use Rattle.plex_print.specs.Printed.{decl_text, field_text, file_text, init_text};
ghost use Rattle.plex_print.specs.Printed.{temporary_text, variable_text};
ghost use Rattle.plex_print.specs.Writing.{each_of, flag_of, maybe_of, say};

use crate::word::{end, name, number, word};
use plex_ast::{Decl, DeclKind, Field, Named, Numbered};
use plex_num::{Memory, Seq};

/// Appends a declaration.
#[tactic(auto, unfolding(crate::specs::Printed::decl_text))]
pub fn decl(text: &mut Seq<u8>, decl: &Decl) -> Result<(), Memory>
    ensures { IfOk result (λ _. text.new ≡ decl_text decl.now text.old) }
{
    match &decl.kind {
        DeclKind::Variable {
            name: variable_name,
            width,
            init,
            clear,
        } => variable(text, variable_name, width, init, *clear),
        DeclKind::Temporary {
            name: temporary_name,
        } => temporary(text, temporary_name),
        DeclKind::File {
            forlopp,
            name: file_name,
            size,
            fields: list,
        } => file(text, *forlopp, file_name, size, list.as_slice()),
    }
}

/// `VARIABLE name WIDTH number [ INIT number ] [ CLEAR ] ;`
#[tactic(auto, unfolding(crate::specs::Printed::variable_text))]
fn variable(
    text: &mut Seq<u8>,
    variable: &Named,
    width: &Numbered,
    init: &Option<Numbered>,
    clear: bool,
) -> Result<(), Memory>
    ensures { IfOk result (λ _. text.new ≡ variable_text variable.now width.now init.now clear
        text.old) }
{
    word(text, b"VARIABLE")?;
    name(text, variable)?;
    word(text, b"WIDTH")?;
    number(text, width)?;
    some_init(text, init)?;
    some_clear(text, clear)?;
    end(text)
}

fn some_clear(text: &mut Seq<u8>, clear: bool) -> Result<(), Memory>
    ensures { IfOk result (λ _. text.new ≡ flag_of (say (codes "CLEAR")) clear text.old) }
{
    if clear { word(text, b"CLEAR") } else { Ok(()) }
}

#[tactic(auto, unfolding(crate::specs::Printed::init_text))]
fn some_init(text: &mut Seq<u8>, init: &Option<Numbered>) -> Result<(), Memory>
    ensures { IfOk result (λ _. text.new ≡ maybe_of init_text init.now text.old) }
{
    match init {
        None => Ok(()),
        Some(value) => {
            word(text, b"INIT")?;
            number(text, value)
        }
    }
}

/// `TEMPORARY name ;`
#[tactic(auto, unfolding(crate::specs::Printed::temporary_text))]
fn temporary(text: &mut Seq<u8>, temporary: &Named) -> Result<(), Memory>
    ensures { IfOk result (λ _. text.new ≡ temporary_text temporary.now text.old) }
{
    word(text, b"TEMPORARY")?;
    name(text, temporary)?;
    end(text)
}

/// `[ FORLOPP ] FILE name SIZE number ; { FIELD .. }`
#[tactic(auto, unfolding(crate::specs::Printed::file_text))]
fn file(
    text: &mut Seq<u8>,
    forlopp: bool,
    file: &Named,
    size: &Numbered,
    list: &[Field],
) -> Result<(), Memory>
    ensures { IfOk result (λ _. text.new ≡ file_text forlopp file.now size.now list.now text.old) }
{
    some_forlopp(text, forlopp)?;
    word(text, b"FILE")?;
    name(text, file)?;
    word(text, b"SIZE")?;
    number(text, size)?;
    end(text)?;
    fields(text, list)
}

fn some_forlopp(text: &mut Seq<u8>, forlopp: bool) -> Result<(), Memory>
    ensures { IfOk result (λ _. text.new ≡ flag_of (say (codes "FORLOPP")) forlopp text.old) }
{
    if forlopp {
        word(text, b"FORLOPP")
    } else {
        Ok(())
    }
}

fn fields(text: &mut Seq<u8>, list: &[Field]) -> Result<(), Memory>
    ensures { IfOk result (λ _. text.new ≡ each_of field_text list.now text.old) }
{
    let mut rest = list;
    'fields: while let Some((next, left)) = rest.split_first() {
        field(text, next)?;
        rest = left;
    }
    Ok(())
}

/// `FIELD name WIDTH number [ INIT number ] ;`
#[tactic(auto, unfolding(crate::specs::Printed::field_text))]
fn field(text: &mut Seq<u8>, field: &Field) -> Result<(), Memory>
    ensures { IfOk result (λ _. text.new ≡ field_text field.now text.old) }
{
    word(text, b"FIELD")?;
    name(text, &field.name)?;
    word(text, b"WIDTH")?;
    number(text, &field.width)?;
    some_init(text, &field.init)?;
    end(text)
}
