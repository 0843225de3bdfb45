// What a block declares.
ghost use Rattle.std.specs.Prelude.{◌≡◌, IfOk, OnOk, map, filter_map};
ghost use Rattle.block_resolver.specs.Added.{AddsFile};
ghost use Rattle.resolved_block.specs.Blocks.{field_of, files_from, init_of, temporary_in};
ghost use Rattle.resolved_block.specs.Blocks.{variable_in, variable_of};

use crate::numbers::{byte_of, next};
use exchange_model::{File, Variable};
use plex_ast::{Decl, DeclKind, Field, Named, Numbered};
use plex_num::{Memory, Name, Seq};
use std::alloc::Global;

/// The INIT value; 0 where none is written.
fn init_of(init: &Option<Numbered>) -> u32
    ensures { result ≡ init_of init.now }
{
    match init {
        None => 0,
        Some(number) => number.value,
    }
}

fn variable_of(name: &Named, width: &Numbered, init: &Option<Numbered>, clear: bool) -> Variable
    ensures { result ≡ variable_of name.now width.now init.now clear }
{
    Variable {
        name: name.name.copy(),
        width: byte_of(width.value),
        init: init_of(init),
        clear,
    }
}

fn field_of(field: &Field) -> Variable
    ensures { result ≡ field_of field.now }
{
    variable_of(&field.name, &field.width, &field.init, false)
}

fn fields_of(alloc: Global, fields: &[Field]) -> Result<Seq<Variable>, Memory>
    ensures { IfOk result (λ list. list ≡ map field_of fields.now) }
{
    let mut list = Seq::new(alloc);
    for field in fields {
        list.push(field_of(field))?;
    }
    Ok(list)
}

fn variable_in(decl: &Decl) -> Option<Variable>
    ensures { result ≡ variable_in decl.now }
{
    match &decl.kind {
        DeclKind::Variable {
            name,
            width,
            init,
            clear,
        } => Some(variable_of(name, width, init, *clear)),
        _ => None,
    }
}

/// The variables, in order.
#[tactic(auto, using(crate::proofs::Picked::list_picked))]
fn variables_of(alloc: Global, decls: &[Decl]) -> Result<Seq<Variable>, Memory>
    ensures { IfOk result (λ list. list ≡ filter_map variable_in decls.now) }
{
    let mut list = Seq::new(alloc);
    for decl in decls {
        let Some(variable) = variable_in(decl) else {
            continue;
        };
        list.push(variable)?;
    }
    Ok(list)
}

fn temporary_in(decl: &Decl) -> Option<Name>
    ensures { result ≡ temporary_in decl.now }
{
    match &decl.kind {
        DeclKind::Temporary { name } => Some(name.name.copy()),
        _ => None,
    }
}

/// The temporaries, in order.
#[tactic(auto, using(crate::proofs::Picked::list_picked))]
fn temporaries_of(alloc: Global, decls: &[Decl]) -> Result<Seq<Name>, Memory>
    ensures { IfOk result (λ list. list ≡ filter_map temporary_in decls.now) }
{
    let mut list = Seq::new(alloc);
    for decl in decls {
        let Some(temporary) = temporary_in(decl) else {
            continue;
        };
        list.push(temporary)?;
    }
    Ok(list)
}

/// Adds the file that a declaration is, where it is one.
fn add_file(
    alloc: Global,
    kind: &DeclKind,
    number: &mut u32,
    list: &mut Seq<File>,
) -> Result<(), Memory>
    ensures { OnOk result (AddsFile kind.now list.old list.new number.old number.new) }
{
    match kind {
        DeclKind::Variable { .. } => {}
        DeclKind::Temporary { .. } => {}
        DeclKind::File {
            forlopp,
            name,
            size,
            fields,
        } => {
            let fields = fields_of(alloc, fields.as_slice())?;
            let file = File {
                name: name.name.copy(),
                number: *number,
                forlopp: *forlopp,
                size: size.value,
                fields,
            };
            list.push(file)?;
            *number = next(*number)?;
        }
    }
    Ok(())
}

/// The files, numbered from `first`.
#[tactic(auto, using(crate::proofs::Files::files_numbered))]
fn files_of(alloc: Global, decls: &[Decl], first: u32) -> Result<Seq<File>, Memory>
    ensures { IfOk result (λ list. list ≡ files_from decls.now first) }
{
    let mut list = Seq::new(alloc);
    let mut number = first;
    for decl in decls {
        add_file(alloc, &decl.kind, &mut number, &mut list)?;
    }
    Ok(list)
}

/// What a block declares: its variables, its temporaries and its files.
pub(crate) type Data = (Seq<Variable>, (Seq<Name>, Seq<File>));

/// All that is declared. The files are numbered from `first_file`.
pub(crate) fn data_of(alloc: Global, decls: &[Decl], first_file: u32) -> Result<Data, Memory>
    ensures variables { IfOk result (λ d. d.0 ≡ filter_map variable_in decls.now) }
    ensures temporaries { IfOk result (λ d. d.1.0 ≡ filter_map temporary_in decls.now) }
    ensures files { IfOk result (λ d. d.1.1 ≡ files_from decls.now first_file) }
{
    let variables = variables_of(alloc, decls)?;
    let temporaries = temporaries_of(alloc, decls)?;
    let files = files_of(alloc, decls, first_file)?;
    Ok((variables, (temporaries, files)))
}
