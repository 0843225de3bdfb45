// What stands in declarations.
ghost use Rattle.std.specs.Prelude.{◌≡◌, ◌+◌, ◌*◌, IfOk, OnOk};
ghost use Rattle.exchange_model.specs.Cells.{marks};
ghost use Rattle.text_events.specs.Note as note;
ghost use Rattle.text_events.specs.Walk.{add};
ghost use Rattle.text_events.specs.Blocks.{init_walk, width_walk, field_walk, fields_walk};
ghost use Rattle.text_events.specs.Blocks.{variables_of, temporaries_of, files_of, cells_of};
ghost use Rattle.text_events.specs.Blocks.{decl_walk, decls_walk};

use crate::pushes::{plus, push, push_field};
use plex_ast::{Decl, DeclKind, Field, Numbered};
use plex_num::{Memory, Seq};
use std::alloc::Global;
use text_events::{Event, PackedEvent};

fn walk_init<'a>(
    init: &'a Option<Numbered>,
    bits: u32,
    out: &mut Seq<Event<'a>>,
) -> Result<(), Memory>
    ensures { OnOk result (out.new ≡ init_walk init.now bits out.old) }
{
    match init {
        None => Ok(()),
        Some(i) => {
            let kept = PackedEvent::Init {
                line: i.line,
                value: i.value,
                bits,
            };
            push(out, kept)?;
            Ok(())
        }
    }
}

fn walk_width<'a>(
    width: &'a Numbered,
    init: &'a Option<Numbered>,
    out: &mut Seq<Event<'a>>,
) -> Result<(), Memory>
    ensures { OnOk result (out.new ≡ width_walk width.now init.now out.old) }
{
    let kept = PackedEvent::Width {
        line: width.line,
        bits: width.value,
    };
    push(out, kept)?;
    walk_init(init, width.value, out)?;
    Ok(())
}

fn walk_field<'a>(
    alloc: Global,
    d: &'a Field,
    file: u32,
    field: u32,
    out: &mut Seq<Event<'a>>,
) -> Result<(), Memory>
    ensures { OnOk result (out.new ≡ field_walk d.now file field out.old) }
{
    push_field(alloc, out, &d.name, file, field)?;
    walk_width(&d.width, &d.init, out)?;
    Ok(())
}

#[tactic(auto, using(crate::proofs::BlockSteps::fields_begin, crate::proofs::BlockSteps::fields_step, crate::proofs::BlockSteps::fields_end))]
fn walk_fields<'a>(
    alloc: Global,
    fields: &'a [Field],
    file: u32,
    out: &mut Seq<Event<'a>>,
) -> Result<(), Memory>
    ensures { OnOk result (out.new ≡ fields_walk fields.now file 0 out.old) }
{
    let mut field: u32 = 0;
    for d in fields {
        walk_field(alloc, d, file, field, out)?;
        field = plus(field, 1)?;
    }
    Ok(())
}

fn walk_decl<'a>(
    alloc: Global,
    d: &'a DeclKind,
    variables: u32,
    temporaries: u32,
    files: u32,
    out: &mut Seq<Event<'a>>,
) -> Result<(), Memory>
    ensures { OnOk result (out.new ≡ decl_walk d.now variables temporaries files out.old) }
{
    match d {
        DeclKind::Variable {
            name,
            width,
            init,
            clear: _,
        } => {
            let kept = PackedEvent::Variable {
                number: variables,
                name,
            };
            push(out, kept)?;
            walk_width(width, init, out)?;
            Ok(())
        }
        DeclKind::Temporary { name } => {
            let kept = PackedEvent::Temporary {
                number: temporaries,
                name,
            };
            push(out, kept)?;
            Ok(())
        }
        DeclKind::File {
            forlopp,
            name,
            size,
            fields,
        } => {
            let named = PackedEvent::File {
                forlopp: *forlopp,
                file: files,
                name,
            };
            push(out, named)?;
            let sized = PackedEvent::Size {
                line: size.line,
                records: size.value,
            };
            push(out, sized)?;
            walk_fields(alloc, fields.as_slice(), files, out)?;
            Ok(())
        }
    }
}

fn count_variables(d: &DeclKind) -> u32
    ensures { result ≡ variables_of d.now }
{
    match d {
        DeclKind::Variable { .. } => 1,
        _ => 0,
    }
}

fn count_temporaries(d: &DeclKind) -> u32
    ensures { result ≡ temporaries_of d.now }
{
    match d {
        DeclKind::Temporary { .. } => 1,
        _ => 0,
    }
}

fn count_files(d: &DeclKind) -> u32
    ensures { result ≡ files_of d.now }
{
    match d {
        DeclKind::File { .. } => 1,
        _ => 0,
    }
}

// The cells of a file of so many records and fields. Memory where they are 2^64 or more.
fn cells_of_file(forlopp: bool, records: u32, fields: usize) -> Result<u64, Memory>
    ensures { IfOk result (λ cells. cells ≡ records * (fields + marks forlopp)) }
{
    let Some(cells) = (fields as u64).checked_add(u64::from(forlopp)) else {
        return Err(Memory);
    };
    match u64::from(records).checked_mul(cells) {
        Some(all) => Ok(all),
        None => Err(Memory),
    }
}

fn count_cells(kind: &DeclKind) -> Result<u64, Memory>
    ensures { IfOk result (λ cells. cells ≡ cells_of kind.now) }
{
    match kind {
        DeclKind::Variable { .. } => Ok(1),
        DeclKind::Temporary { .. } => Ok(0),
        DeclKind::File {
            forlopp,
            name: _,
            size,
            fields,
        } => cells_of_file(*forlopp, size.value, fields.len()),
    }
}

// The cells that a declaration takes.
fn push_cells(out: &mut Seq<Event<'_>>, d: &Decl) -> Result<(), Memory>
    ensures { OnOk result (out.new ≡ add d.now.line (note.Cells (cells_of d.now.kind)) out.old) }
{
    let count = count_cells(&d.kind)?;
    let line = d.line;
    push(out, PackedEvent::Cells { line, count })?;
    Ok(())
}

/// Those of a block's declarations.
#[tactic(auto, using(crate::proofs::BlockSteps::decls_begin, crate::proofs::BlockSteps::decls_step, crate::proofs::BlockSteps::decls_end))]
pub(crate) fn walk_decls<'a>(
    alloc: Global,
    decls: &'a [Decl],
    out: &mut Seq<Event<'a>>,
) -> Result<(), Memory>
    ensures { OnOk result (out.new ≡ decls_walk decls.now 0 0 0 out.old) }
{
    let mut variables: u32 = 0;
    let mut temporaries: u32 = 0;
    let mut files: u32 = 0;
    for d in decls {
        push_cells(out, d)?;
        walk_decl(alloc, &d.kind, variables, temporaries, files, out)?;
        variables = plus(variables, count_variables(&d.kind))?;
        temporaries = plus(temporaries, count_temporaries(&d.kind))?;
        files = plus(files, count_files(&d.kind))?;
    }
    Ok(())
}
