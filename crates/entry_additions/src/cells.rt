// The accesses of a summary to variables and to fields of plain files.
ghost use Rattle.std.specs.Prelude.{◌≡◌, IfOk};
ghost use Rattle.std.specs.List.{filter};
ghost use Rattle.entry_additions.specs.Cells.{HasCells, field_of as field_of_access};
ghost use Rattle.entry_additions.specs.Cells.{is_cell_access, is_of_fields as is_fields_kind};
ghost use Rattle.entry_additions.specs.Cells.{is_of_variables as is_variables_kind};
ghost use Rattle.entry_additions.specs.Cells.{listed_by as listed_by_access};
ghost use Rattle.entry_additions.specs.Cells.{number_in as number_in_access};
ghost use Rattle.entry_additions.specs.Cells.{variable_of as variable_of_access, written_by};

use entry_summary::{Access, Summary};
use plex_num::{Memory, Seq};
use std::alloc::{AllocError, Global};

/// A kind of cell that can be added to: a variable, or a field of a plain file.
#[derive(Clone, Copy)]
pub enum CellKind {
    Variable,
    Field,
}

/// A summary with only those accesses of the given one that concern variables and fields of plain
/// files.
pub(crate) fn cells_in(alloc: Global, summary: &Summary) -> Result<Summary, Memory>
    ensures { IfOk result (λ some. HasCells summary.now.accesses some.accesses) }
{
    let accesses = match kept(alloc, summary.accesses.as_slice()) {
        Ok(kept) => Seq::from_vec(kept),
        Err(_) => return Err(Memory),
    };
    Ok(Summary {
        level: summary.level,
        accesses,
        levels: Seq::new(alloc),
        fault: false,
    })
}

fn kept(alloc: Global, accesses: &[Access]) -> Result<Vec<Access>, AllocError>
    ensures { IfOk result (λ kept. kept.items ≡ filter is_cell_access accesses.now) }
{
    accesses
        .iter()
        .filter(|access| is_cell(**access))
        .copied()
        .collect(alloc)
}

fn is_cell(access: Access) -> bool
    ensures { result ≡ is_cell_access access }
{
    match access {
        Access::Variable { .. } => true,
        Access::Field { .. } => true,
        _ => false,
    }
}

pub(crate) fn is_of_variables(kind: CellKind) -> bool
    ensures { result ≡ is_variables_kind kind }
{
    match kind {
        CellKind::Variable => true,
        CellKind::Field => false,
    }
}

pub(crate) fn is_of_fields(kind: CellKind) -> bool
    ensures { result ≡ is_fields_kind kind }
{
    match kind {
        CellKind::Variable => false,
        CellKind::Field => true,
    }
}

/// The number of the variable or field that an access concerns, if it is of this kind.
pub(crate) fn number_in(kind: CellKind, access: Access) -> Option<u32>
    ensures { result ≡ number_in_access kind access }
{
    match kind {
        CellKind::Variable => variable_of(access),
        CellKind::Field => field_of(access),
    }
}

/// The number of the variable that an access writes, or of the field that it concerns.
pub(crate) fn listed_by(kind: CellKind, access: Access) -> Option<u32>
    ensures { result ≡ listed_by_access kind access }
{
    match kind {
        CellKind::Variable => written(access),
        CellKind::Field => field_of(access),
    }
}

fn variable_of(access: Access) -> Option<u32>
    ensures { result ≡ variable_of_access access }
{
    match access {
        Access::Variable { number, .. } => Some(number),
        _ => None,
    }
}

fn field_of(access: Access) -> Option<u32>
    ensures { result ≡ field_of_access access }
{
    match access {
        Access::Field { number, .. } => Some(number),
        _ => None,
    }
}

/// The variable that an access writes, if it writes one.
fn written(access: Access) -> Option<u32>
    ensures { result ≡ written_by access }
{
    match access {
        Access::Variable { write, number } => { if write { Some(number) } else { None } }
        _ => None,
    }
}
