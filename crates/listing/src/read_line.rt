// One line between the first and the last, from its text.
ghost use Rattle.std.specs.Prelude.{◌≡◌, ◌≢◌, ◌<◌, ◌^◌, Bool};
ghost use Rattle.name_tables.specs.Names.{operation_names};
ghost use Rattle.name_tables.specs.Rows.{names_of};
ghost use Rattle.listing.specs.Listing.{last_line};
ghost use Rattle.listing.specs.Statements.{ReadsAddress, ReadsNamed, ReadsParts, ReadsStatement};

use crate::fault::LineFault;
use crate::parts::{name_and_words, operands};
use crate::rows::op_at;
use crate::statement::Statement;
use machine_code::Op;
use name_tables::{Row, find};

/// What a line that is not the last says behind so many entries. Another entry may stand there only
/// if no instruction does yet.
pub fn statement(
    line: &[u8],
    entries: usize,
    at_entries: bool,
    table: &[Row; 38],
) -> Result<Statement, LineFault>
    requires table { names_of table.now ≡ operation_names }
    requires few { entries < 2 ^ 32 }
    requires other { line.now ≢ last_line }
    ensures { ReadsStatement entries at_entries line.now result }
{
    let (name, words) = name_and_words(line);
    let Some(operands) = operands(words) else {
        return Err(LineFault::Form);
    };
    named(name, operands.as_slice(), entries, at_entries, table)
}

/// What a name and operands say.
fn named(
    name: &[u8],
    operands: &[Option<u32>],
    entries: usize,
    at_entries: bool,
    table: &[Row; 38],
) -> Result<Statement, LineFault>
    requires { names_of table.now ≡ operation_names }
    ensures { ReadsParts entries at_entries name.now operands.now result }
{
    if name == b"ENTRY".as_slice() {
        if !at_entries {
            return Err(LineFault::Form);
        }
        match address(operands, entries) {
            Ok(address) => Ok(Statement::Entry(address)),
            Err(fault) => Err(fault),
        }
    } else {
        match instruction(name, operands, table) {
            Ok(op) => Ok(Statement::Instruction(op)),
            Err(fault) => Err(fault),
        }
    }
}

/// The address of the entry of this number.
fn address(operands: &[Option<u32>], number: usize) -> Result<u32, LineFault>
    ensures { ReadsAddress number operands.now result }
{
    match operands {
        [Some(i), Some(address)] if *i as usize == number => Ok(*address),
        [Some(i), None] if *i as usize == number => Err(LineFault::Operand),
        _ => Err(LineFault::Form),
    }
}

/// The instruction of this name with these operands.
#[tactic(auto, using(crate::proofs::Named::named_none, crate::proofs::Named::named_some))]
fn instruction(name: &[u8], operands: &[Option<u32>], table: &[Row; 38]) -> Result<Op, LineFault>
    requires { names_of table.now ≡ operation_names }
    ensures { ReadsNamed name.now operands.now result }
{
    match find(table, name) {
        Some(place) => op_at(place, operands),
        None => Err(LineFault::Form),
    }
}
