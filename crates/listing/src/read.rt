// Text as code.
ghost use Rattle.std.specs.Prelude.{◌≡◌, ◌≤◌, ◌^◌, ℕ, Ok, Err, OnOk, length};
ghost use Rattle.listing.specs.Faults.{HasBadLine, HasBadOperand, IsUnlessMemory, TellsListing};
ghost use Rattle.listing.specs.Listing.{IsListing, first_line};
ghost use Rattle.listing.specs.Statements.{AddsStatement};
ghost use Rattle.machine_code.specs.Coded.{Code};
ghost use Rattle.text_lines.specs.Parts.{IsCut};

use crate::fault::ListFault;
use crate::read_line::statement;
use crate::statement::Statement;
use code_forms::prepared_code;
use machine_code::{Code, Op};
use name_tables::operations;
use plex_num::{Memory, Seq};
use std::alloc::Global;
use text_lines::cut;

/// The code whose listing is this text of at most 16 MiB; else the first line that is not of the
/// form of a listing, `BadLine`, or has an operand out of its range, `BadOperand`. A text that ends
/// too early is bad at the line after its last.
pub fn read_code(alloc: Global, text: &[u8]) -> Result<Code, ListFault>
    requires { length text.now ≤ 2 ^ 24 }
    ensures told { TellsListing text.now result }
    ensures listing { (code : Code) → IsListing text.now code → IsUnlessMemory result (Ok code) }
    ensures bad_line { (l : ℕ) → HasBadLine text.now l →
        IsUnlessMemory result (Err (ListFault.BadLine l)) }
    ensures bad_operand { (l : ℕ) → HasBadOperand text.now l →
        IsUnlessMemory result (Err (ListFault.BadOperand l)) }
{
    read_text(alloc, text)
}

/// The same, told once.
fn read_text(alloc: Global, text: &[u8]) -> Result<Code, ListFault>
    requires { length text.now ≤ 2 ^ 24 }
    ensures { TellsListing text.now result }
{
    let Some((line, rest)) = cut(text, b'\n') else {
        return Err(ListFault::BadLine { line: 1 });
    };
    if line == b"PLEX CODE 1".as_slice() {
        read_lines(alloc, text, rest)
    } else {
        Err(ListFault::BadLine { line: 1 })
    }
}

/// The same of a text that goes on with these bytes behind its first line.
fn read_lines(alloc: Global, text: &[u8], rest: &[u8]) -> Result<Code, ListFault>
    requires begun { IsCut 10 text.now first_line rest.now }
    requires small { length text.now ≤ 2 ^ 24 }
    ensures { TellsListing text.now result }
{
    let table = operations();
    let mut ops = Seq::new(alloc);
    let mut entries = Seq::new(alloc);
    // how many lines have been read
    let mut number: u32 = 1;
    let mut rest = rest;
    while let Some((line, after)) = cut(rest, b'\n') {
        if line == b"END CODE".as_slice() {
            return if after.is_empty() {
                code_of(alloc, ops, entries)
            } else {
                Err(ListFault::BadLine { line: number + 2 })
            };
        }
        match statement(line, entries.len(), ops.len() == 0, &table) {
            Ok(said) => add(said, &mut ops, &mut entries)?,
            Err(fault) => return Err(fault.at(number + 1)),
        }
        number += 1;
        rest = after;
    }
    Err(ListFault::BadLine { line: number + 1 })
}

/// The code of what was read.
fn code_of(alloc: Global, ops: Seq<Op>, entries: Seq<u32>) -> Result<Code, ListFault>
    ensures { IsUnlessMemory result (Ok (record { ops = ops; entries = entries })) }
{
    match prepared_code(alloc, ops, entries) {
        Ok(code) => Ok(code),
        Err(_) => Err(ListFault::Memory),
    }
}

/// Adds an instruction or an entry.
fn add(said: Statement, ops: &mut Seq<Op>, entries: &mut Seq<u32>) -> Result<(), Memory>
    ensures { OnOk result (AddsStatement said ops.old entries.old ops.new entries.new) }
{
    match said {
        Statement::Entry(address) => entries.push(address),
        Statement::Instruction(op) => ops.push(op),
    }
}
