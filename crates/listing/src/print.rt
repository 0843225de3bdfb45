// Code as text.
ghost use Rattle.std.specs.Prelude.{◌≡◌, ◌++◌, ◌<◌, ◌^◌, All, IfOk, OnOk, length, map};
ghost use Rattle.std.specs.List.{flat_map};
ghost use Rattle.name_tables.specs.Names.{operation_names};
ghost use Rattle.name_tables.specs.Rows.{names_of};
ghost use Rattle.machine_code.specs.Operands.{IsNumber, OpFits};
ghost use Rattle.listing.specs.Listing.{IsListing, code_text, entry_line, entry_lines, op_line};
ghost use Rattle.text_lines.specs.Lines.{ended};

use crate::print_line::add_line;
use crate::rows::add_row_of;
use machine_code::{Code, Op};
use name_tables::{Row, operations};
use plex_num::{Memory, Seq};
use std::alloc::Global;

/// The listing of code whose operands are in their ranges. It fails only where memory is refused.
pub fn print_code(alloc: Global, code: &Code) -> Result<Seq<u8>, Memory>
    requires { All OpFits code.now.ops }
    ensures { IfOk result (λ text. IsListing text code.now) }
{
    listing(alloc, code.entries(), code.ops())
}

/// The listing of these entries and instructions.
fn listing(alloc: Global, entries: &[u32], ops: &[Op]) -> Result<Seq<u8>, Memory>
    ensures told { IfOk result (λ text.
        text ≡ code_text (record { entries = entries.now; ops = ops.now })) }
    ensures numbers { OnOk result (All IsNumber entries.now) }
    ensures few { OnOk result (length entries.now < 2 ^ 64) }
{
    let mut text = Seq::new(alloc);
    text.append(b"PLEX CODE 1\n")?;
    add_entries(&mut text, entries)?;
    add_ops(&mut text, ops)?;
    text.append(b"END CODE\n")?;
    Ok(text)
}

/// The lines of the entries.
#[tactic(auto, using(crate::proofs::Printed::told_begin, crate::proofs::Printed::told_more, crate::proofs::Printed::told_end))]
fn add_entries(text: &mut Seq<u8>, entries: &[u32]) -> Result<(), Memory>
    ensures numbers { OnOk result (All IsNumber entries.now) }
    ensures few { OnOk result (length entries.now < 2 ^ 64) }
    ensures told { OnOk result (text.new ≡ text.old ++ flat_map ended (entry_lines 0 entries.now)) }
{
    for (i, address) in entries.iter().enumerate() {
        add_entry(text, i, *address)?;
    }
    Ok(())
}

/// The line of the entry i.
#[tactic(auto, unfolding(crate::specs::Listing::entry_line))]
fn add_entry(text: &mut Seq<u8>, i: usize, address: u32) -> Result<(), Memory>
    ensures { OnOk result (text.new ≡ text.old ++ ended (entry_line i address)) }
{
    add_line(text, b"ENTRY", &[i as u64, u64::from(address)])
}

/// The lines of the instructions.
fn add_ops(text: &mut Seq<u8>, ops: &[Op]) -> Result<(), Memory>
    ensures { OnOk result (text.new ≡ text.old ++ flat_map ended (map op_line ops.now)) }
{
    let table = operations();
    for op in ops {
        add_op(text, *op, &table)?;
    }
    Ok(())
}

/// The line of an instruction.
fn add_op(text: &mut Seq<u8>, op: Op, table: &[Row; 38]) -> Result<(), Memory>
    requires { names_of table.now ≡ operation_names }
    ensures { OnOk result (text.new ≡ text.old ++ ended (op_line op)) }
{
    add_row_of(text, op, table)
}
