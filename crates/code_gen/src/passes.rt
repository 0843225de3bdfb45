// The code of a whole exchange, in two passes.
ghost use Rattle.std.specs.Prelude.{◌≡◌, ◌<◌, ◌^◌, ◌++◌, ◌∷◌, [], length, map, All, IfOk, OnOk};
ghost use Rattle.machine_code.specs.declared.op.Op.TheVariants as op;
ghost use Rattle.machine_code.specs.Operands.{OpFits};
ghost use Rattle.exchange_model.specs.declared.entry.Entry.{Entry as Point};
ghost use Rattle.store_layout.specs.Laid.{IsLayout};
ghost use Rattle.machine_meaning.specs.Faithful.{Faithful};
ghost use Rattle.stmt_code.specs.StmtCode.{codes, stmt_code};
ghost use Rattle.stmt_code.specs.Whole.{code_upto, entry_addresses, whole_code};
ghost use Rattle.code_gen.specs.Addresses.{addresses_by, addresses_from, enter_in, no_addresses};
ghost use Rattle.code_gen.specs.Addresses.{table_in};
ghost use Rattle.code_gen.specs.Settings.{AreIn, places_in};

use crate::addresses::{Addresses, address_after};
use crate::setting::{Setting, Spot};
use crate::text::emit_kind;
use code_forms::prepared_code;
use exchange_model::{Exchange, Stmt};
use machine_code::{Code, Op};
use plex_num::{Memory, Seq};
use std::alloc::Global;
use stmt_code::whole_code_is_faithful;
use store_layout::Layout;

/// The code of an exchange, which is faithful: the machine's run of a job leaves what the job
/// means. Each of its operands is in its range. `Memory` comes where memory is refused, and where
/// the code would have 2^32 instructions or more.
pub fn compile(alloc: Global, exchange: &Exchange, layout: &Layout) -> Result<Code, Memory>
    requires { IsLayout exchange.now.blocks layout.now }
    ensures ops { IfOk result (λ code. code.ops ≡ whole_code exchange.now) }
    ensures entries { IfOk result (λ code. code.entries ≡ entry_addresses exchange.now) }
    ensures short { IfOk result (λ code. length code.ops < 2 ^ 32) }
    ensures operands { IfOk result (λ code. All OpFits code.ops) }
    ensures faithful { IfOk result (λ code. Faithful exchange.now code) }
{
    let addresses = addresses_of(alloc, exchange, layout)?;
    let pass = emit_blocks(alloc, exchange, layout, &addresses)?;
    let entries = entries_of(alloc, exchange, layout, &addresses)?;
    let mut ops = pass.ops;
    ops.push(Op::End)?;
    check_length(&ops)?;
    let code = prepared_code(alloc, ops, entries)?;
    whole_code_is_faithful(exchange, &code);
    Ok(code)
}

/// The addresses of the places of all texts, which are those of the code that is made with none.
/// That code is let go.
fn addresses_of(alloc: Global, exchange: &Exchange, layout: &Layout) -> Result<Addresses, Memory>
    requires { IsLayout exchange.now.blocks layout.now }
    ensures { IfOk result
        (λ a. a ≡ addresses_by exchange.now (table_in exchange.now no_addresses)) }
{
    let none = Addresses {
        blocks: Seq::new(alloc),
        end: 0,
    };
    let pass = emit_blocks(alloc, exchange, layout, &none)?;
    Ok(pass.addresses)
}

/// Refuses a list of 2^32 instructions or more.
fn check_length(ops: &Seq<Op>) -> Result<(), Memory>
    ensures { OnOk result (length ops.now < 2 ^ 32) }
{
    match u32::try_from(ops.len()) {
        Ok(_) => Ok(()),
        Err(_) => Err(Memory),
    }
}

/// The code of all blocks, and the addresses of the places of their texts.
#[derive(Drop)]
struct Pass {
    ops: Seq<Op>,
    addresses: Addresses,
}

/// The code of all blocks, made with these addresses, and the addresses that it has.
#[tactic(auto, using(crate::proofs::PassSteps::pass_ops, crate::proofs::PassSteps::pass_addresses))]
fn emit_blocks(
    alloc: Global,
    exchange: &Exchange,
    layout: &Layout,
    addresses: &Addresses,
) -> Result<Pass, Memory>
    requires { IsLayout exchange.now.blocks layout.now }
    ensures ops { IfOk result
        (λ p. p.ops ≡ code_upto exchange.now (table_in exchange.now addresses.now)
        (length exchange.now.blocks)) }
    ensures addresses { IfOk result
        (λ p. p.addresses ≡ addresses_by exchange.now (table_in exchange.now addresses.now)) }
{
    exchange.kept();
    let mut ops = Seq::new(alloc);
    let mut blocks = Seq::new(alloc);
    for (number, block) in exchange.blocks.as_slice().iter().enumerate() {
        let at = Setting {
            exchange,
            layout,
            addresses,
            block: number as u32,
        };
        let places = emit_text(alloc, &block.body, &at, &mut ops)?;
        blocks.push(places)?;
    }
    let end = address_of(&ops)?;
    Ok(Pass {
        ops,
        addresses: Addresses { blocks, end },
    })
}

/// Appends the code of a block's text and the end behind it, and gives the addresses of the text's
/// places.
#[tactic(auto, using(crate::proofs::PassSteps::text_begin, crate::proofs::PassSteps::text_code, crate::proofs::PassSteps::text_places))]
fn emit_text(
    alloc: Global,
    text: &Seq<Stmt>,
    at: &Setting<'_>,
    ops: &mut Seq<Op>,
) -> Result<Seq<u32>, Memory>
    requires { AreIn at.now 0 text.now }
    ensures code { IfOk result
        (λ _. ops.new ≡ ops.old
        ++ (codes (map stmt_code text.now) (places_in at.now) 0 (length ops.old) ++ op.End ∷ [])) }
    ensures places { IfOk result
        (λ places. places
        ≡ addresses_from (map stmt_code text.now) (places_in at.now) (length ops.old)) }
{
    let mut places = Seq::new(alloc);
    for statement in text.as_slice() {
        let start = address_of(ops)?;
        places.push(start)?;
        let spot = Spot {
            point: statement.point,
            loops: 0,
            start,
        };
        emit_kind(alloc, &statement.kind, at, spot, ops)?;
    }
    let end = address_of(ops)?;
    places.push(end)?;
    ops.push(Op::End)?;
    Ok(places)
}

/// The address behind all these instructions.
fn address_of(ops: &Seq<Op>) -> Result<u32, Memory>
    ensures { IfOk result (λ a. a ≡ length ops.now) }
{
    address_after(0, ops.len(), 0)
}

/// The address of each entry.
#[tactic(auto, using(crate::proofs::PassSteps::entries_begin, crate::proofs::PassSteps::entries_end))]
fn entries_of(
    alloc: Global,
    exchange: &Exchange,
    layout: &Layout,
    addresses: &Addresses,
) -> Result<Seq<u32>, Memory>
    ensures { IfOk result (λ list. list ≡ map
        (λ (e : Point). enter_in exchange.now addresses.now e.block e.signal)
        exchange.now.entries) }
{
    let at = Setting {
        exchange,
        layout,
        addresses,
        block: 0,
    };
    let mut list = Seq::new(alloc);
    for entry in exchange.entries() {
        list.push(at.enter(entry.block, entry.signal)?)?;
    }
    Ok(list)
}
