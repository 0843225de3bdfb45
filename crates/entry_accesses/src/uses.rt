// What statements do to stored data, before facts tell which records pointers mean.
ghost use Rattle.std.specs.Prelude.{◌≡◌, ◌++◌, ◌∷◌, [], false, map, true, OnOk, slice_get};
ghost use Rattle.std.specs.List.{AllByRecursion};
ghost use Rattle.exchange_model.specs.declared.stmt.StmtKind.{out-StmtKind};
ghost use Rattle.source_meaning.specs.Config.{files_of};
ghost use Rattle.source_meaning.specs.Deeds.{receiver_in};
ghost use Rattle.source_meaning.specs.Rests.{IsOfBlock};
ghost use Rattle.flow_points.specs.declared.fact.Value.TheVariants as value;
ghost use Rattle.flow_points.specs.declared.flow.Source.TheVariants as source;
ghost use Rattle.entry_accesses.specs.declared.uses.Use.TheVariants as use_of;
ghost use Rattle.entry_accesses.specs.Numbered.{AreNumbers, IsNumbered};
ghost use Rattle.entry_accesses.specs.Operands.{named};
ghost use Rattle.entry_accesses.specs.Uses.{done_uses, field_use as field_use_of, field_uses};
ghost use Rattle.entry_accesses.specs.Uses.{holder_uses, layer_uses, named_uses, read_uses};

use crate::numbers::CellNumbers;
use crate::operands::{Operand, push_layer};
use exchange_model::{Exchange, Holder, Receiver, StmtKind};
use flow_points::{Slot, Source, Value};
use plex_num::{Memory, Seq};
use std::alloc::Global;

/// What a statement does to stored data, where facts have not yet told the values of pointers.
/// Variables, fields and files are numbered through the exchange. The fields that FREE opens are
/// told by the file of which it frees a record.
#[derive(Clone, Copy, PartialEq, Eq, PartialOrd, Ord)]
pub enum Use {
    Variable {
        write: bool,
        number: u32,
    },
    /// A field of a plain file, in the records whose numbers come from the source.
    Field {
        write: bool,
        number: u32,
        selector: Source,
    },
    /// A field of a forlopp file.
    Own {
        write: bool,
        number: u32,
    },
    Seizes {
        file: u32,
    },
    Frees {
        file: u32,
    },
}

/// A block of an exchange, and the numbers of the exchange's variables and fields.
#[derive(Clone, Copy)]
pub struct NumberedBlock<'a> {
    pub exchange: &'a Exchange,
    pub numbers: &'a CellNumbers,
    pub block: u32,
}

/// Appends all that a statement of a block does, but for the fields that FREE opens.
pub fn push_uses(
    alloc: Global,
    here: &NumberedBlock<'_>,
    kind: &StmtKind,
    uses: &mut Seq<Use>,
) -> Result<(), Memory>
    requires of_block { IsOfBlock here.now.exchange.now here.now.block (out-StmtKind kind.now) }
    requires numbers { AreNumbers here.now.exchange.now here.now.numbers.now }
    ensures { OnOk result (uses.new ≡ uses.old
        ++ layer_uses here.now.exchange.now here.now.block (out-StmtKind kind.now)) }
{
    here.exchange.kept();
    let mut names = Seq::new(alloc);
    push_layer(kind, &mut names)?;
    push_reads(here, names.as_slice(), uses)?;
    push_held(here, kind, uses)?;
    push_done(here, kind, uses)?;
    Ok(())
}

/// Appends that these are read.
#[tactic(auto, using(crate::proofs::Using::reads_begin))]
fn push_reads(
    here: &NumberedBlock<'_>,
    names: &[Operand],
    uses: &mut Seq<Use>,
) -> Result<(), Memory>
    requires numbered { AllByRecursion (IsNumbered here.now.exchange.now here.now.block)
        (map named names.now) }
    requires numbers { AreNumbers here.now.exchange.now here.now.numbers.now }
    ensures { OnOk result (uses.new ≡ uses.old
        ++ read_uses here.now.exchange.now here.now.block (map named names.now)) }
{
    for name in names {
        push_operand(here, *name, false, uses)?;
    }
    Ok(())
}

/// Appends that what a block names is read or written.
fn push_operand(
    here: &NumberedBlock<'_>,
    operand: Operand,
    write: bool,
    uses: &mut Seq<Use>,
) -> Result<(), Memory>
    requires numbered { IsNumbered here.now.exchange.now here.now.block (named operand) }
    requires numbers { AreNumbers here.now.exchange.now here.now.numbers.now }
    ensures { OnOk result (uses.new ≡ uses.old
        ++ named_uses here.now.exchange.now here.now.block write (named operand)) }
{
    match operand {
        Operand::Variable(variable) => {
            let number = here.numbers.variable(here.block, variable);
            uses.push(Use::Variable { write, number })?;
        }
        Operand::Field {
            file,
            field,
            pointer,
        } => {
            let number = here.numbers.field(file, field);
            push_field(here.exchange, file, write, number, pointer, uses)?;
        }
    }
    Ok(())
}

/// Appends that a field of a file, by its number through the exchange, is read or written.
#[tactic(auto, using(crate::proofs::Using::field_nowhere))]
fn push_field(
    exchange: &Exchange,
    file: u32,
    write: bool,
    number: u32,
    pointer: u8,
    uses: &mut Seq<Use>,
) -> Result<(), Memory>
    ensures { OnOk result (uses.new ≡ uses.old
        ++ field_uses (slice_get (files_of exchange.now) file) write number pointer) }
{
    let Some(found) = exchange.file(file) else {
        return Ok(());
    };
    uses.push(field_use(found.file.forlopp, write, number, pointer))?;
    Ok(())
}

fn field_use(forlopp: bool, write: bool, number: u32, pointer: u8) -> Use
    ensures { result ≡ field_use_of forlopp write number pointer }
{
    if forlopp {
        return Use::Own { write, number };
    }
    Use::Field {
        write,
        number,
        selector: Source::Of(Slot::Temp(pointer)),
    }
}

/// Appends that a statement reads the variable in which the reference to its receiver is held, if
/// it does.
fn push_held(here: &NumberedBlock<'_>, kind: &StmtKind, uses: &mut Seq<Use>) -> Result<(), Memory>
    requires of_block { IsOfBlock here.now.exchange.now here.now.block (out-StmtKind kind.now) }
    requires numbers { AreNumbers here.now.exchange.now here.now.numbers.now }
    ensures { OnOk result (uses.new ≡ uses.old
        ++ holder_uses here.now.exchange.now here.now.block (receiver_in (out-StmtKind kind.now))) }
{
    here.exchange.kept();
    if let Some(Receiver::Held(Holder::Variable(variable))) = receiver_of(kind) {
        let holder = Operand::Variable(variable);
        push_operand(here, holder, false, uses)?;
    }
    Ok(())
}

/// The receiver of a SEND or a TRANSFER; `None` of any other statement.
fn receiver_of(kind: &StmtKind) -> Option<Receiver>
    ensures { result ≡ receiver_in (out-StmtKind kind.now) }
{
    match kind {
        StmtKind::Send { to, .. } => *to,
        StmtKind::Transfer { to, .. } => *to,
        _ => None,
    }
}

/// Appends what a statement does besides reading: that it writes, searches, seizes or frees.
fn push_done(here: &NumberedBlock<'_>, kind: &StmtKind, uses: &mut Seq<Use>) -> Result<(), Memory>
    requires of_block { IsOfBlock here.now.exchange.now here.now.block (out-StmtKind kind.now) }
    requires numbers { AreNumbers here.now.exchange.now here.now.numbers.now }
    ensures { OnOk result (uses.new ≡ uses.old
        ++ done_uses here.now.exchange.now here.now.block (out-StmtKind kind.now)) }
{
    here.exchange.kept();
    match kind {
        StmtKind::SetVariable { variable, .. } => {
            let variable = Operand::Variable(*variable);
            push_operand(here, variable, true, uses)?;
        }
        StmtKind::SetField {
            file,
            field,
            pointer,
            ..
        } => {
            let field = Operand::Field {
                file: *file,
                field: *field,
                pointer: *pointer,
            };
            push_operand(here, field, true, uses)?;
        }
        StmtKind::ForFirst { file, field, .. } => {
            let number = here.numbers.field(*file, *field);
            push_search(number, uses)?;
        }
        StmtKind::Seize { file, .. } => uses.push(Use::Seizes { file: *file })?,
        StmtKind::Free { file, .. } => uses.push(Use::Frees { file: *file })?,
        _ => {}
    }
    Ok(())
}

/// Appends that a field of some record of its file is read.
fn push_search(number: u32, uses: &mut Seq<Use>) -> Result<(), Memory>
    ensures { OnOk result (uses.new ≡ uses.old
        ++ use_of.Field false number (source.Is value.Any) ∷ []) }
{
    uses.push(Use::Field {
        write: false,
        number,
        selector: Source::Is(Value::Any),
    })
}
