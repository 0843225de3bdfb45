// The fields of the files of which records are freed.
ghost use Rattle.std.specs.Prelude.{◌≡◌, ◌↔◌, ◌⊎◌, ◌-◌, ◌≤◌, ◌++◌, map, true, IfOk, OnOk};
ghost use Rattle.std.specs.List.{Contains, range_with_len};
ghost use Rattle.std.specs.List.Sorted.{IsStrictlySortedBy};
ghost use Rattle.entry_summary.specs.Orders.{access_order};
ghost use Rattle.entry_summary.specs.declared.summary.Access.{Access as AccessType};
ghost use Rattle.entry_summary.specs.declared.summary.Access.TheVariants.{Own};
ghost use Rattle.entry_accesses.specs.Adding.{Adds, OneGives};
ghost use Rattle.entry_accesses.specs.Numbered.{AreNumbers};
ghost use Rattle.entry_accesses.specs.Opening.{OpenedBy, Opens};

use crate::numbers::CellNumbers;
use crate::order::{copied, in_order};
use entry_summary::Access;
use exchange_model::Exchange;
use plex_num::{Memory, Seq};
use std::alloc::Global;

/// These accesses, and that the fields of each file are written of which they free records: in
/// order, each once. A file is looked at once, however many statements free records of it.
pub fn with_opened(
    alloc: Global,
    exchange: &Exchange,
    numbers: &CellNumbers,
    found: Seq<Access>,
) -> Result<Seq<Access>, Memory>
    requires { AreNumbers exchange.now numbers.now }
    ensures whole { IfOk result (λ all. (a : AccessType) → Contains all a
        ↔ (Contains found a ⊎ OneGives (OpenedBy exchange.now) found a)) }
    ensures rising { IfOk result (IsStrictlySortedBy access_order) }
{
    let direct = in_order(found);
    let mut all = copied(alloc, direct.as_slice())?;
    push_opened(exchange, numbers, direct.as_slice(), &mut all)?;
    Ok(in_order(all))
}

/// Appends the fields that these accesses open.
fn push_opened(
    exchange: &Exchange,
    numbers: &CellNumbers,
    accesses: &[Access],
    all: &mut Seq<Access>,
) -> Result<(), Memory>
    requires { AreNumbers exchange.now numbers.now }
    ensures { OnOk result
        (Adds all.old all.new (OneGives (OpenedBy exchange.now) accesses.now)) }
{
    for access in accesses {
        push_if_freed(exchange, numbers, *access, all)?;
    }
    Ok(())
}

#[tactic(auto, using(crate::proofs::Opened::opens_nothing))]
fn push_if_freed(
    exchange: &Exchange,
    numbers: &CellNumbers,
    access: Access,
    all: &mut Seq<Access>,
) -> Result<(), Memory>
    requires { AreNumbers exchange.now numbers.now }
    ensures { OnOk result (Adds all.old all.new (OpenedBy exchange.now access)) }
{
    match access {
        Access::Frees { file } => push_fields(exchange, numbers, file, all)?,
        _ => {}
    }
    Ok(())
}

/// Appends that all fields of a file are written, each in a record that the job holds.
#[tactic(auto, using(crate::proofs::Opened::opens_nowhere))]
fn push_fields(
    exchange: &Exchange,
    numbers: &CellNumbers,
    file: u32,
    all: &mut Seq<Access>,
) -> Result<(), Memory>
    requires { AreNumbers exchange.now numbers.now }
    ensures { OnOk result (Adds all.old all.new (Opens exchange.now file)) }
{
    exchange.kept();
    let Some(found) = exchange.file(file) else {
        return Ok(());
    };
    let first = numbers.field(file, 0);
    let end = first + found.file.fields.len() as u32;
    push_written(first, end, all)?;
    Ok(())
}

/// Appends that the fields of these numbers are written.
#[tactic(auto, using(crate::proofs::Opened::written_begin))]
fn push_written(first: u32, end: u32, all: &mut Seq<Access>) -> Result<(), Memory>
    requires { first ≤ end }
    ensures { OnOk result (all.new ≡ all.old
        ++ map (λ n. Own true n) (range_with_len first (end - first))) }
{
    for number in first..end {
        all.push(Access::Own {
            write: true,
            number,
        })?;
    }
    Ok(())
}
