// Accesses in order.
ghost use Rattle.std.specs.Prelude.{◌≡◌, ◌↔◌, IfOk};
ghost use Rattle.std.specs.List.{Contains};
ghost use Rattle.std.specs.List.Sorted.{IsStrictlySortedBy};
ghost use Rattle.entry_summary.specs.Orders.{access_order};
ghost use Rattle.entry_summary.specs.declared.summary.Access.{Access as AccessType};

use entry_summary::Access;
use plex_num::{Memory, Seq};
use std::alloc::Global;

/// These accesses in order, each once.
pub fn in_order(found: Seq<Access>) -> Seq<Access>
    ensures same { (a : AccessType) → Contains result a ↔ Contains found a }
    ensures rising { IsStrictlySortedBy access_order result }
{
    let mut accesses = found.into_vec();
    accesses.sort_unstable();
    accesses.dedup();
    Seq::from_vec(accesses)
}

/// These accesses, in a list that has no room for more.
pub fn copied(alloc: Global, accesses: &[Access]) -> Result<Seq<Access>, Memory>
    ensures { IfOk result (λ copy. copy ≡ accesses.now) }
{
    let mut copy = Seq::with_capacity(alloc, accesses.len())?;
    copy.push_all(accesses)?;
    Ok(copy)
}
