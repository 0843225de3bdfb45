// The variables and fields that two lists have.
ghost use Rattle.std.specs.Prelude.{◌≡◌, IfOk, length, nat_eq, ◌&&◌};
ghost use Rattle.std.specs.List.{filter};
ghost use Rattle.std.specs.List.Sorted.{IsStrictlySortedBy};
ghost use Rattle.std.specs.Ordering.{nat_cmp};
ghost use Rattle.additions_meaning.specs.Lists.{AreOfBoth};
ghost use Rattle.entry_additions.specs.Added.{AreRising, targets};
ghost use Rattle.addition_pairs.specs.Sparing.{HasBoth, is_in as is_in_list};
ghost use Rattle.addition_pairs.specs.Sparing.{is_nothing as is_nothing_in};

use entry_additions::{Added, is_among};
use plex_num::{Memory, Seq};
use std::alloc::{AllocError, Global};

/// The variables and the fields that two lists have, rising. Memory is the only reason for an
/// error.
pub(crate) fn shared_of(alloc: Global, first: &Added, later: &Added) -> Result<Added, Memory>
    requires first { AreRising first.now }
    requires later { AreRising later.now }
    ensures shared { IfOk result
        (λ shared. AreOfBoth (targets first.now) (targets later.now) (targets shared)) }
    ensures rising { IfOk result AreRising }
{
    let variables = both(
        alloc,
        first.variables.as_slice(),
        later.variables.as_slice(),
    )?;
    let fields = both(alloc, first.fields.as_slice(), later.fields.as_slice())?;
    Ok(Added { variables, fields })
}

/// The numbers that two lists have, which are in order; so is this one.
fn both(alloc: Global, first: &[u32], later: &[u32]) -> Result<Seq<u32>, Memory>
    requires first { IsStrictlySortedBy nat_cmp first.now }
    requires later { IsStrictlySortedBy nat_cmp later.now }
    ensures both { IfOk result (HasBoth first.now later.now) }
    ensures rising { IfOk result (IsStrictlySortedBy nat_cmp) }
{
    match in_both(alloc, first, later) {
        Ok(numbers) => Ok(Seq::from_vec(numbers)),
        Err(_) => Err(Memory),
    }
}

fn in_both(alloc: Global, first: &[u32], later: &[u32]) -> Result<Vec<u32>, AllocError>
    requires { IsStrictlySortedBy nat_cmp later.now }
    ensures { IfOk result (λ numbers. numbers.items ≡ filter (is_in_list later.now) first.now) }
{
    first
        .iter()
        .filter(|number| is_in(later, **number))
        .copied()
        .collect(alloc)
}

/// Whether a number is among these, which are in order.
pub(crate) fn is_in(numbers: &[u32], number: u32) -> bool
    requires { IsStrictlySortedBy nat_cmp numbers.now }
    ensures { result ≡ is_in_list numbers.now number }
{
    is_among(numbers, number)
}

/// Whether these are no variables and no fields.
pub(crate) fn is_nothing(added: &Added) -> bool
    ensures { result ≡ is_nothing_in (targets added.now) }
{
    (added.variables.len() == 0) & (added.fields.len() == 0)
}
