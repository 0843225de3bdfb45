// What is left of a summary to be looked at beside another one.
ghost use Rattle.std.specs.Prelude.{◌≡◌, ◌<◌, Some, length, slice_get, IfOk, OnOk};
ghost use Rattle.std.specs.List.Sorted.{IsStrictlySortedBy};
ghost use Rattle.entry_summary.specs.Orders.{access_order};
ghost use Rattle.entry_additions.specs.Added.{AreRising, targets};
ghost use Rattle.addition_pairs.specs.Sparing.{is_in as is_in_list, is_kept as is_kept_of};
ghost use Rattle.addition_pairs.specs.Left.{AreLeft, IsLeft, Leaves};

use crate::shared::is_in;
use conflict_rows::next_near;
use entry_additions::Added;
use entry_summary::{Access, Summary};
use plex_num::{Level, Memory, Seq};
use std::alloc::Global;

/// A summary without its accesses to these variables and fields, which are in order, and without
/// those that none of the other summary is near. Memory is the only reason for an error.
pub(crate) fn spare(
    alloc: Global,
    summary: &Summary,
    other: &Summary,
    spared: &Added,
) -> Result<Summary, Memory>
    requires { AreRising spared.now }
    ensures { IfOk result (IsLeft (targets spared.now) other.now.accesses summary.now) }
{
    let ones = summary.accesses.as_slice();
    let others = other.accesses.as_slice();
    let accesses = left(alloc, ones, others, spared)?;
    let levels = copied(alloc, summary.levels.as_slice())?;
    Ok(Summary {
        level: summary.level,
        accesses,
        levels,
        fault: summary.fault,
    })
}

/// These accesses but those to these variables and fields, and but those that none of the others is
/// near.
fn left(
    alloc: Global,
    ones: &[Access],
    others: &[Access],
    spared: &Added,
) -> Result<Seq<Access>, Memory>
    requires ones { IsStrictlySortedBy access_order ones.now }
    requires others { IsStrictlySortedBy access_order others.now }
    requires spared { AreRising spared.now }
    ensures left { IfOk result
        (AreLeft (targets spared.now) others.now ones.now (length ones.now)) }
    ensures rising { IfOk result (IsStrictlySortedBy access_order) }
{
    let mut kept = Seq::new(alloc);
    let mut place = next_near(ones, others, 0);
    while place < ones.len() {
        push_kept(at(ones, place), spared, &mut kept)?;
        place = next_near(ones, others, place + 1);
    }
    Ok(kept)
}

/// The access at a place.
fn at(accesses: &[Access], place: usize) -> Access
    requires { place < length accesses.now }
    ensures { slice_get accesses.now place ≡ Some result }
{
    accesses[place]
}

/// Appends an access, if it is to none of these variables and fields.
#[tactic(auto, using(crate::proofs::Leaving::one_kept, crate::proofs::Leaving::one_dropped))]
fn push_kept(access: Access, spared: &Added, kept: &mut Seq<Access>) -> Result<(), Memory>
    requires { AreRising spared.now }
    ensures { OnOk result (Leaves (targets spared.now) access kept.old kept.new) }
{
    if is_kept(access, spared) {
        return kept.push(access);
    }
    Ok(())
}

fn is_kept(access: Access, spared: &Added) -> bool
    requires { AreRising spared.now }
    ensures { result ≡ is_kept_of (targets spared.now) access }
{
    match access {
        Access::Variable { number, .. } => !has_variable(spared, number),
        Access::Field { number, .. } => !has_field(spared, number),
        _ => true,
    }
}

fn has_variable(spared: &Added, number: u32) -> bool
    requires { AreRising spared.now }
    ensures { result ≡ is_in_list spared.now.variables number }
{
    is_in(spared.variables.as_slice(), number)
}

fn has_field(spared: &Added, number: u32) -> bool
    requires { AreRising spared.now }
    ensures { result ≡ is_in_list spared.now.fields number }
{
    is_in(spared.fields.as_slice(), number)
}

/// The same levels.
fn copied(alloc: Global, levels: &[Level]) -> Result<Seq<Level>, Memory>
    ensures { IfOk result (λ copy. copy ≡ levels.now) }
{
    let mut copy = Seq::with_capacity(alloc, levels.len())?;
    copy.push_all(levels)?;
    Ok(copy)
}
