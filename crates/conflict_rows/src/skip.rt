// Which accesses of a list need no look, since none of another list is near them. In a list in
// order those of one kind stand side by side, by their numbers, so that they are passed at once.
ghost use Rattle.std.specs.Prelude.{◌≡◌, ◌≤◌, Some, false, length, slice_get};
ghost use Rattle.std.specs.List.Sorted.{IsStrictlySortedBy};
ghost use Rattle.std.specs.declared.cmp.Ordering.TheVariants.{Less};
ghost use Rattle.flow_points.specs.declared.fact.Value.TheVariants.{Arg};
ghost use Rattle.entry_summary.specs.declared.summary.Access.{Access as AccessType};
ghost use Rattle.entry_summary.specs.declared.summary.Access.TheVariants as access;
ghost use Rattle.entry_summary.specs.Orders.{access_order};
ghost use Rattle.pair_tests.specs.Asked.{asks};
ghost use Rattle.pair_tests.specs.declared.near.Bound.TheVariants.{Below};
ghost use Rattle.pair_tests.specs.Idle.{behind as behind_of, next_met as next_met_of};
ghost use Rattle.pair_tests.specs.Idle.{AreSo, IsIdle, IsPassed};
ghost use Rattle.pair_tests.specs.Nearby.{passes_reads as passes_reads_of, AreCounted};

use entry_summary::Access;
use flow_points::Value;
use pair_tests::near_access;

/// The first access of a field that there may be.
fn first_of_field(write: bool, number: u32) -> Access
    ensures { result ≡ access.Field write number (Arg 0) }
{
    Access::Field {
        write,
        number,
        selector: Value::Arg(0),
    }
}

fn behind_variables(write: bool) -> Access
    ensures { result ≡ behind_of (access.Variable write 0) }
{
    if write {
        first_of_field(false, 0)
    } else {
        Access::Variable {
            write: true,
            number: 0,
        }
    }
}

fn behind_fields(write: bool) -> Access
    ensures { result ≡ behind_of (access.Field write 0 (Arg 0)) }
{
    if write {
        Access::Own {
            write: false,
            number: 0,
        }
    } else {
        first_of_field(true, 0)
    }
}

/// The first access that there may be behind those of the kind of this one: it reads or writes
/// variables or fields, or is of own records. One that seizes or frees is told itself.
fn behind(one: Access) -> Access
    ensures { result ≡ behind_of one }
{
    match one {
        Access::Variable { write, .. } => behind_variables(write),
        Access::Field { write, .. } => behind_fields(write),
        Access::Own { .. } => Access::Seizes { file: 0 },
        _ => one,
    }
}

/// The first access of the kind of this one that is near the next one of the others, if that
/// writes, or does not, as is asked; else the one behind them. One of own records or of a file is
/// told itself.
fn next_met(one: Access, writes: bool, next: Option<Access>) -> Access
    ensures { result ≡ next_met_of one writes next }
{
    match one {
        Access::Variable { write, .. } => match next {
            Some(
                Access::Variable {
                    write: also,
                    number,
                },
            ) if also == writes => Access::Variable { write, number },
            _ => behind(one),
        },
        Access::Field { write, .. } => match next {
            Some(
                Access::Field {
                    write: also,
                    number,
                    ..
                },
            ) if also == writes => first_of_field(write, number),
            _ => behind(one),
        },
        _ => one,
    }
}

/// Whether an access has to do with none that reads: it reads itself, or it is of own records.
fn passes_reads(one: Access) -> bool
    ensures { result ≡ passes_reads_of one }
{
    match one {
        Access::Variable { write, .. } => !write,
        Access::Field { write, .. } => !write,
        Access::Own { .. } => true,
        _ => false,
    }
}

/// The access at a place, if there is one.
fn access_at(accesses: &[Access], place: usize) -> Option<Access>
    ensures { result ≡ slice_get accesses.now place }
{
    accesses.get(place).copied()
}

/// How many accesses come before this one, which are the first ones.
fn count_below(accesses: &[Access], bound: Access) -> usize
    requires { IsStrictlySortedBy access_order accesses.now }
    ensures { AreCounted (Below bound) accesses.now result }
{
    accesses.partition_point(|access| *access < bound)
}

/// The place behind those from this place on that come before a bound.
#[tactic(auto, using(pair_tests::proofs::Skipping::none_passed, pair_tests::proofs::Skipping::passed_below))]
fn passed(accesses: &[Access], bound: Access, place: usize) -> usize
    requires order { IsStrictlySortedBy access_order accesses.now }
    requires there { place ≤ length accesses.now }
    ensures { AreSo (λ (a : AccessType). access_order a bound ≡ Less) accesses.now place result }
{
    let Some(next) = access_at(accesses, place) else {
        return place;
    };
    if next >= bound {
        return place;
    }
    let count = count_below(accesses, bound);
    if count <= place {
        return place;
    }
    count
}

/// The place of the first access that is not of a variable; fields come next.
pub(crate) fn first_field(accesses: &[Access]) -> usize
    requires { IsStrictlySortedBy access_order accesses.now }
    ensures { AreSo (λ (a : AccessType). asks a ≡ false) accesses.now 0 result }
{
    passed(accesses, first_of_field(false, 0), 0)
}

/// The place behind those of the kind of this one, from its place on, that none of the others which
/// writes, or does not, is near.
fn apart_from(ones: &[Access], one: Access, place: usize, others: &[Access], writes: bool) -> usize
    requires ones { IsStrictlySortedBy access_order ones.now }
    requires others { IsStrictlySortedBy access_order others.now }
    requires at { slice_get ones.now place ≡ Some one }
    ensures { AreSo (IsPassed one writes others.now) ones.now place result }
{
    let low = near_access(one, writes, Value::Arg(0));
    let from = count_below(others, low);
    let next = access_at(others, from);
    passed(ones, next_met(one, writes, next), place)
}

/// The place behind those accesses from this place on that none of the others is near: they
/// conflict with none of them, and ask for no test with one. Either list may be that of the later
/// job.
#[tactic(auto, using(pair_tests::proofs::Skipping::none_passed))]
pub fn next_near(ones: &[Access], others: &[Access], place: usize) -> usize
    requires ones { IsStrictlySortedBy access_order ones.now }
    requires others { IsStrictlySortedBy access_order others.now }
    requires there { place ≤ length ones.now }
    ensures { AreSo (IsIdle others.now) ones.now place result }
{
    let Some(one) = access_at(ones, place) else {
        return place;
    };
    if let Access::Own { .. } = one {
        return passed(ones, behind(one), place);
    }
    let writes = apart_from(ones, one, place, others, true);
    if writes <= place {
        return place;
    }
    if passes_reads(one) {
        return writes;
    }
    let reads = apart_from(ones, one, place, others, false);
    if reads < writes {
        return reads;
    }
    writes
}
