// The accesses of one number in a list in order.
ghost use Rattle.std.specs.Prelude.{◌≡◌, ◌+◌, ◌<◌, ◌≤◌, IfSome, IsTrue, Some, length, slice_get};
ghost use Rattle.std.specs.Prelude.{take, drop};
ghost use Rattle.std.specs.Bool.{MatchBool};
ghost use Rattle.std.specs.List.Sorted.{IsStrictlySortedBy};
ghost use Rattle.entry_summary.specs.declared.summary.Access.{Access};
ghost use Rattle.entry_summary.specs.Orders.{access_order};
ghost use Rattle.pair_tests.specs.Nearby.{file_access as file_access_of, highest as highest_of};
ghost use Rattle.pair_tests.specs.Nearby.{lowest as lowest_of, near_access as near_access_of};
ghost use Rattle.pair_tests.specs.Nearby.{passes_reads as passes_reads_of, within, AreCounted};
ghost use Rattle.pair_tests.specs.Nearby.{AreNear, ArePast, AreWithin};

use entry_summary::Access;
use flow_points::Value;

/// An access that seizes a file, or one that frees it.
fn file_access(file: u32, frees: bool) -> Access
    ensures { result ≡ file_access_of file frees }
{
    if frees {
        Access::Frees { file }
    } else {
        Access::Seizes { file }
    }
}

/// The access of the number of this one that writes, or that does not; of a field with this
/// selector.
pub fn near_access(one: Access, write: bool, selector: Value) -> Access
    ensures { result ≡ near_access_of one write selector }
{
    match one {
        Access::Variable { write: _, number } => Access::Variable { write, number },
        Access::Field {
            write: _,
            number,
            selector: _,
        } => Access::Field {
            write,
            number,
            selector,
        },
        Access::Own { write: _, number } => Access::Own { write, number },
        Access::Seizes { file } => file_access(file, write),
        Access::Frees { file } => file_access(file, write),
    }
}

/// The first access that there may be of the number of this one.
pub(crate) fn lowest(one: Access, write: bool) -> Access
    ensures { result ≡ lowest_of one write }
{
    near_access(one, write, Value::Arg(0))
}

/// The last one.
fn highest(one: Access, write: bool) -> Access
    ensures { result ≡ highest_of one write }
{
    near_access(one, write, Value::Any)
}

/// A bound in the order of accesses.
#[derive(Clone, Copy)]
pub enum Bound {
    /// Those before this one are within it.
    Below(Access),
    /// Those that do not come after this one are.
    UpTo(Access),
}

/// Whether an access is within a bound.
fn is_within(bound: Bound, access: Access) -> bool
    ensures { result ≡ within bound access }
{
    match bound {
        Bound::Below(low) => access < low,
        Bound::UpTo(high) => access <= high,
    }
}

/// How many places are tried before the whole list is searched.
const TRIES: usize = 4;

/// How many accesses are within a bound, which are the first ones. `hint` is where their end is
/// looked for first: a list that is asked for one number after the other is gone through once.
pub(crate) fn count_within(accesses: &[Access], bound: Bound, hint: usize) -> usize
    requires { IsStrictlySortedBy access_order accesses.now }
    ensures { AreCounted bound accesses.now result }
{
    match count_from(accesses, bound, hint) {
        Some(count) => count,
        None => search(accesses, bound),
    }
}

/// The same, if their end is at the hint or a few places behind it.
#[tactic(auto, using(crate::proofs::Nearing::counted))]
fn count_from(accesses: &[Access], bound: Bound, hint: usize) -> Option<usize>
    requires { IsStrictlySortedBy access_order accesses.now }
    ensures { IfSome result (AreCounted bound accesses.now) }
{
    if !are_within(accesses, bound, hint) {
        return None;
    }
    for count in hint..hint.saturating_add(TRIES) {
        if is_past(accesses, bound, count) {
            return Some(count);
        }
    }
    None
}

/// Whether so many accesses are there, and all within a bound.
#[tactic(auto, using(crate::proofs::Nearing::none_within))]
fn are_within(accesses: &[Access], bound: Bound, count: usize) -> bool
    requires { IsStrictlySortedBy access_order accesses.now }
    ensures { IsTrue result → AreWithin bound accesses.now count }
{
    if count == 0 {
        return true;
    }
    if count > accesses.len() {
        return false;
    }
    is_within(bound, at(accesses, count - 1))
}

/// Whether no access from a place on is within a bound; else that of the place is.
#[tactic(auto, using(crate::proofs::Nearing::all_past))]
fn is_past(accesses: &[Access], bound: Bound, place: usize) -> bool
    requires { IsStrictlySortedBy access_order accesses.now }
    ensures { MatchBool result
        (ArePast bound accesses.now place)
        (AreWithin bound accesses.now (place + 1)) }
{
    if place >= accesses.len() {
        return true;
    }
    !is_within(bound, at(accesses, place))
}

/// The access at a place.
pub(crate) fn at(accesses: &[Access], place: usize) -> Access
    requires { place < length accesses.now }
    ensures { slice_get accesses.now place ≡ Some result }
{
    accesses[place]
}

/// How many accesses are within a bound.
fn search(accesses: &[Access], bound: Bound) -> usize
    requires { IsStrictlySortedBy access_order accesses.now }
    ensures { AreCounted bound accesses.now result }
{
    accesses.partition_point(|access| is_within(bound, *access))
}

fn front(accesses: &[Access], count: usize) -> &[Access]
    requires { count ≤ length accesses.now }
    ensures { result.now ≡ take count accesses.now }
{
    &accesses[..count]
}

fn rest(accesses: &[Access], count: usize) -> &[Access]
    requires { count ≤ length accesses.now }
    ensures { result.now ≡ drop count accesses.now }
{
    &accesses[count..]
}

/// Those from one place to another; none where the second comes before the first.
fn part(accesses: &[Access], from: usize, to: usize) -> &[Access]
    requires { to ≤ length accesses.now }
    ensures { result.now ≡ drop from (take to accesses.now) }
{
    if from <= to {
        return rest(front(accesses, to), from);
    }
    &[]
}

/// Where the accesses of a number were found last in a list in order: those that read, and those
/// that write.
#[derive(Clone, Copy)]
pub struct Hints {
    pub reads: usize,
    pub writes: usize,
}

impl Hints {
    /// At the first access.
    pub(crate) fn new() -> Hints {
        Hints {
            reads: 0,
            writes: 0,
        }
    }
}

/// Those accesses of the number of this one that write, or that do not; for a file those that free
/// it, or that seize it. `hint` is where they are looked for first, and then where they were found.
#[tactic(auto, using(crate::proofs::Nearing::near_part))]
pub fn near<'a>(accesses: &'a [Access], one: Access, write: bool, hint: &mut usize) -> &'a [Access]
    requires { IsStrictlySortedBy access_order accesses.now }
    ensures { AreNear one write accesses.now result.now }
{
    let from = count_within(accesses, Bound::Below(lowest(one, write)), *hint);
    let to = count_within(accesses, Bound::UpTo(highest(one, write)), from);
    *hint = from;
    part(accesses, from, to)
}

/// Whether an access has to do with none that reads: it reads itself, or it is of own records.
pub fn passes_reads(one: Access) -> bool
    ensures { result ≡ passes_reads_of one }
{
    match one {
        Access::Variable { write, .. } => !write,
        Access::Field { write, .. } => !write,
        Access::Own { .. } => true,
        Access::Seizes { .. } => false,
        Access::Frees { .. } => false,
    }
}
