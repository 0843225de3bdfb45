// The records of a file that a job may reach, told as runs of numbers.
ghost use Rattle.std.specs.Prelude.{◌≡◌, ◌⊎◌, ◌↔◌, ◌++◌, ◌<◌, ◌≤◌, ◌^◌, ℕ, map, IfOk, OnOk, IsTrue};
ghost use Rattle.std.specs.List.{Contains};
ghost use Rattle.std.specs.List.Sorted.{IsNonDecreasingBy};
ghost use Rattle.job_types.specs.Chain.{holds};
ghost use Rattle.job_types.specs.Forlopps.{ChainMap, all_records};
ghost use Rattle.entry_summary.specs.declared.summary.Access.TheVariants as access;
ghost use Rattle.start_permit.specs.Granted.{IsFree, MayHold, Selects};
ghost use Rattle.start_permit.specs.Recorded.{AreBelow, AreRuns, InRun, IsRunOf, numbers_of};
ghost use Rattle.start_permit.specs.Recorded.{one_run};

use entry_summary::Access;
use flow_points::Value;
use job_types::Held;
use plex_num::{Memory, Seq, value_at};
use std::alloc::{AllocError, Global};

/// So many records of a file, from a number on.
#[derive(Clone, Copy)]
pub struct Run {
    pub first: u32,
    pub count: u32,
}

/// The record of this number, where it is below the size.
#[tactic(auto, using(crate::proofs::Choosing::one_is, crate::proofs::Choosing::none_is))]
fn one_below(number: u32, size: u32) -> Run
    ensures { IsRunOf size (λ n. n ≡ number) result }
{
    if number >= size {
        return Run { first: 0, count: 0 };
    }
    Run {
        first: number,
        count: 1,
    }
}

/// All records below the size.
#[tactic(auto, using(crate::proofs::Choosing::all_are))]
pub fn all_below(size: u32) -> Run
    ensures { IsRunOf size (λ n. Unit {0}) result }
{
    Run {
        first: 0,
        count: size,
    }
}

/// The records below the size that a selector tells, of a job with these values.
pub fn selected(selector: Value, values: &[u32], size: u32) -> Run
    ensures { IsRunOf size (Selects values.now selector) result }
{
    match selector {
        Value::Arg(place) => one_below(value_at(values, place as usize), size),
        Value::Const(number) => one_below(number, size),
        Value::Any => all_below(size),
    }
}

/// The numbers of the records of a file that stand in a list, as far as they are below the size.
fn numbers_in(alloc: Global, held: &[Held], file: u32, size: u32) -> Result<Vec<u32>, AllocError>
    ensures { IfOk result (λ numbers. numbers.items ≡ numbers_of file size held.now) }
{
    held.iter()
        .filter(|one| one.file == file && one.number < size)
        .map(|one| one.number)
        .collect(alloc)
}

/// The same, rising.
fn sorted_numbers(alloc: Global, held: &[Held], file: u32, size: u32) -> Result<Seq<u32>, Memory>
    ensures same { IfOk result (λ numbers. (n : ℕ) →
        Contains numbers n ↔ Contains (numbers_of file size held.now) n) }
    ensures rising { IfOk result (IsNonDecreasingBy (λ n. n)) }
{
    match numbers_in(alloc, held, file, size) {
        Ok(numbers) => {
            let mut numbers = numbers;
            numbers.sort_unstable();
            Ok(Seq::from_vec(numbers))
        }
        Err(_) => Err(Memory),
    }
}

/// The records from one number up to another one, which is not among them.
#[tactic(auto, using(crate::proofs::Choosing::low_is))]
fn run_between(from: u32, until: u32) -> Run
    ensures low { (n : ℕ) → InRun result n → (from ≤ n) × (n < until) }
    ensures back { (n : ℕ) → from ≤ n → n < until → InRun result n }
{
    Run {
        first: from,
        count: until.saturating_sub(from),
    }
}

/// A size is a number of 32 bits, for those who prove.
fn is_word(size: u32)
    ensures { size < 2 ^ 32 }
{
    let _ = size;
}

/// The records below the size whose numbers are not among these, which are below it and rise.
fn gaps(alloc: Global, numbers: &[u32], size: u32) -> Result<Seq<Run>, Memory>
    requires rising { IsNonDecreasingBy (λ n. n) numbers.now }
    requires below { (n : ℕ) → Contains numbers.now n → n < size }
    ensures { IfOk result (AreRuns size (λ n. Contains numbers.now n → ⊥)) }
{
    is_word(size);
    let mut runs = Seq::new(alloc);
    let mut next: u32 = 0;
    for number in numbers {
        runs.push(run_between(next, *number))?;
        next = *number + 1;
    }
    runs.push(run_between(next, size))?;
    Ok(runs)
}

/// The records of a file, below its size, that stand in none of the chains whose records these are.
pub fn free_runs(alloc: Global, held: &[Held], file: u32, size: u32) -> Result<Seq<Run>, Memory>
    ensures exact { IfOk result (λ runs. (chains : ChainMap) →
        held.now ≡ all_records chains → AreRuns size (IsFree chains file) runs) }
    ensures below { IfOk result (AreBelow size) }
{
    let numbers = sorted_numbers(alloc, held, file, size)?;
    gaps(alloc, numbers.as_slice(), size)
}

/// Appends a run for each of these numbers.
fn push_ones(numbers: &[u32], runs: &mut Seq<Run>) -> Result<(), Memory>
    ensures { OnOk result (runs.new ≡ runs.old ++ map one_run numbers.now) }
{
    for number in numbers {
        runs.push(Run {
            first: *number,
            count: 1,
        })?;
    }
    Ok(())
}

/// Whether a file may be seized.
fn may_seize(accesses: &[Access], file: u32) -> bool
    ensures { IsTrue result ↔ Contains accesses.now (access.Seizes file) }
{
    accesses.contains(&Access::Seizes { file })
}

/// The free records of a file, if it may be seized.
fn seized_runs(
    alloc: Global,
    accesses: &[Access],
    held: &[Held],
    file: u32,
    size: u32,
) -> Result<Seq<Run>, Memory>
    ensures exact { IfOk result (λ runs. (chains : ChainMap) → held.now ≡ all_records chains →
        AreRuns size
        (λ n. Contains accesses.now (access.Seizes file) × IsFree chains file n) runs) }
    ensures below { IfOk result (AreBelow size) }
{
    if may_seize(accesses, file) {
        free_runs(alloc, held, file, size)
    } else {
        Ok(Seq::new(alloc))
    }
}

/// The records of a file that a job with these accesses and this chain may hold.
pub fn own_runs(
    alloc: Global,
    accesses: &[Access],
    chain: &[Held],
    held: &[Held],
    file: u32,
    size: u32,
) -> Result<Seq<Run>, Memory>
    ensures exact { IfOk result (λ runs. (chains : ChainMap) → held.now ≡ all_records chains →
        AreRuns size (MayHold accesses.now chain.now chains file) runs) }
    ensures below { IfOk result (AreBelow size) }
{
    let mut runs = seized_runs(alloc, accesses, held, file, size)?;
    let numbers = sorted_numbers(alloc, chain, file, size)?;
    push_ones(numbers.as_slice(), &mut runs)?;
    Ok(runs)
}
