ghost use Rattle.std.specs.Prelude.{◌≡◌, ◌<◌, [], length, IfOk};
ghost use Rattle.shared_store.specs.TestPermits.{adding, reading, AllReading};

use crate::{JobSeat, RootSeat, SharedStore};
use job_types::{Chain, Job, JobStart};
use machine_code::{Permit, Span};
use plex_num::{Level, Memory, Seq, Values};
use std::alloc::Global;
use std::test::Fail;
use std::thread;
use std::thread::Threads;

/// A start for loans whose start nobody asks for.
fn any_start() -> JobStart {
    JobStart {
        job: Job {
            entry: 0,
            level: Level::A,
            values: Values::new(),
            forlopp: 0,
        },
        chain: Chain::new(),
    }
}

/// One word.
fn one_word(word: u32) -> Span
    ensures { (result.first ≡ word) × (result.count ≡ 1) × (result.stride ≡ 1) }
{
    Span {
        first: word,
        count: 1,
        stride: 1,
    }
}

/// The permit to read one word and write another.
fn adding_permit(alloc: Global, step: u32, own: u32) -> Result<Permit, Memory>
    ensures { IfOk result (λ permit. permit ≡ adding step own) }
{
    let mut reads = Seq::new(alloc);
    reads.push(one_word(step))?;
    let mut writes = Seq::new(alloc);
    writes.push(one_word(own))?;
    Ok(Permit { reads, writes })
}

/// The permit to read one word and write none.
fn reading_permit(alloc: Global, word: u32) -> Result<Permit, Memory>
    ensures { IfOk result (λ permit. permit ≡ reading word) }
{
    let mut reads = Seq::new(alloc);
    reads.push(one_word(word))?;
    Ok(Permit {
        reads,
        writes: Seq::new(alloc),
    })
}

/// Adds the word `step` to the word `own`, a thousand times.
fn add_often(store: &SharedStore, mut seat: JobSeat, step: u32, own: u32) -> JobSeat
    requires store { seat.0 ≡ store.now }
    requires cells { (step < length seat.1.lent.base) × (own < length seat.1.lent.base) }
    requires permit { seat.1.lent.permit ≡ adding step own }
    ensures { (result.0 ≡ seat.0) × (result.1.lent ≡ seat.1.lent) }
{
    for _round in 0..1000u32 {
        let more = store.load(&mut seat, step);
        let sum = store.load(&mut seat, own);
        store.store(&mut seat, own, sum.wrapping_add(more));
    }
    seat
}

/// Two jobs in threads: one adds word 2 to word 0, the other adds it to word 1.
fn add_in_two_threads<R: Threads>(
    rt: &R,
    store: &SharedStore,
    root: &mut RootSeat,
    first: Permit,
    second: Permit,
)
    requires store { root.old.0 ≡ store.now }
    requires cells { length root.old.1.values ≡ 3 }
    requires loans { root.old.1.loans ≡ [] }
    requires first { first ≡ adding 2 0 }
    requires second { second ≡ adding 2 1 }
    ensures store { root.new.0 ≡ root.old.0 }
    ensures cells { length root.new.1.values ≡ 3 }
    ensures loans { root.new.1.loans ≡ [] }
{
    let start = any_start();
    let one = store.lend(root, &start, first);
    let other = store.lend(root, &start, second);
    let (one, other) = thread::join(
        rt,
        move || add_often(store, one, 2, 0),
        move || add_often(store, other, 2, 1),
    );
    store.take_back(root, other);
    store.take_back(root, one);
}

#[test]
fn two_threads_leave_what_one_after_the_other_would(rt: HostRuntime) -> Result<(), Fail> {
    let words = Seq::from_vec(Vec::from_array(rt.alloc(), [7, u32::MAX, 3])?);
    let first = adding_permit(rt.alloc(), 2, 0)?;
    let second = adding_permit(rt.alloc(), 2, 1)?;
    let (store, mut root) = SharedStore::new(rt.alloc(), &words)?;
    add_in_two_threads(&rt, &store, &mut root, first, second);
    let sums = [
        store.root_load(&mut root, 0),
        store.root_load(&mut root, 1),
        store.root_load(&mut root, 2),
    ];
    assert_eq!(rt; sums.as_slice(), [3007, 2999, 3].as_slice());
    store.root_store(&mut root, 2, 5);
    let stored = [
        store.root_load(&mut root, 0),
        store.root_load(&mut root, 1),
        store.root_load(&mut root, 2),
    ];
    assert_eq!(rt; stored.as_slice(), [3007, 2999, 5].as_slice());
    Ok(())
}

/// Whether each of so many loans, all live at once, finds that value in word 0, before the next is
/// lent and after it came back.
fn all_find(
    alloc: Global,
    store: &SharedStore,
    root: &mut RootSeat,
    loans: u32,
    value: u32,
) -> Result<bool, Memory>
    requires store { root.old.0 ≡ store.now }
    requires cell { 0 < length root.old.1.values }
    requires reading { AllReading 0 root.old.1.loans }
    ensures store { IfOk result (λ _. root.new.0 ≡ root.old.0) }
    ensures reading { IfOk result (λ _. AllReading 0 root.new.1.loans) }
{
    if loans == 0 {
        return Ok(true);
    }
    let permit = reading_permit(alloc, 0)?;
    let mut seat = store.lend(root, &any_start(), permit);
    let before = store.load(&mut seat, 0);
    let others = all_find(alloc, store, root, loans - 1, value)?;
    let after = store.load(&mut seat, 0);
    store.take_back(root, seat);
    Ok(others & (before == value) & (after == value))
}

#[test]
fn eight_loans_read_one_word(rt: HostRuntime) -> Result<(), Fail> {
    let words = Seq::from_vec(Vec::from_array(rt.alloc(), [4_000_000_000, 1])?);
    let (store, mut root) = SharedStore::new(rt.alloc(), &words)?;
    let found = all_find(rt.alloc(), &store, &mut root, 8, 4_000_000_000)?;
    assert!(rt; found);
    Ok(())
}
