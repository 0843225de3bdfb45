// What is told of pairs of entries, for whoever asks again and again.
ghost use Rattle.std.specs.Prelude.{◌≡◌, ◌↔◌, ◌<◌, ◌≤◌, IfOk, IfSome, IsTrue, MatchOption, length};
ghost use Rattle.std.specs.Prelude.{slice_range};
ghost use Rattle.entry_summary.specs.declared.summary.Summary.{Summary};
ghost use Rattle.pair_tests.specs.Pairs.{Passes};
ghost use Rattle.exchange_model.specs.declared.exchange.Exchange.{Exchange};
ghost use Rattle.exchange_model.specs.Kept.{IsExchange};
ghost use Rattle.source_meaning.specs.State.{State};
ghost use Rattle.source_meaning.specs.Valid.{IsFitting, IsJob, IsValid};
ghost use Rattle.order_laws.specs.Windows.{MakesWay};
ghost use Rattle.pair_laws.specs.Together.{RunTogether};
ghost use Rattle.checked.specs.Kept.{IsChecked};
ghost use Rattle.interference_check.specs.Pairs.{OfPair};
ghost use Rattle.interference_check.specs.Tables.{AreTold, HasTests, IsFound, IsRight, IsTold};
ghost use Rattle.interference_check.specs.Tables.{TellsTests};

use crate::pairs::may_follow;
use checked::Checked;
use entry_summary::Summary;
use job_types::JobStart;
use pair_tests::{Test, Verdict, all_hold, are_apart, tests_of, verdict_of};
use plex_num::{Memory, Seq};
use std::alloc::Global;
use std::marker::Model;

/// What is told of a pair of entries.
#[derive(Clone, Copy)]
pub(crate) enum Pair {
    /// Jobs of the two never run at once.
    Never,
    /// They may where these tests hold, which stand in the list of all tests from one place to
    /// before another one.
    Asks { from: usize, to: usize },
}

/// Two entries, and what is told of them: nothing where their tests are not kept, so that their
/// summaries are looked at.
#[derive(Clone, Copy)]
pub(crate) struct Told {
    pub first: u32,
    pub later: u32,
    pub pair: Option<Pair>,
}

/// How many tests are kept, at most, of all pairs: some three megabytes.
const MOST_TESTS: usize = 262_144;

/// How many accesses are looked at in all, at most, for pairs of which it is asked what it takes to
/// ask, or whether an entry has a partner. That takes some hundredths of a second.
const MOST_LOOKS: usize = 131_072;

/// The hint of two entries of which nothing is told.
const NOWHERE: u32 = u32::MAX;

/// What is told so far.
#[derive(Drop)]
pub(crate) struct Learned {
    /// The pairs, each of two entries that are the first ones with their summaries.
    pub told: Seq<Told>,
    /// The tests of all of them.
    pub tests: Seq<Test>,
    /// For each two entries the place of their pair. It may be wrong: what stands there names its
    /// entries.
    pub hints: Vec<u32>,
    /// How many more accesses may be looked at for such pairs.
    pub looks: usize,
}

/// What a certificate says of pairs of its entries: whether jobs of the two never run at once, or
/// which tests they must pass. A pair is told when it is first asked for, and kept, so that a later
/// question looks up one item and goes through the tests of its pair alone; entries with equal
/// summaries are one. No more than 262,144 tests are kept. Of a pair whose tests would be more than
/// that, or for which memory is refused, the summaries are looked at each time. Contracts see the
/// table as what is kept of the certificate, which no question changes.
pub struct PairTable<'c> {
    alloc: Global,
    checked: &'c Checked,
    learned: Learned,
}

impl Drop for PairTable<'_> {
    fn drop(self) {
        let PairTable {
            alloc: _,
            checked: _,
            learned: _,
        } = self;
    }
}

impl<'c> Model for PairTable<'c> {
    ghost use Rattle.std.specs.Coded.{codes};
    ghost use Rattle.std.specs.List.Sorted.{IsStrictlySortedBy-prop};
    ghost use Rattle.checked.specs.Kept.{KeptSummaries};

    ghost Value = { KeptSummaries };

    ghost coded = { Prim.hlevel (codes, IsStrictlySortedBy-prop) };

    ghost use Rattle.interference_check.specs.Tables.{AreTold};

    ghost view = { λ t. t.checked.now };

    ghost invariant = { λ t. AreTold t.checked.now t.learned.told t.learned.tests };
}

impl<'c> PairTable<'c> {
    /// The table of a certificate, in which nothing is told yet. Memory is the only reason for an
    /// error.
    #[tactic(auto, using(crate::proofs::Tabling::none_told))]
    pub fn new(alloc: Global, checked: &'c Checked) -> Result<PairTable<'c>, Memory>
        ensures { IfOk result (λ table. table ≡ checked.now) }
    {
        let entries = checked.entries() as usize;
        let Ok(hints) = Vec::from_elem(alloc, NOWHERE, entries.saturating_mul(entries)) else {
            return Err(Memory);
        };
        Ok(PairTable {
            alloc,
            checked,
            learned: Learned {
                told: Seq::new(alloc),
                tests: Seq::new(alloc),
                hints,
                looks: MOST_LOOKS,
            },
        })
    }

    /// Whether the later job may run at once with the first, as the call of that name tells it of
    /// what is kept.
    pub fn may_follow(&mut self, first: &JobStart, later: &JobStart) -> bool
        requires first { first.now.job.entry < length self.old.summaries }
        requires later { later.now.job.entry < length self.old.summaries }
        ensures exact { OfPair self.old first.now.job.entry later.now.job.entry
            (λ s t. IsTrue result ↔ Passes s t first.now later.now) }
        ensures together { IsTrue result → (x : Exchange) (s : State)
            → IsExchange x → IsChecked x self.old → IsValid x s
            → IsFitting x s first.now → IsFitting x s later.now
            → OfPair self.old first.now.job.entry later.now.job.entry
            (λ one other. RunTogether x s one other first.now later.now) }
        ensures way { IsTrue result → (x : Exchange)
            → IsExchange x → IsChecked x self.old → IsJob x later.now.job
            → MakesWay x first.now later.now }
        ensures kept { self.new ≡ self.old }
    {
        self.passes(first, later)
    }

    /// Whether a job of this entry may run at once with some other job, as far as it is told. Its
    /// pairs are told now, as far as so many looks are left: an entry of which a pair is not told
    /// may have a partner.
    pub fn has_partner(&mut self, entry: u32) -> bool
        ensures { self.new ≡ self.old }
    {
        if entry >= self.checked.entries() {
            return false;
        }
        has_partner(self.alloc, self.checked, entry, &mut self.learned)
    }

    /// How much it takes, about, to ask whether jobs of two entries pass: how many tests are looked
    /// at, or accesses where the tests of the pair are not known. It is told now, where so many
    /// looks are left.
    pub fn asking(&mut self, first: u32, later: u32) -> u64
        ensures { self.new ≡ self.old }
    {
        let entries = self.checked.entries();
        if first >= entries || later >= entries {
            return 0;
        }
        match told_cheaply(self.alloc, self.checked, first, later, &mut self.learned) {
            Some(Pair::Never) => 0,
            Some(Pair::Asks { from, to }) => to.saturating_sub(from) as u64,
            None => looks_for(self.checked, first, later) as u64,
        }
    }

    /// Whether two jobs pass.
    fn passes(&mut self, first: &JobStart, later: &JobStart) -> bool
        requires first { first.now.job.entry < length self.old.summaries }
        requires later { later.now.job.entry < length self.old.summaries }
        ensures exact { OfPair self.old first.now.job.entry later.now.job.entry
            (λ s t. IsTrue result ↔ Passes s t first.now later.now) }
        ensures kept { self.new ≡ self.old }
    {
        let told = tell(
            self.alloc,
            self.checked,
            first.job.entry,
            later.job.entry,
            &mut self.learned,
        );
        if let Some(pair) = told {
            return pass_by(pair, self.learned.tests.as_slice(), first, later);
        }
        may_follow(self.checked, first, later)
    }
}

/// What is told of two entries, if their tests are kept. Where the pair was not asked for before,
/// it is told now.
fn tell(
    alloc: Global,
    checked: &Checked,
    first: u32,
    later: u32,
    learned: &mut Learned,
) -> Option<Pair>
    requires first { first < length checked.now.summaries }
    requires later { later < length checked.now.summaries }
    requires so_far { AreTold checked.now learned.old.told learned.old.tests }
    ensures told { AreTold checked.now learned.new.told learned.new.tests }
    ensures pair { IfSome result (λ pair. OfPair checked.now first later
        (TellsTests learned.new.tests pair)) }
{
    let like_first = checked.first_like(first);
    let like_later = checked.first_like(later);
    if let Some(told) = known(checked, like_first, like_later, learned) {
        return told.pair;
    }
    let one = checked.summary(like_first);
    let other = checked.summary(like_later);
    let pair = pair_of(alloc, one, other, &mut learned.tests);
    let told = Told {
        first: like_first,
        later: like_later,
        pair,
    };
    keep(checked, told, learned);
    pair
}

/// What is kept of two entries, each the first one with its summary, if it was told.
fn known(checked: &Checked, first: u32, later: u32, learned: &Learned) -> Option<Told>
    ensures { IfSome result (IsFound learned.now.told first later) }
{
    let place = place_of(checked, first, later);
    told_at(
        learned.told.as_slice(),
        hint_at(&learned.hints, place),
        first,
        later,
    )
}

/// The pair at a place, if it is of these two entries.
#[tactic(auto, using(crate::proofs::Tabling::is_found))]
fn told_at(told: &[Told], place: usize, first: u32, later: u32) -> Option<Told>
    ensures { IfSome result (IsFound told.now first later) }
{
    let one = told.get(place)?;
    if one.first == first && one.later == later {
        return Some(*one);
    }
    None
}

/// Keeps what is told of two entries, where memory is not refused.
#[tactic(auto, using(crate::proofs::Tabling::told_more, crate::proofs::Tabling::told_same))]
fn keep(checked: &Checked, one: Told, learned: &mut Learned)
    requires so_far { AreTold checked.now learned.old.told learned.old.tests }
    requires one { IsRight checked.now learned.old.tests one }
    ensures told { AreTold checked.now learned.new.told learned.new.tests }
    ensures tests { learned.new.tests ≡ learned.old.tests }
{
    let number = learned.told.len();
    let Ok(()) = learned.told.push(one) else {
        return;
    };
    let place = place_of(checked, one.first, one.later);
    note(place, number, &mut learned.hints);
}

/// The place of the hint of two entries.
fn place_of(checked: &Checked, first: u32, later: u32) -> usize {
    first as usize * checked.entries() as usize + later as usize
}

/// Where the pair of a place should stand.
fn hint_at(hints: &[u32], place: usize) -> usize {
    match hints.get(place) {
        Some(number) => *number as usize,
        None => NOWHERE as usize,
    }
}

/// Notes where the pair of a place stands.
fn note(place: usize, number: usize, hints: &mut Vec<u32>) {
    if number >= NOWHERE as usize {
        return;
    }
    if let Some(hint) = hints.get_mut(place) {
        *hint = number as u32;
    }
}

/// Whether a job of this entry may run at once with some other job, as far as it is told.
fn has_partner(alloc: Global, checked: &Checked, entry: u32, learned: &mut Learned) -> bool
    requires entry { entry < length checked.now.summaries }
    requires so_far { AreTold checked.now learned.old.told learned.old.tests }
    ensures { AreTold checked.now learned.new.told learned.new.tests }
{
    for other in 0..checked.entries() {
        if may_pass(alloc, checked, entry, other, learned) {
            return true;
        }
        if may_pass(alloc, checked, other, entry, learned) {
            return true;
        }
    }
    false
}

/// Whether jobs of two entries may ever pass: they may, too, where it is not told.
fn may_pass(alloc: Global, checked: &Checked, first: u32, later: u32, learned: &mut Learned) -> bool
    requires first { first < length checked.now.summaries }
    requires later { later < length checked.now.summaries }
    requires so_far { AreTold checked.now learned.old.told learned.old.tests }
    ensures { AreTold checked.now learned.new.told learned.new.tests }
{
    match told_cheaply(alloc, checked, first, later, learned) {
        Some(Pair::Never) => false,
        _ => true,
    }
}

/// What is told of two entries, if their tests are kept. Where the pair was not asked for before,
/// it is told now, if that takes no more looks than are left.
fn told_cheaply(
    alloc: Global,
    checked: &Checked,
    first: u32,
    later: u32,
    learned: &mut Learned,
) -> Option<Pair>
    requires first { first < length checked.now.summaries }
    requires later { later < length checked.now.summaries }
    requires so_far { AreTold checked.now learned.old.told learned.old.tests }
    ensures { AreTold checked.now learned.new.told learned.new.tests }
{
    let one = checked.first_like(first);
    let other = checked.first_like(later);
    if let Some(told) = known(checked, one, other, learned) {
        return told.pair;
    }
    let looks = looks_for(checked, first, later);
    if looks > learned.looks {
        return None;
    }
    learned.looks -= looks;
    tell(alloc, checked, first, later, learned)
}

/// How many accesses the summaries of two entries have.
fn looks_for(checked: &Checked, first: u32, later: u32) -> usize
    requires first { first < length checked.now.summaries }
    requires later { later < length checked.now.summaries }
{
    let one = checked.summary(first).accesses.len();
    one.saturating_add(checked.summary(later).accesses.len())
}

/// What is told of two summaries, whose tests come to the list: nothing where memory is refused, or
/// where they would be too many.
fn pair_of(alloc: Global, first: &Summary, later: &Summary, tests: &mut Seq<Test>) -> Option<Pair>
    ensures { MatchOption result
        (tests.new ≡ tests.old)
        (IsTold first.now later.now tests.old tests.new) }
{
    match verdict_of(first, later) {
        Verdict::Never(_) => Some(Pair::Never),
        Verdict::Tests => {
            let Ok(own) = tests_of(alloc, first, later) else {
                return None;
            };
            let from = tests.len();
            if from.saturating_add(own.len()) > MOST_TESTS {
                return None;
            }
            let Ok(()) = tests.push_all(own.as_slice()) else {
                return None;
            };
            let to = tests.len();
            Some(Pair::Asks { from, to })
        }
    }
}

/// Whether two jobs pass, by what is told of their pair.
fn pass_by(pair: Pair, tests: &[Test], first: &JobStart, later: &JobStart) -> bool
    requires { HasTests tests.now pair }
    ensures { (s t : Summary) → TellsTests tests.now pair s t
        → IsTrue result ↔ Passes s t first.now later.now }
{
    match pair {
        Pair::Never => false,
        Pair::Asks { from, to } => {
            let own = between(tests, from, to);
            are_apart(first, later) & all_hold(own, first, later)
        }
    }
}

/// The tests from one place to before another one.
fn between(tests: &[Test], from: usize, to: usize) -> &[Test]
    requires ordered { from ≤ to }
    requires within { to ≤ length tests.now }
    ensures { result.now ≡ slice_range tests.now from to }
{
    &tests[from..to]
}
