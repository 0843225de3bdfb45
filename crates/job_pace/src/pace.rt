// What the dispatcher has learned of its jobs, and which of them are worth a loan by that. No
// answer here has a contract: what comes out of a run is the same whatever is answered. The table
// of pairs, which learns as it is asked, stays that of its certificate.
ghost use Rattle.std.specs.Prelude.{◌≡◌};

use interference_check::PairTable;
use offload_policy::{
    Company, ENOUGH, FED, FIRST_REST, LEAST_MEAN, LONELY, LONGEST_REST, MOST_COUNTED, MOST_WAIT,
    PART, SHORT, TEST, VERY_SHORT, WAKE, long_job,
};
use plex_num::Memory;
use std::alloc::Global;

/// Whether some job may run at once with those of an entry.
#[derive(Clone, Copy)]
enum Partner {
    /// It was not asked.
    Unknown,
    Nobody,
    Somebody,
}

/// What is known of the jobs of an entry.
#[derive(Clone, Copy)]
struct Known {
    /// Whether one has ended.
    ended: bool,
    /// How long they are, in instructions, about, that not counted by which a job is longer than
    /// all that may fly with it.
    mean: u64,
    /// The same with all counted.
    whole: u64,
    /// Whether they are long enough for a loan.
    long: bool,
    /// How long they must be, all counted, to be worth asking whether they pass beside one job:
    /// they do not fly else.
    asking: u64,
    partner: Partner,
    /// How many flew one after the other with nobody beside them.
    lonely: u32,
    /// How many of the next ones rest, and how many the next time.
    rest: u64,
    next_rest: u64,
}

/// Nothing is known, so that the first job of an entry flies.
fn unknown() -> Known {
    Known {
        ended: false,
        mean: 0,
        whole: 0,
        long: true,
        asking: 0,
        partner: Partner::Unknown,
        lonely: 0,
        rest: 0,
        next_rest: FIRST_REST,
    }
}

/// How a job flies.
#[derive(Clone, Copy)]
pub enum Way {
    /// The dispatcher keeps it in hand, and runs it once no other job can set out.
    InHand,
    /// It is brought to the workers.
    Brought,
    /// The dispatcher runs it at once, since it is short.
    Here,
}

/// What is known of the jobs of each entry, how many entries have long jobs that do not rest and
/// beside which others may run, whether a job has ended, how many threads may run jobs beside the
/// dispatcher, how many of them are of use now, how many jobs may wait before one of them is woken,
/// how many jobs may fly, and how many of those that do must retire before the next job is looked
/// at again.
pub struct Pace {
    entries: Vec<Known>,
    long: u64,
    ended: bool,
    helpers: u64,
    most_helpers: u64,
    most_wait: u64,
    room: u64,
    behind: usize,
    /// Jobs of an entry fly once they make so many instructions in the mean.
    long_job: u64,
    /// They run alone again where they make fewer than so many.
    short_job: u64,
    /// How much of what jobs make is made beside others.
    company: Company,
}

impl Drop for Pace {
    fn drop(self) {
        let Pace {
            entries: _,
            long: _,
            ended: _,
            helpers: _,
            most_helpers: _,
            most_wait: _,
            room: _,
            behind: _,
            long_job: _,
            short_job: _,
            company: _,
        } = self;
    }
}

impl Pace {
    /// Before the first job, for so many entries and so many threads beside the dispatcher, where
    /// so many jobs may fly. Memory is the only reason for an error.
    pub fn new(alloc: Global, entries: u32, helpers: u64, room: u32) -> Result<Pace, Memory> {
        let long = long_job(room);
        match Vec::from_elem(alloc, unknown(), entries as usize) {
            Ok(entries) => Ok(Pace {
                entries,
                long: 0,
                ended: false,
                helpers,
                most_helpers: helpers,
                most_wait: u64::from(room / 2).max(1).min(MOST_WAIT),
                room: u64::from(room),
                behind: 0,
                long_job: long,
                short_job: (long / 5).saturating_mul(3),
                company: Company::new(),
            }),
            Err(_) => Err(Memory),
        }
    }

    /// Whether some job may be worth a loan where none flies: none has ended, or some entry has
    /// long ones.
    pub fn may_any_fly(&self) -> bool {
        self.helpers > 0 && (!self.ended || self.long > 0)
    }

    /// Whether the next job, of this entry, is worth a loan where none flies.
    pub fn may_fly_first(&mut self, pairs: &mut PairTable<'_>, entry: u32) -> bool
        ensures { pairs.new ≡ pairs.old }
    {
        let known = self.asked_partner(pairs, entry);
        known.rest == 0 && flies(known)
    }

    /// How the next job flies, which is of this entry, beside so many.
    pub fn way(&mut self, pairs: &mut PairTable<'_>, entry: u32, flying: usize) -> Way
        ensures { pairs.new ≡ pairs.old }
    {
        if flying == 0 {
            return Way::InHand;
        }
        if flies(self.asked_partner(pairs, entry)) {
            return Way::Brought;
        }
        Way::Here
    }

    /// Whether it may be asked if a job of this entry passes with so many that fly, which takes so
    /// many tests: no more than a quarter of what its jobs take. An entry for which it takes more
    /// beside one job does not fly before its jobs are so much longer.
    pub fn may_ask(&mut self, entry: u32, tests: u64, flying: usize) -> bool {
        let mut known = self.known(entry);
        let length = if known.ended {
            known.whole
        } else {
            self.long_job
        };
        let asking = tests.saturating_mul(4 * TEST);
        if asking <= length {
            return true;
        }
        if flying == 1 {
            known.asking = asking;
            self.put(entry, known);
        }
        false
    }

    /// Whether the next job need not be looked at before one more has retired.
    pub fn must_wait(&self) -> bool {
        self.behind > 0
    }

    /// The next job is not looked at before so many have retired.
    pub fn waits_for(&mut self, behind: usize) {
        self.behind = behind;
    }

    /// How many threads are wanted beside the dispatcher where so many jobs fly, and one more of
    /// this entry.
    pub fn threads_for(&mut self, entry: u32, flying: usize) -> u64 {
        let known = self.known(entry);
        self.most_helpers = self.helpers_for(known);
        if known.ended {
            return self.most_helpers.min(flying as u64);
        }
        self.helpers.min(1)
    }

    /// How many threads beside the dispatcher are of use for jobs of an entry of which this is
    /// known. Where they are short it is a part of those that may fly, so that a thread that has
    /// ended one finds another one while the dispatcher runs one itself, and no more than it can
    /// feed.
    fn helpers_for(&self, known: Known) -> u64 {
        if !known.ended || known.mean >= SHORT {
            return self.helpers;
        }
        let part = if known.mean < VERY_SHORT {
            self.room / 4
        } else {
            self.room / 2
        };
        part.min(known.mean / FED).max(1).min(self.helpers)
    }

    /// How many of so many workers that were started are of no use for the jobs that set out now.
    /// Where one could not be started all are.
    pub fn spare(&self, started: u64) -> u64 {
        if started > self.helpers {
            return 0;
        }
        started.saturating_sub(self.most_helpers)
    }

    /// How many are wanted beside the dispatcher where one more is than have been started.
    pub fn threads_beside(&self, started: u64) -> u64 {
        self.most_helpers.min(started.saturating_add(1))
    }

    /// Whether enough jobs wait for a thread, where so many do: the dispatcher runs one of them
    /// before it lets more set out.
    pub fn are_enough(&self, waiting: u64) -> bool {
        waiting >= self.helpers.saturating_mul(ENOUGH).max(1)
    }

    /// Whether no thread wants for a job, where so many wait for one and so many fly: one waits, or
    /// as many fly as there may be threads.
    pub fn are_fed(&self, waiting: u64, flying: usize) -> bool {
        waiting > 0 || flying as u64 > self.helpers
    }

    /// How many jobs of this entry are worth a wake-up.
    pub fn batch(&self, entry: u32) -> u64 {
        let known = self.known(entry);
        if known.ended {
            return (WAKE / known.mean.max(1)).max(1).min(self.most_wait);
        }
        1
    }

    /// A job of this entry flies, or flew, beside another one.
    pub fn has_company(&mut self, entry: u32) {
        if let Some(known) = self.entries.get_mut(entry as usize) {
            known.lonely = 0;
            known.next_rest = FIRST_REST;
        }
    }

    /// A job of this entry that flew is to end, with nobody beside it from first to last or not.
    pub fn sets_down(&mut self, entry: u32, alone: bool) {
        if !alone {
            return;
        }
        let mut known = self.known(entry);
        known.lonely = known.lonely.saturating_add(1);
        if known.lonely >= LONELY {
            known.lonely = 0;
            known.rest = known.next_rest;
            known.next_rest = known.next_rest.saturating_mul(2).min(LONGEST_REST);
        }
        self.put(entry, known);
    }

    /// Whether hardly any job of late had company, so that the run costs less without a dispatcher.
    pub fn rests(&self) -> bool {
        self.company.is_rare()
    }

    /// A job has ended that made so many instructions, with nobody beside it or not.
    pub fn has_made(&mut self, made: u64, alone: bool) {
        self.company.add(made, alone);
    }

    /// A job of this entry has ended, which was so long, in instructions.
    pub fn has_ended(&mut self, entry: u32, length: u64) {
        let mut known = self.known(entry);
        known.rest = known.rest.saturating_sub(1);
        if known.ended {
            known.mean = mean_after(known.mean, self.counted(known.mean, length));
            known.whole = mean_after(known.whole, length);
            let bound = if known.long {
                self.short_job
            } else {
                self.long_job
            };
            known.long = known.mean >= bound;
        } else {
            known.ended = true;
            known.mean = length.min(MOST_COUNTED);
            known.whole = length;
            known.long = known.mean >= self.long_job;
        }
        self.put(entry, known);
        self.ended = true;
    }

    /// How much of a job counts in this mean, where it was so long. A job that is longer than all
    /// that may fly with it has no company for the rest of its time.
    fn counted(&self, mean: u64, length: u64) -> u64 {
        let most = mean.max(LEAST_MEAN).saturating_mul(self.room);
        length.min(most).min(MOST_COUNTED)
    }

    /// One that flew has retired.
    pub fn has_retired(&mut self) {
        self.behind = self.behind.saturating_sub(1);
    }

    /// What is known of this entry, and whether it has a partner.
    fn asked_partner(&mut self, pairs: &mut PairTable<'_>, entry: u32) -> Known
        ensures { pairs.new ≡ pairs.old }
    {
        let mut known = self.known(entry);
        if let Partner::Unknown = known.partner {
            known.partner = if pairs.has_partner(entry) {
                Partner::Somebody
            } else {
                Partner::Nobody
            };
            self.put(entry, known);
        }
        known
    }

    fn known(&self, entry: u32) -> Known {
        match self.entries.get(entry as usize) {
            Some(known) => *known,
            None => unknown(),
        }
    }

    fn put(&mut self, entry: u32, known: Known) {
        let had_long = has_long_jobs(self.known(entry));
        if let Some(place) = self.entries.get_mut(entry as usize) {
            *place = known;
        }
        if has_long_jobs(known) && !had_long {
            self.long = self.long.saturating_add(1);
        } else if had_long && !has_long_jobs(known) {
            self.long = self.long.saturating_sub(1);
        }
    }
}

/// Whether an entry of which this is known is known to have long jobs that do not rest, and beside
/// which others may run as far as was asked.
fn has_long_jobs(known: Known) -> bool {
    match known.partner {
        Partner::Nobody => false,
        _ => known.ended && known.long && known.rest == 0,
    }
}

/// Whether jobs of an entry of which this is known are worth a loan.
fn flies(known: Known) -> bool {
    match known.partner {
        Partner::Somebody => known.long && (!known.ended || known.whole >= known.asking),
        _ => false,
    }
}

/// The mean after a job that was so long.
fn mean_after(mean: u64, length: u64) -> u64 {
    (mean - mean / PART).saturating_add(length / PART)
}
