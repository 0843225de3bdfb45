// What a job has of its own.
mod effects;
pub(crate) mod row;
pub(crate) mod search;
pub(crate) mod stand;
pub(crate) mod turning;
pub(crate) mod unseen;
pub(crate) mod word;

ghost use Rattle.std.specs.Prelude.{◌≡◌, ◌<◌, ◌≤◌, ◌^◌, Some, length, slice_index, is_some, IsSome};
ghost use Rattle.job_types.specs.Own.{eight};
ghost use Rattle.machine_meaning.specs.Private.{fresh, idle};
ghost use Rattle.job_run.specs.Standing.{standing};

use self::stand::Stand;
use crate::frames::Frames;
use crate::outgoing::Outgoing;
use job_types::{Chain, JobDone, JobStart, Outbox, Outcome};
use machine_code::Code;
use plex_limits::MOST_COUNTED;
use std::marker::Model;

/// How many statements a job may begin, the one that faults among them.
const FIRST_REMAINING: u32 = MOST_COUNTED as u32 + 1;

/// The run of a job: what it has of its own while the machine makes its instructions. Contracts see
/// it as a record of lists and numbers. A run that has ended can begin anew in its place, which
/// costs no more than what it held.
#[derive(Drop)]
pub struct JobRun {
    address: usize,
    // Between the registers and the locals stands what a call does not clear. Each of the two is
    // cleared by a few stores then; side by side they would be cleared by a call of a function.
    registers: [u32; 16],
    given: [u32; 8],
    locals: [u32; 50],
    outgoing: Outgoing,
    frames: Frames,
    made: u64,
    answers: [u32; 8],
    forlopp: u64,
    /// How many statements may still be begun, the one that faults among them.
    remaining: u32,
    point: u32,
    /// The sends and the chain so far, and once the job is over how it ended.
    done: JobDone,
    over: bool,
}

impl Model for JobRun {
    ghost use Rattle.machine_meaning.specs.Private.{Private, WithinBudget, counted_of, if_over};

    ghost Value = { Private };

    ghost view = { λ r. record {
      pc = r.address;
      regs = r.registers;
      locals = r.locals;
      out = r.outgoing;
      frames = r.frames;
      made = r.made;
      own = record {
        given = r.given;
        answers = r.answers;
        sends = r.done.sends;
        chain = r.done.chain;
        forlopp = r.forlopp;
        count = counted_of r.remaining;
        point = r.point;
      };
      over = if_over r.over r.done.outcome;
    } };

    ghost invariant = { λ r. WithinBudget (if_over r.over r.done.outcome) r.remaining };
}

impl JobRun {
    /// The run of no job, in which jobs may begin one after the other.
    #[tactic(auto, unfolding(job_types::specs::Own::budget))]
    pub fn idle() -> JobRun
        ensures { result ≡ idle }
    {
        JobRun {
            address: 0,
            registers: [0; 16],
            locals: [0; 50],
            outgoing: Outgoing::new(),
            frames: Frames::new(),
            made: 0,
            given: [0; 8],
            answers: [0; 8],
            forlopp: 0,
            remaining: FIRST_REMAINING,
            point: 0,
            done: JobDone {
                sends: Outbox::new(),
                chain: Chain::new(),
                outcome: Outcome::Ended,
            },
            over: false,
        }
    }

    /// The run of a start before its first instruction, which is at the address of the start's
    /// entry. The code must have that entry.
    pub fn new(code: &Code, start: &JobStart) -> JobRun
        requires { start.now.job.entry < length code.now.entries }
        ensures { result ≡ fresh (slice_index code.now.entries start.now.job.entry) start.now }
    {
        let mut run = JobRun::idle();
        run.begin(code, start);
        run
    }

    /// Begins anew in its place with another start, as `new` does.
    #[tactic(auto, unfolding(job_types::specs::Own::budget))]
    pub fn begin(&mut self, code: &Code, start: &JobStart)
        requires { start.now.job.entry < length code.now.entries }
        ensures { self.new ≡ fresh (slice_index code.now.entries start.now.job.entry) start.now }
    {
        self.over = false;
        self.address = code.entries()[start.job.entry as usize] as usize;
        self.registers = [0; 16];
        self.locals = [0; 50];
        self.outgoing.clear();
        self.frames.clear();
        self.made = 0;
        self.given = eight_of(start.job.values.as_slice());
        self.answers = [0; 8];
        self.forlopp = start.job.forlopp;
        self.remaining = FIRST_REMAINING;
        self.point = 0;
        self.done.sends.clear();
        self.done.chain.copy_from(&start.chain);
    }

    /// Whether the job has ended.
    pub fn ended(&self) -> bool
        ensures { result ≡ is_some self.now.over }
    {
        self.over
    }

    /// How many instructions were made so far, modulo 2^64.
    pub fn steps(&self) -> u64
        ensures { result ≡ self.now.made }
    {
        self.made
    }

    /// How many statements were counted so far, at most so many as a job may begin.
    #[tactic(auto, unfolding(job_types::specs::Own::budget))]
    pub fn counted(&self) -> u32
        ensures { result ≡ self.now.own.count }
    {
        FIRST_REMAINING.saturating_sub(self.remaining)
    }

    /// The address of the next instruction.
    pub fn address(&self) -> usize
        ensures { result ≡ self.now.pc }
    {
        self.address
    }

    /// It stands there.
    pub fn put(&mut self, stand: Stand)
        ensures { self.new ≡ standing stand self.old }
    {
        self.address = stand.at;
        self.made = stand.made;
    }

    /// What the job leaves. It must have ended.
    pub fn into_done(self) -> JobDone
        requires { IsSome self.over }
        ensures sends { result.sends ≡ self.own.sends }
        ensures chain { result.chain ≡ self.own.chain }
        ensures outcome { Some result.outcome ≡ self.over }
    {
        self.done
    }

    /// What the job leaves, lent. It must have ended.
    pub fn done(&self) -> &JobDone
        requires { IsSome self.now.over }
        ensures sends { result.now.sends ≡ self.now.own.sends }
        ensures chain { result.now.chain ≡ self.now.own.chain }
        ensures outcome { Some result.now.outcome ≡ self.now.over }
    {
        &self.done
    }
}

/// These values, and 0 beyond them, eight in all.
fn eight_of(values: &[u32]) -> [u32; 8]
    requires { length values.now ≤ 8 }
    ensures { result ≡ eight values.now }
{
    let mut all = [0; 8];
    all[..values.len()].copy_from_slice(values);
    all
}
