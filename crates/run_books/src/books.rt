// The books, and what they tell.
ghost use Rattle.std.specs.Prelude.{◌≡◌, ◌+◌, ◌<◌, ◌≤◌, ◌^◌, [], length, map};
ghost use Rattle.std.specs.Option.{option_map};
ghost use Rattle.plex_limits.specs.declared.limits.TheConstants.{MOST_JOBS};
ghost use Rattle.source_meaning.specs.SingleRun.{ending_at, start_of};
ghost use Rattle.source_meaning.specs.State.{has_stopped};
ghost use Rattle.run_books.specs.Accounts.{after_start, next_count, opened, untold, upcoming};
ghost use Rattle.run_books.specs.Events.{ending_of};
ghost use Rattle.run_books.specs.Lines.{coming_of};
ghost use Rattle.run_books.specs.Parts.{AreParts, account_of};

use crate::event::Ending;
use crate::event_log::{EventLog, EventQueue};
use crate::parts::BookParts;
use crate::schedule::Schedule;
use forlopp_chain::Chains;
use job_buffers::Buffers;
use job_types::{Job, JobStart};
use plex_limits::MOST_RESTARTS;
use plex_num::Seq;
use signal_file::Line;
use std::alloc::Global;
use std::marker::Model;
use std::mem;

/// The books of an exchange: the lines that are left and those that have arrived, the jobs that
/// wait, which forlopp holds what, the next new number, the events, how many jobs have ended, how
/// many restarts came, how many jobs run, and after how many the run ends. Contracts see a state of
/// the single run without its stored words, which stand beside the books.
pub struct Books {
    pub(crate) schedule: Schedule,
    pub(crate) waiting: Buffers,
    pub(crate) chains: Chains,
    pub(crate) events: EventLog,
    pub(crate) next: u64,
    pub(crate) ended: u64,
    pub(crate) restarts: u64,
    pub(crate) running: u64,
    pub(crate) limit: u64,
    pub(crate) alloc: Global,
}

impl Drop for Books {
    fn drop(self) {
        let Books {
            schedule: _,
            waiting: _,
            chains: _,
            events: _,
            next: _,
            ended: _,
            restarts: _,
            running: _,
            limit: _,
            alloc: _,
        } = self;
    }
}

impl Model for Books {
    ghost use Rattle.std.specs.Coded.{codes};
    ghost use Rattle.forlopp_chain.specs.Codes.{chains_code, dead_code};
    ghost use Rattle.run_books.specs.Accounts.{Account, IsKept, account};

    ghost Value = { Account };

    ghost coded = { Prim.hlevel (codes, chains_code, dead_code) };

    ghost view = { λ b. account b.schedule b.waiting.waiting b.chains.chains b.chains.dead
        b.events.events b.next b.ended b.restarts b.running b.limit };

    ghost invariant = { λ b. IsKept (account b.schedule b.waiting.waiting b.chains.chains
        b.chains.dead b.events.events b.next b.ended b.restarts b.running b.limit) };
}

impl Books {
    /// The books before the first line has arrived: nobody waits, and nobody runs. `limit` is after
    /// how many jobs the run ends. It takes no memory.
    pub fn new(alloc: Global, lines: Seq<Line>, limit: u64) -> Books
        requires limit { limit ≤ MOST_JOBS }
        requires lines { length lines < 2 ^ 32 }
        ensures { result ≡ opened (map coming_of lines) limit }
    {
        Books {
            schedule: Schedule::new(alloc, lines),
            waiting: Buffers::new(alloc),
            chains: Chains::new(alloc),
            events: EventLog::new(alloc),
            next: 1,
            ended: 0,
            restarts: 0,
            running: 0,
            limit,
            alloc,
        }
    }

    /// How the next job starts, if one may begin: `None` exactly where no job waits, where as many
    /// jobs have ended or run as the limit says, or where the last restart has come.
    pub fn peek(&self) -> Option<JobStart>
        ensures { result ≡ upcoming self.now }
    {
        if self.ended + self.running >= self.limit || self.stopped() {
            return None;
        }
        let job = self.waiting.pick()?;
        Some(self.start_of(job.copy()))
    }

    /// Takes the next job out, if one may begin, and counts it as running: `None` as `peek`, and
    /// then nothing changes.
    pub fn next_job(&mut self) -> Option<JobStart>
        ensures start { result ≡ upcoming self.old }
        ensures left { self.new ≡ after_start result self.old }
    {
        if self.ended + self.running >= self.limit || self.stopped() {
            return None;
        }
        let job = self.waiting.take()?;
        self.running += 1;
        Some(self.start_of(job))
    }

    /// What a job that is picked starts with.
    fn start_of(&self, job: Job) -> JobStart
        ensures { result ≡ start_of job self.now.state }
    {
        let chain = self.chains.chain_of(job.forlopp);
        JobStart { job, chain }
    }

    /// How the run ends, if it does: after the last restart, else where nobody waits, else where as
    /// many jobs have ended as the limit says. It is asked where no job runs and no line is due.
    pub fn finished(&self) -> Option<Ending>
        ensures { option_map ending_of result ≡ ending_at self.now.limit self.now.state }
    {
        if self.stopped() {
            return Some(Ending::Restart);
        }
        if self.waiting.pick().is_none() {
            return Some(Ending::Done);
        }
        if self.limit <= self.ended {
            return Some(Ending::Limit);
        }
        None
    }

    /// For how many ended jobs the next line waits; `None` exactly where no line is left.
    pub fn lines_wait(&self) -> Option<u32>
        ensures { result ≡ next_count self.now.state.lines }
    {
        match self.schedule.next() {
            Some(line) => Some(line.after),
            None => None,
        }
    }

    /// Whether the last restart has come.
    pub fn stopped(&self) -> bool
        ensures { result ≡ has_stopped self.now.state }
    {
        self.restarts >= MOST_RESTARTS as u64
    }

    /// How many jobs have ended.
    pub fn ended(&self) -> u64
        ensures { result ≡ self.now.state.ended }
    {
        self.ended
    }

    /// How many jobs have begun and not yet retired.
    pub fn running(&self) -> u64
        ensures { result ≡ self.now.running }
    {
        self.running
    }

    /// The chains of the forlopps, and the numbers that are dead.
    pub fn chains(&self) -> &Chains
        ensures chains { result.now.chains ≡ self.now.state.chains }
        ensures dead { result.now.dead ≡ self.now.state.dead }
    {
        &self.chains
    }

    /// The events so far, in order, which leave the books: these have none then.
    #[tactic(auto, using(crate::proofs::Keeping::untold_kept))]
    pub fn take_events(&mut self) -> EventQueue
        ensures events { result ≡ self.old.state.events }
        ensures left { self.new ≡ untold self.old }
    {
        let log = mem::replace(&mut self.events, EventLog::new(self.alloc));
        log.into_queue()
    }

    /// The parts of the books. No job may run. It takes no memory.
    pub fn into_parts(self) -> BookParts
        requires nobody { self.running ≡ 0 }
        ensures books { account_of result ≡ self }
        ensures parts { AreParts result }
    {
        let Books {
            schedule,
            waiting,
            chains,
            events,
            next,
            ended,
            restarts,
            running: _,
            limit,
            alloc,
        } = self;
        let (lines, given, numbers) = schedule.into_parts();
        BookParts {
            buffers: waiting,
            chains,
            lines,
            next_line: given.len() as u32,
            given,
            numbers,
            next_forlopp: next,
            ended,
            restarts,
            limit,
            events,
            alloc,
        }
    }

    /// The books of these parts, of which no job runs. It takes no memory.
    pub fn from_parts(parts: BookParts) -> Books
        requires { AreParts parts }
        ensures { result ≡ account_of parts }
    {
        Books {
            schedule: Schedule::from_parts(parts.lines, parts.given, parts.numbers),
            waiting: parts.buffers,
            chains: parts.chains,
            events: parts.events,
            next: parts.next_forlopp,
            ended: parts.ended,
            restarts: parts.restarts,
            running: 0,
            limit: parts.limit,
            alloc: parts.alloc,
        }
    }
}
