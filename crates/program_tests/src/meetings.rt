// Tests of the program with several workers: jobs that may run in parallel do so when a gate holds
// them.
use crate::steps::steps_of;
use crate::whole::{NotMade, answers};
use command_words::Status;
use plex_io::{Gate, MeetGate, Moment, SlideGate};
use std::alloc::Global;
use std::hint;
use std::sync::Wait;
use std::sync::atomic::{AtomicU64, Ordering};
use std::test::Fail;
use std::thread::{Threads, available_parallelism};

/// Jobs of this exchange may run in parallel. Each counts to 8,000 and shows its value, in 72,013
/// instructions, which makes it a long job. The first one runs before any other and shows that they
/// are long. Each has a forlopp of its own: a job with a loop may fault, and without a forlopp a
/// job that may fault runs alone.
const QUESTIONS: &str = "SIGNAL ASK SINGLE BUFFERED B DATA 1;
SIGNAL SHOW OUTSIDE DATA 1;
BLOCK Q;
DECLARE; TEMPORARY T; TEMPORARY I;
SURVEY; RECEIVE ASK; SEND SHOW;
PROGRAM;
ENTER ASK WITH T;
ON I FROM 1 UPTO 8000 DO NO;
SEND SHOW WITH T;
EXIT;
END BLOCK;
";

const THREE_ASKS: &str = "AFTER 0 ASK Q 7 NEW
AFTER 0 ASK Q 8 NEW
AFTER 0 ASK Q 9 NEW
";

const THREE_SHOWN: &str = "OUT 1 SHOW 7 F1
OUT 2 SHOW 8 F2
OUT 3 SHOW 9 F3
JOBS 3
END DONE
";

const FOUR_ASKS: &str = "AFTER 0 ASK Q 7 NEW
AFTER 0 ASK Q 8 NEW
AFTER 0 ASK Q 9 NEW
AFTER 0 ASK Q 10 NEW
";

const FOUR_SHOWN: &str = "OUT 1 SHOW 7 F1
OUT 2 SHOW 8 F2
OUT 3 SHOW 9 F3
OUT 4 SHOW 10 F4
JOBS 4
END DONE
";

/// The most polls for which a gate holds a job.
const TURNS: u64 = 20_000_000;

/// A gate at which all jobs but the first meet, and that adds up the steps reported to it.
#[derive(Drop)]
struct StepsGate {
    meet: MeetGate,
    steps: AtomicU64,
}

impl Gate for StepsGate {
    fn at(&self, job: u64, moment: Moment) {
        if job > 1 {
            self.meet.at(job, moment);
        }
        if let Moment::After { steps } = moment {
            self.steps.fetch_add(steps, Ordering::SeqCst);
        }
    }
}

/// A gate that holds each job from number `first` to `last` before its first step until `wanted`
/// jobs have begun.
#[derive(Drop)]
struct CrowdGate {
    first: u64,
    last: u64,
    wanted: u64,
    begun: AtomicU64,
    /// How many of the jobs held saw `wanted` jobs begin.
    seen: AtomicU64,
}

impl CrowdGate {
    fn new(first: u64, last: u64, wanted: u64) -> CrowdGate {
        CrowdGate {
            first,
            last,
            wanted,
            begun: AtomicU64::new(0),
            seen: AtomicU64::new(0),
        }
    }
}

impl Gate for CrowdGate {
    fn at(&self, job: u64, moment: Moment) {
        let Moment::Before = moment else {
            return;
        };
        self.begun.fetch_add(1, Ordering::SeqCst);
        if job < self.first || self.last < job {
            return;
        }
        for _ in 0..TURNS {
            if self.begun.load(Ordering::SeqCst) >= self.wanted {
                self.seen.fetch_add(1, Ordering::SeqCst);
                return;
            }
            hint::spin_loop();
        }
    }
}

/// Checks that a run of this exchange and these signal lines with this many workers writes this
/// report.
fn runs<R: Threads + Wait + Sync, G: Gate + Sync>(
    rt: &R,
    alloc: Global,
    (exchange, signals): (&str, &str),
    workers: &str,
    gate: &G,
    report: &str,
) -> Result<(), NotMade> {
    let words = ["run", "E", "S", "--workers", workers];
    let files = [("E", exchange), ("S", signals)];
    let wanted = (Status::Done, report);
    answers(rt, alloc, &words, &files, gate, wanted)
}

/// How many of the last two of three jobs saw both begin, and how many steps were reported to the
/// gate.
fn meetings<R: Threads + Wait + Sync>(
    rt: &R,
    alloc: Global,
    workers: &str,
) -> Result<(u64, u64), NotMade> {
    let gate = StepsGate {
        meet: MeetGate::new(TURNS),
        steps: AtomicU64::new(0),
    };
    let files = (QUESTIONS, THREE_ASKS);
    runs(rt, alloc, files, workers, &gate, THREE_SHOWN)?;
    Ok((gate.meet.seen(), gate.steps.load(Ordering::SeqCst)))
}

/// The steps reported to the gate are those that the dispatcher counts.
#[test]
fn two_jobs_meet(rt: HostRuntime) -> Result<(), Fail> {
    let steps = steps_of(&rt, rt.alloc(), QUESTIONS, THREE_ASKS)?;
    assert_eq!(rt; steps, 216_039);
    assert_eq!(rt; meetings(&rt, rt.alloc(), "2")?, (2, steps));
    assert_eq!(rt; meetings(&rt, rt.alloc(), "1")?, (1, steps));
    Ok(())
}

/// 1 if the third of three jobs begins while the second one is held for it; else 0.
fn slides<R: Threads + Wait + Sync>(rt: &R, alloc: Global, workers: &str) -> Result<u64, NotMade> {
    let gate = SlideGate::new(TURNS);
    let files = (QUESTIONS, THREE_ASKS);
    runs(rt, alloc, files, workers, &gate, THREE_SHOWN)?;
    Ok(gate.seen())
}

#[test]
fn a_job_begins_while_an_older_one_runs(rt: HostRuntime) -> Result<(), Fail> {
    assert_eq!(rt; slides(&rt, rt.alloc(), "2")?, 1);
    assert_eq!(rt; slides(&rt, rt.alloc(), "1")?, 0);
    Ok(())
}

/// The same exchange with short jobs, of nine instructions each.
const SHORT_QUESTIONS: &str = "SIGNAL ASK SINGLE BUFFERED B DATA 1;
SIGNAL SHOW OUTSIDE DATA 1;
BLOCK Q;
DECLARE; TEMPORARY T;
SURVEY; RECEIVE ASK; SEND SHOW;
PROGRAM;
ENTER ASK WITH T;
SEND SHOW WITH T;
EXIT;
END BLOCK;
";

/// The certificate of SHORT_QUESTIONS.
const SHORT_CERTIFICATE: &str = "PLEX CERTIFICATE 2
EXCHANGE signals 2 blocks 1 points 4 cells 0 entries 1 references 0
FACT 0 0 T0 CONST 0
FACT 0 0 E0 ARG 0
FACT 0 0 DEPTH CONST 0
FACT 0 0 AWAITS CONST 0
FACT 0 1 T0 ARG 0
FACT 0 1 E0 ARG 0
FACT 0 1 DEPTH CONST 0
FACT 0 1 AWAITS CONST 0
FACT 0 2 T0 ARG 0
FACT 0 2 E0 ARG 0
FACT 0 2 DEPTH CONST 0
FACT 0 2 AWAITS CONST 0
END CERTIFICATE
";

const TWELVE_ASKS: &str = "AFTER 0 ASK Q 1 NONE
AFTER 0 ASK Q 2 NONE
AFTER 0 ASK Q 3 NONE
AFTER 0 ASK Q 4 NONE
AFTER 0 ASK Q 5 NONE
AFTER 0 ASK Q 6 NONE
AFTER 0 ASK Q 7 NONE
AFTER 0 ASK Q 8 NONE
AFTER 0 ASK Q 9 NONE
AFTER 0 ASK Q 10 NONE
AFTER 0 ASK Q 11 NONE
AFTER 0 ASK Q 12 NONE
";

const TWELVE_SHOWN: &str = "OUT 1 SHOW 1 F0
OUT 2 SHOW 2 F0
OUT 3 SHOW 3 F0
OUT 4 SHOW 4 F0
OUT 5 SHOW 5 F0
OUT 6 SHOW 6 F0
OUT 7 SHOW 7 F0
OUT 8 SHOW 8 F0
OUT 9 SHOW 9 F0
OUT 10 SHOW 10 F0
OUT 11 SHOW 11 F0
OUT 12 SHOW 12 F0
JOBS 12
END DONE
";

/// After the first job, three begin before any of them continues if there are three threads, and
/// two if there are two. So two workers are used, or one.
#[test]
fn each_worker_is_used(rt: HostRuntime) -> Result<(), Fail> {
    let threads = match available_parallelism(&rt) {
        Ok(count) => count.get() as u64,
        Err(_) => 2,
    };
    let gate = CrowdGate::new(2, 4, threads.max(2).min(3) + 1);
    let files = (QUESTIONS, FOUR_ASKS);
    runs(&rt, rt.alloc(), files, "3", &gate, FOUR_SHOWN)?;
    assert_eq!(rt; gate.seen.load(Ordering::SeqCst), 3);
    Ok(())
}

/// The second job continues when all twelve have begun: so eleven are in flight, on any number of
/// threads. With a certificate the dispatcher runs the first job too; until one job of an entry has
/// ended, it assumes that the entry's jobs are long.
#[test]
fn more_jobs_fly_than_threads_run(rt: HostRuntime) -> Result<(), Fail> {
    let gate = CrowdGate::new(2, 2, 12);
    let words = ["run", "E", "S", "--workers", "64", "--cert", "C"];
    let files = [
        ("E", SHORT_QUESTIONS),
        ("S", TWELVE_ASKS),
        ("C", SHORT_CERTIFICATE),
    ];
    let wanted = (Status::Done, TWELVE_SHOWN);
    answers(&rt, rt.alloc(), &words, &files, &gate, wanted)?;
    assert_eq!(rt; gate.seen.load(Ordering::SeqCst), 1);
    Ok(())
}
