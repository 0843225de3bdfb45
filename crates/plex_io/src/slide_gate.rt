// A gate at which one job waits for the next.
use crate::gate::{Gate, Moment};
use crate::turns::comes_to;
use std::sync::atomic::{AtomicU64, Ordering};

/// A gate that holds job 2 before its first step until job 3 has begun, for a number of turns at
/// most. It holds no other job.
#[derive(Drop)]
pub struct SlideGate {
    limit: u64,
    /// How many times job 3 has begun, which is 0 or 1.
    third: AtomicU64,
    /// 1 once job 2 found that job 3 had begun.
    seen: AtomicU64,
}

impl SlideGate {
    /// A gate that no job has come to. It holds job 2 for so many turns at most; a turn is one look
    /// at whether job 3 has begun.
    pub fn new(limit: u64) -> SlideGate {
        SlideGate {
            limit,
            third: AtomicU64::new(0),
            seen: AtomicU64::new(0),
        }
    }

    /// 1 exactly where job 2 found that job 3 had begun, and else 0.
    pub fn seen(&self) -> u64 {
        self.seen.load(Ordering::SeqCst)
    }
}

impl Gate for SlideGate {
    fn at(&self, job: u64, moment: Moment) {
        if let Moment::Before = moment {
            if job == 3 {
                self.third.store(1, Ordering::SeqCst);
            }
            if job == 2 && comes_to(&self.third, 1, self.limit) {
                self.seen.store(1, Ordering::SeqCst);
            }
        }
    }
}
