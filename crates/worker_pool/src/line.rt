// A count that threads share, on lines of memory of its own.
use std::sync::Wait;
use std::sync::atomic::{AtomicU64, Ordering};
use std::time::Duration;

/// A count that has two lines of memory for itself, so that who changes it keeps nobody from
/// another one. Threads may sleep on it. It counts modulo 2^64, and has no clause: what is promised
/// of jobs knows nothing of how threads find them.
#[derive(Drop)]
pub(crate) struct Line {
    word: AtomicU64,
    _apart: [u64; 15],
}

impl Line {
    /// A count of none.
    pub fn new() -> Line {
        Line {
            word: AtomicU64::new(0),
            _apart: [0; 15],
        }
    }

    /// How many were counted.
    pub fn get(&self) -> u64 {
        self.word.load(Ordering::SeqCst)
    }

    /// The count becomes this one.
    pub fn set(&self, count: u64) {
        self.word.store(count, Ordering::SeqCst);
    }

    /// One more.
    pub fn add_one(&self) {
        self.word.fetch_add(1, Ordering::SeqCst);
    }

    /// One less.
    pub fn take_one(&self) {
        self.word.fetch_sub(1, Ordering::SeqCst);
    }

    /// One more, if the count still is this one. Whether it was.
    pub fn follows(&self, count: u64) -> bool {
        let next = count.wrapping_add(1);
        self.word
            .compare_exchange(count, next, Ordering::SeqCst, Ordering::SeqCst)
            .is_ok()
    }

    /// Sleeps, where the count still is this one, until somebody wakes this thread, or for so many
    /// microseconds.
    pub fn sleep<R: Wait>(&self, rt: &R, count: u64, micros: u64) {
        let low_half = (count % (1 << 32)) as u32;
        self.word
            .park_timeout(rt, low_half, Duration::from_micros(micros));
    }

    /// Wakes one of those that sleep here.
    pub fn wake_one(&self) {
        self.word.wake_one();
    }

    /// Wakes all that sleep here.
    pub fn wake_all(&self) {
        self.word.wake_all();
    }
}
