// What a job's thread calls.

/// When a thread calls a gate: which moment of a job it is.
#[derive(Clone, Copy)]
pub enum Moment {
    /// Before the job's first step.
    Before,
    /// After the job's last step.
    After {
        /// How many steps the job ran.
        steps: u64,
    },
}

/// What is told of the jobs' threads. A call of it returns, and changes nothing that a contract
/// names.
pub trait Gate {
    /// The thread that runs a job calls this before and after it. Jobs have numbers from 1.
    fn at(&self, job: u64, moment: Moment);
}

/// A gate that does nothing.
pub struct NoGate;

impl Gate for NoGate {
    fn at(&self, _job: u64, _moment: Moment) {}
}
