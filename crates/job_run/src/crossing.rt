// Which types threads hand to one another and share.
use crate::run::JobRun;

/// Can be called for what one thread may hand to another, and several may share.
fn crosses<T: Send + Sync>() {}

/// A run may cross threads.
pub fn job_run_crosses() {
    crosses::<JobRun>();
}
