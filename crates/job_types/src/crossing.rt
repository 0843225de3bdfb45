// Which types threads hand to one another and share.
use crate::job::JobStart;
use crate::outcome::JobDone;

/// Can be called for what one thread may hand to another, and several may share.
fn crosses<T: Send + Sync>() {}

/// A start may cross threads.
pub fn job_start_crosses() {
    crosses::<JobStart>();
}

/// The end of a job may cross threads.
pub fn job_done_crosses() {
    crosses::<JobDone>();
}
