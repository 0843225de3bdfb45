// How long a job of the register machine was.
use job_run::JobRun;
use offload_policy::job_length;

/// How long the job of a run is that has ended.
pub fn length_of(run: &JobRun) -> u64 {
    job_length(run.steps(), u64::from(run.counted()))
}
