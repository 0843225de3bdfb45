// The parts of the books.
use crate::event_log::EventLog;
use forlopp_chain::Chains;
use job_buffers::Buffers;
use plex_num::Seq;
use signal_file::Line;
use std::alloc::Global;
use std::collections::HashMap;

/// The parts of books of which no job runs: the jobs that wait; which forlopp holds what, and which
/// numbers are dead; all lines, how many of them have arrived, the forlopps that those got, in
/// their order, and the same by the numbers of the lines; the next new number; how many jobs have
/// ended, how many restarts came, and after how many jobs the run ends; and the events so far.
#[derive(Drop)]
pub struct BookParts {
    pub buffers: Buffers,
    pub chains: Chains,
    pub lines: Seq<Line>,
    pub next_line: u32,
    pub given: Seq<u64>,
    pub numbers: HashMap<u32, u64>,
    pub next_forlopp: u64,
    pub ended: u64,
    pub restarts: u64,
    pub limit: u64,
    pub events: EventLog,
    pub alloc: Global,
}
