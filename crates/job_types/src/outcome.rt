ghost use Rattle.std.specs.Prelude.{◌≡◌};

use crate::chain::Chain;
use crate::fault::Fault;
use crate::outbox::Outbox;

/// How a job ended: of itself, or by a fault at a point, the number of a statement.
#[derive(Clone, Copy, PartialEq, Eq)]
pub enum Outcome {
    Ended,
    Faulted { fault: Fault, point: u32 },
}

/// What a job leaves: the signals that it sent, the chain of its forlopp as it ended, and how it
/// ended.
#[derive(Drop)]
pub struct JobDone {
    pub sends: Outbox,
    pub chain: Chain,
    pub outcome: Outcome,
}
