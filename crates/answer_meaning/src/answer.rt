// The answer of a program, and why work on it stops.

use crate::fault::FileFault;
use command_words::Status;
use plex_num::Memory;
use text_parts::Text;

/// The text that the program writes, and its exit status.
pub struct Answer {
    pub status: Status,
    pub text: Text,
}

impl Drop for Answer {
    fn drop(self) {
        let Answer { status: _, text: _ } = self;
    }
}

/// How a program ended.
#[derive(Clone, Copy)]
pub struct ProgramEnd {
    pub status: Status,
    /// The fault whose line was written; `None` if no fault's line was written in full.
    pub fault: Option<FileFault>,
}

/// Why work on an answer stops.
#[derive(Drop)]
pub enum Stop {
    /// The first fault of a file, and the refusal that reports it.
    Told { answer: Answer, fault: FileFault },
    /// The shelf has no file of this name.
    NotHeld,
    /// A read failed.
    Failed,
    Memory,
}

impl From<Memory> for Stop {
    ghost use Rattle.std.specs.Prelude.{◌≡◌};
    ghost use Rattle.answer_meaning.specs.declared.answer.Stop.TheVariants.{Memory};

    ghost from_gives = { λ _ e. e ≡ Memory };

    fn from(_: Memory) -> Stop {
        Stop::Memory
    }
}
