// What happens to the core, and why something cannot.
use plex_num::Memory;

/// What happens to the core.
#[derive(Clone, Copy)]
pub enum CoreEvent {
    /// The next job is issued: it waits no more, and stands last in the window.
    Issue,
    /// A job of the window makes one instruction. `job` is its place in the order of issue since
    /// the events began, from 1.
    Step { job: u64 },
    /// The oldest job of the window retires.
    Retire,
}

/// Why there is nothing after some events.
#[derive(Clone, Copy)]
pub enum CoreFault {
    /// The event at this place of the list, counted from 0, is not allowed after those before it,
    /// which are.
    NotEnabled { at: u64 },
    /// Memory was refused.
    Memory,
}

impl From<Memory> for CoreFault {
    ghost use Rattle.std.specs.Prelude.{◌≡◌};
    ghost use Rattle.interleave_core.specs.declared.event.CoreFault.TheVariants.{Memory};

    ghost from_gives = { λ _ e. e ≡ Memory };

    fn from(_: Memory) -> CoreFault {
        CoreFault::Memory
    }
}
