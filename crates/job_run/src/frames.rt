// The callers that wait for an answer.
ghost use Rattle.std.specs.Prelude.{◌≡◌, ◌<◌, ◌∷◌, [], drop, length, replicate};
ghost use Rattle.machine_meaning.specs.Private.{awaits};
ghost use Rattle.job_run.specs.Kept.{frame_of};

use crate::locals::Kept;
use plex_limits::MOST_CALLERS;
use std::marker::Model;

/// What a place holds that was never used; no list of frames ever shows it.
const UNUSED: Waiting = Waiting {
    back: 0,
    locals: Kept::ZEROS,
    given: [0; 8],
    awaits: 0,
};

/// A caller that waits: the address at which it goes on, its locals and entry values, and the
/// number of the signal that answers it.
#[derive(Clone, Copy)]
pub(crate) struct Waiting {
    pub back: usize,
    pub locals: Kept,
    pub given: [u32; 8],
    awaits: u32,
}

/// The callers that wait: at most eight, which contracts see as a list, the latest first. A place
/// that is left keeps what it held, so that to leave it costs no more than to count one fewer.
#[derive(Drop)]
pub struct Frames {
    waiting: [Waiting; MOST_CALLERS],
    count: usize,
}

impl Model for Frames {
    ghost use Rattle.std.specs.Prelude.{List, ◌≤◌};
    ghost use Rattle.plex_limits.specs.declared.limits.TheConstants.{MOST_CALLERS};
    ghost use Rattle.machine_meaning.specs.declared.frame.Frame.{Frame};
    ghost use Rattle.job_run.specs.Kept.{frames_of};

    ghost Value = { List Frame };

    ghost view = { λ f. frames_of f.waiting f.count };

    ghost invariant = { λ f. f.count ≤ MOST_CALLERS };
}

impl Frames {
    /// No callers.
    pub fn new() -> Frames
        ensures { result ≡ [] }
    {
        Frames {
            waiting: [UNUSED; MOST_CALLERS],
            count: 0,
        }
    }

    /// No caller waits any more.
    pub fn clear(&mut self)
        ensures { self.new ≡ [] }
    {
        self.count = 0;
    }

    /// How many callers wait.
    pub fn len(&self) -> usize
        ensures { result ≡ length self.now }
    {
        let places: &[Waiting] = &self.waiting;
        let _ = places;
        self.count
    }

    /// One more caller waits, whose locals are put away and cleared; there must be room for it.
    #[tactic(auto, using(crate::proofs::Framing::how_many, crate::proofs::Framing::one_more))]
    pub fn push(&mut self, back: usize, locals: &mut [u32; 50], given: &[u32; 8], awaits: u32)
        requires { length self.old < MOST_CALLERS }
        ensures cleared { locals.new ≡ replicate 50 0 }
        ensures waits { self.new ≡ record {
          back = back;
          locals = locals.old;
          given = given.now;
          awaits = awaits;
        } ∷ self.old }
    {
        let frame = &mut self.waiting[self.count];
        frame.back = back;
        frame.locals.put_away(locals);
        frame.given = *given;
        frame.awaits = awaits;
        self.count += 1;
    }

    /// Whether the latest caller waits for this answer.
    #[tactic(auto, using(crate::proofs::Framing::none_awaits, crate::proofs::Framing::last_awaits))]
    pub fn awaits(&self, answer: u32) -> bool
        ensures { result ≡ awaits self.now answer }
    {
        if self.count == 0 {
            return false;
        }
        self.waiting[self.count - 1].awaits == answer
    }

    /// The latest caller; there must be one.
    #[tactic(auto, using(crate::proofs::Framing::how_many, crate::proofs::Framing::last_of))]
    pub fn latest(&self) -> &Waiting
        requires { 0 < length self.now }
        ensures { self.now ≡ frame_of result.now ∷ drop 1 self.now }
    {
        &self.waiting[self.count - 1]
    }

    /// The latest caller waits no more; there must be one.
    #[tactic(auto, using(crate::proofs::Framing::how_many, crate::proofs::Framing::one_fewer))]
    pub fn leave(&mut self)
        requires { 0 < length self.old }
        ensures { self.new ≡ drop 1 self.old }
    {
        self.count -= 1;
    }
}
