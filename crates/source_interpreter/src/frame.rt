// The senders that wait for an answer.
ghost use Rattle.std.specs.Prelude.{◌≡◌, ◌∷◌, ◌++◌, [], length, OnOk, IfNone};
ghost use Rattle.std.specs.Option.{option_to_list};

use crate::work::Work;
use plex_limits::{MOST_TEMPORARIES, MOST_VALUES};
use plex_num::Memory;
use std::alloc::Global;
use std::marker::Model;

/// Where a sender goes on, and what it keeps.
#[derive(Drop)]
pub struct Frame<'a> {
    pub block: u32,
    pub work: Work<'a>,
    pub temps: [u32; MOST_TEMPORARIES],
    pub given: [u32; MOST_VALUES],
    /// The answer that it waits for, a signal by its number.
    pub awaits: u32,
}

impl<'a> Model for Frame<'a> {
    ghost use Rattle.source_meaning.specs.Config.{Caller};
    ghost use Rattle.std.specs.Coded.{codes};
    ghost use Rattle.exchange_model.specs.contracts.stmt.StmtKind as kind;

    ghost Value = { Caller };

    ghost coded = { Prim.hlevel (codes, kind.the_row.coded) };

    ghost view = { λ f. record {
      block = f.block;
      todo = f.work;
      temps = f.temps;
      given = f.given;
      awaits = f.awaits;
    } };
}

/// The senders that wait, which contracts see as a list, the last one first.
#[derive(Drop)]
pub struct Callers<'a> {
    frames: Vec<Frame<'a>>,
}

impl<'a> Model for Callers<'a> {
    ghost use Rattle.std.specs.Prelude.{List, reverse};
    ghost use Rattle.source_meaning.specs.Config.{Caller};
    ghost use Rattle.std.specs.Coded.{codes};
    ghost use Rattle.exchange_model.specs.contracts.stmt.StmtKind as kind;

    ghost Value = { List Caller };

    ghost coded = { Prim.hlevel (codes, kind.the_row.coded) };

    ghost view = { λ c. reverse c.frames.items };
}

impl<'a> Callers<'a> {
    /// No sender waits.
    pub fn new(alloc: Global) -> Callers<'a>
        ensures { result ≡ [] }
    {
        Callers {
            frames: Vec::new(alloc),
        }
    }

    /// How many wait.
    #[tactic(auto, using(crate::proofs::Last::length_is))]
    pub fn len(&self) -> usize
        ensures { result ≡ length self.now }
    {
        self.frames.len()
    }

    /// One more waits.
    #[tactic(auto, using(crate::proofs::Last::last_first))]
    pub fn push(&mut self, frame: Frame<'a>) -> Result<(), Memory>
        ensures { OnOk result (self.new ≡ frame.entry ∷ self.old) }
    {
        match self.frames.push(frame) {
            Ok(()) => Ok(()),
            Err(_) => Err(Memory),
        }
    }

    /// Takes out the last one.
    #[tactic(auto, using(crate::proofs::Last::last_taken))]
    pub fn pop(&mut self) -> Option<Frame<'a>>
        ensures last { self.old ≡ option_to_list result ++ self.new }
        ensures none { IfNone result (self.old ≡ []) }
    {
        self.frames.pop()
    }
}
