ghost use Rattle.std.specs.Prelude.{◌≡◌, ◌<◌, ◌≤◌, ◌++◌, ◌∷◌, [], List, length, remove, slice_get};
ghost use Rattle.std.specs.Prelude.{Some};

use arrayvec::ArrayVec;
use plex_limits::MOST_SENT;
use plex_num::{Level, Values};
use std::marker::Model;

/// Where a signal goes: to an entry, by the buffer of a level and maybe in a new forlopp, or out of
/// the exchange.
#[derive(Clone, Copy, PartialEq, Eq)]
pub enum SendTo {
    Queue {
        entry: u32,
        level: Level,
        fresh: bool,
    },
    Outside {
        signal: u32,
    },
}

/// A signal that a job sent.
#[derive(Drop)]
pub struct Sent {
    pub to: SendTo,
    pub values: Values,
}

impl Sent {
    /// Another signal to the same place with the same values. It takes no memory.
    pub fn copy(&self) -> Sent
        ensures { result ≡ self.now }
    {
        Sent {
            to: self.to,
            values: self.values.copy(),
        }
    }
}

/// What an unused place of an outbox holds; no list of signals ever shows it.
impl Default for Sent {
    fn default() -> Sent {
        Sent {
            to: SendTo::Outside { signal: 0 },
            values: Values::new(),
        }
    }
}

/// The signals that a job sent, in order: at most 255, which contracts see as a list. None of its
/// calls takes memory.
#[derive(Drop)]
pub struct Outbox {
    sent: ArrayVec<Sent, MOST_SENT>,
}

impl Model for Outbox {
    ghost use Rattle.std.specs.Prelude.{List};
    ghost use Rattle.job_types.specs.declared.outbox.Sent.{Sent};

    ghost Value = { List Sent };

    ghost view = { λ o. o.sent.items };
}

impl Outbox {
    /// An outbox of no signals.
    pub fn new() -> Outbox
        ensures { result ≡ [] }
    {
        Outbox {
            sent: ArrayVec::new(),
        }
    }

    /// Appends a signal; there must be room for it.
    pub fn push(&mut self, item: Sent)
        requires { length self.old < MOST_SENT }
        ensures { self.new ≡ self.old ++ item ∷ [] }
    {
        self.sent.push(item);
    }

    /// Takes out the signal at a place, counted from 0.
    pub fn remove(&mut self, i: usize) -> Sent
        requires { i < length self.old }
        ensures item { slice_get self.old i ≡ Some result }
        ensures left { self.new ≡ remove self.old i }
    {
        self.sent.remove(i)
    }

    /// Forgets all signals, in the time that it takes to drop them.
    pub fn clear(&mut self)
        ensures { self.new ≡ [] }
    {
        self.sent.clear();
    }

    /// The signals.
    pub fn as_slice(&self) -> &[Sent]
        ensures items { result.now ≡ self.now }
        ensures room { length self.now ≤ MOST_SENT }
    {
        self.sent.as_slice()
    }

    /// Another outbox of the same signals.
    pub fn copy(&self) -> Outbox
        ensures { result ≡ self.now }
    {
        let mut made = Outbox::new();
        for sent in self.sent.as_slice() {
            made.push(sent.copy());
        }
        made
    }
}
