// The events so far, and those that are still to be told. Both keep them in few bytes.
ghost use Rattle.std.specs.Prelude.{◌≡◌, ◌+◌, ◌-◌, ◌<◌, ◌≤◌, ◌^◌, ◌++◌, ◌∷◌, [], length};
ghost use Rattle.std.specs.Prelude.{MatchOption, OnOk, IfOk, vec_capacity, vec_len};
ghost use Rattle.run_books.specs.Events.{event_of};

use crate::event::ReportEvent;
use crate::event_bytes::{MOST_EVENT_BYTES, put_event, read_event};
use plex_num::Memory;
use std::alloc::Global;
use std::marker::Model;

/// How many bytes of events are kept that have been told.
const KEPT_BYTES: usize = 262_144;

/// The events so far, in order. Contracts see them, and for how many more there is room. Each
/// number of an event takes a byte for each seven bits: a signal of small values takes some five
/// bytes, one of eight values of 32 bits some 46, and no event more than 120.
#[derive(Drop)]
pub struct EventLog {
    bytes: Vec<u8>,
    room: usize,
}

impl Model for EventLog {
    ghost use Rattle.std.specs.Prelude.{◌+◌, ◌*◌, ◌≤◌};
    ghost use Rattle.std.specs.Vec.{vec_capacity, vec_len};
    ghost use Rattle.run_books.specs.Events.{Logged};
    ghost use Rattle.run_books.specs.Bytes.{AreBytesOf, told};

    ghost Value = { Logged };

    ghost view = { λ l. record { events = told l.bytes.items; room = l.room } };

    ghost invariant = { λ l. AreBytesOf l.bytes.items (told l.bytes.items)
        × (vec_len l.bytes + 120 * l.room ≤ vec_capacity l.bytes) };
}

impl EventLog {
    /// No events; it takes no memory.
    #[tactic(auto, using(crate::proofs::Told::none_told, crate::proofs::Told::told_none))]
    pub fn new(alloc: Global) -> EventLog
        ensures { result.events ≡ [] }
    {
        EventLog {
            bytes: Vec::new(alloc),
            room: 0,
        }
    }

    /// Makes room for that many more events.
    pub(crate) fn reserve(&mut self, more: usize) -> Result<(), Memory>
        ensures events { self.new.events ≡ self.old.events }
        ensures room { OnOk result (more ≤ self.new.room) }
        ensures no_less { self.old.room ≤ self.new.room }
    {
        if more <= self.room {
            return Ok(());
        }
        let Some(most) = more.checked_mul(MOST_EVENT_BYTES) else {
            return Err(Memory);
        };
        grow(&mut self.bytes, most)?;
        self.room = more;
        Ok(())
    }

    /// An event more; there must be room for it.
    #[tactic(auto, using(crate::proofs::Told::told_more, crate::proofs::Told::more_told))]
    pub(crate) fn push_reserved(&mut self, event: ReportEvent)
        requires { 0 < self.old.room }
        ensures events { self.new.events ≡ self.old.events ++ event_of event ∷ [] }
        ensures room { self.new.room ≡ self.old.room - 1 }
    {
        put_event(&mut self.bytes, &event);
        self.room -= 1;
    }

    /// The events, to be told from the first one on.
    pub fn into_queue(self) -> EventQueue
        ensures { result ≡ self.events }
    {
        let EventLog { bytes, room: _ } = self;
        let mut last_first = bytes;
        last_first.reverse();
        EventQueue { last_first }
    }

    /// The same events, which stay in the log too.
    pub fn queue(&self, alloc: Global) -> Result<EventQueue, Memory>
        ensures { IfOk result (λ queue. queue ≡ self.now.events) }
    {
        match Vec::from_slice(alloc, self.bytes.as_slice()) {
            Ok(bytes) => {
                let mut last_first = bytes;
                last_first.reverse();
                Ok(EventQueue { last_first })
            }
            Err(_) => Err(Memory),
        }
    }
}

/// Events that are still to be told, in order, which is what contracts see. What has been told
/// gives its memory back.
#[derive(Drop)]
pub struct EventQueue {
    last_first: Vec<u8>,
}

impl Model for EventQueue {
    ghost use Rattle.std.specs.Prelude.{List, reverse};
    ghost use Rattle.source_meaning.specs.State.{RunEvent};
    ghost use Rattle.run_books.specs.Bytes.{AreBytesOf, told};

    ghost Value = { List RunEvent };

    ghost view = { λ q. told (reverse q.last_first.items) };

    ghost invariant = { λ q. AreBytesOf (reverse q.last_first.items)
        (told (reverse q.last_first.items)) };
}

impl EventQueue {
    /// The next event, which leaves the queue; `None` exactly where none is left.
    pub fn next(&mut self) -> Option<ReportEvent>
        ensures { MatchOption result (self.old ≡ []) (λ e. self.old ≡ event_of e ∷ self.new) }
    {
        if self.last_first.is_empty() {
            return None;
        }
        let event = read_event(&mut self.last_first);
        give_back(&mut self.last_first);
        Some(event)
    }

    /// There are fewer than 2^63 of them.
    pub fn are_few(&self)
        ensures { length self.now < 2 ^ 63 }
    {
        let _few = self.last_first.len();
    }
}

/// Makes room for that many more bytes, and for an eighth more than there are, so that a long list
/// is seldom moved.
fn grow(bytes: &mut Vec<u8>, more: usize) -> Result<(), Memory>
    ensures items { bytes.new.items ≡ bytes.old.items }
    ensures len { vec_len bytes.new ≡ vec_len bytes.old }
    ensures room { OnOk result (vec_len bytes.new + more ≤ vec_capacity bytes.new) }
    ensures no_less { vec_capacity bytes.old ≤ vec_capacity bytes.new }
{
    if bytes.capacity() - bytes.len() >= more {
        return Ok(());
    }
    match bytes.reserve_exact(more.max(bytes.len() / 8)) {
        Ok(()) => Ok(()),
        Err(_) => Err(Memory),
    }
}

/// Gives back the memory of what has been read, once it is much.
fn give_back(bytes: &mut Vec<u8>)
    ensures { bytes.new.items ≡ bytes.old.items }
{
    if bytes.capacity() - bytes.len() > KEPT_BYTES {
        bytes.shrink_to_fit();
    }
}
