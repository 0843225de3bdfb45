// The sends of a job that retires take effect.
ghost use Rattle.std.specs.Prelude.{◌+◌, ◌<◌, ◌≤◌, ◌^◌, length};
ghost use Rattle.source_meaning.specs.Retirement.{all_delivered, delivered};
ghost use Rattle.run_books.specs.Traffic.{HasRoom, Leads, LosesOne, with_traffic};

use crate::event::ReportEvent;
use crate::event_log::EventLog;
use job_buffers::Buffers;
use job_types::{Job, SendTo, Sent};

/// The sends of a job of this forlopp take effect, in order; it is the job by which so many have
/// ended. What comes back is the next new number. There must be room for all of them.
#[tactic(auto, using(crate::proofs::Traffic::delivers_begin, crate::proofs::Traffic::delivers_end, crate::proofs::Traffic::room_left))]
pub fn deliver_all(
    waiting: &mut Buffers,
    events: &mut EventLog,
    next: u64,
    ended: u64,
    forlopp: u64,
    sends: &[Sent],
) -> u64
    requires jobs { HasRoom (length sends.now) waiting.old.room }
    requires events { length sends.now ≤ events.old.room }
    requires next { next + length sends.now < 2 ^ 64 }
    ensures state { Leads ended (all_delivered forlopp sends.now)
        (with_traffic waiting.old.waiting events.old.events next)
        (with_traffic waiting.new.waiting events.new.events result) }
    ensures events { events.old.room ≤ events.new.room + length sends.now }
    ensures up { next ≤ result }
    ensures few { result ≤ next + length sends.now }
{
    let mut after = next;
    for sent in sends {
        after = deliver(waiting, events, after, ended, forlopp, sent);
    }
    after
}

/// A send leaves the exchange, or joins its list in a new forlopp or in the job's.
#[tactic(auto, using(crate::proofs::Traffic::room_for, crate::proofs::Traffic::loses_none, crate::proofs::Traffic::loses_at))]
fn deliver(
    waiting: &mut Buffers,
    events: &mut EventLog,
    next: u64,
    ended: u64,
    forlopp: u64,
    sent: &Sent,
) -> u64
    requires jobs { HasRoom 1 waiting.old.room }
    requires events { 0 < events.old.room }
    requires next { next + 1 < 2 ^ 64 }
    ensures state { Leads ended (delivered forlopp sent.now)
        (with_traffic waiting.old.waiting events.old.events next)
        (with_traffic waiting.new.waiting events.new.events result) }
    ensures room { LosesOne waiting.old.room waiting.new.room }
    ensures events { events.old.room ≤ events.new.room + 1 }
    ensures up { next ≤ result }
    ensures few { result ≤ next + 1 }
{
    let values = sent.values.copy();
    match sent.to {
        SendTo::Outside { signal } => {
            events.push_reserved(ReportEvent::Out {
                job: ended,
                signal,
                values,
                forlopp,
            });
            next
        }
        SendTo::Queue {
            entry,
            level,
            fresh,
        } => {
            let job = Job {
                entry,
                level,
                values,
                forlopp: if fresh { next } else { forlopp },
            };
            waiting.push_reserved(job);
            if fresh { next + 1 } else { next }
        }
    }
}
