// A fault takes effect in the books: its forlopp is released, or the exchange begins anew.
ghost use Rattle.std.specs.Prelude.{◌≡◌, ◌≢◌, ◌+◌, ◌<◌, ◌≤◌, ◌^◌, ◌++◌, ◌∷◌, [], false, OnOk};
ghost use Rattle.std.specs.FinMap as map;
ghost use Rattle.forlopp_chain.specs.Chains.{AreBelow};
ghost use Rattle.job_types.specs.Forlopps.{dead_below, is_dead, with_chain, with_dead};
ghost use Rattle.job_types.specs.Waiting.{nobody, others};
ghost use Rattle.run_books.specs.Traffic.{HasRoom, release_of, restart_of};

use crate::event::{Faulty, ReportEvent};
use crate::event_log::EventLog;
use forlopp_chain::Chains;
use job_buffers::Buffers;
use plex_num::{Level, Memory};

/// Makes room for so many more jobs at each level.
pub fn reserve_each(waiting: &mut Buffers, more: usize) -> Result<(), Memory>
    ensures waiting { waiting.new.waiting ≡ waiting.old.waiting }
    ensures room { OnOk result (HasRoom more waiting.new.room) }
{
    waiting.reserve(Level::A, more)?;
    waiting.reserve(Level::B, more)?;
    waiting.reserve(Level::C, more)?;
    waiting.reserve(Level::D, more)
}

/// The forlopp, which is live, ends: its jobs and its records go, and its number dies. There must
/// be room for the death and for the event.
pub fn release(
    waiting: &mut Buffers,
    chains: &mut Chains,
    events: &mut EventLog,
    forlopp: u64,
    fault: Faulty,
)
    requires deaths { 0 < chains.old.deaths }
    requires events { 0 < events.old.room }
    requires some { forlopp ≢ 0 }
    requires live { is_dead chains.old.dead forlopp ≡ false }
    ensures waiting { waiting.new.waiting ≡ others forlopp waiting.old.waiting }
    ensures chains { chains.new.chains ≡ with_chain chains.old.chains forlopp [] }
    ensures dead { chains.new.dead ≡ with_dead chains.old.dead forlopp }
    ensures events { events.new.events ≡ events.old.events
        ++ release_of forlopp fault waiting.old.waiting chains.old.chains ∷ [] }
{
    let jobs = waiting.remove_forlopp(forlopp);
    let chain = chains.kill_reserved(forlopp);
    events.push_reserved(ReportEvent::Release {
        forlopp,
        fault,
        jobs,
        records: chain.as_slice().len() as u32,
    });
}

/// The exchange begins anew: nobody waits, no record is held, and each number below the next new
/// one is dead. There must be room for the event.
pub fn begin_anew(
    waiting: &mut Buffers,
    chains: &mut Chains,
    events: &mut EventLog,
    next: u64,
    records: u32,
    fault: Faulty,
)
    requires events { 0 < events.old.room }
    requires below { AreBelow chains.old.chains next }
    ensures waiting { waiting.new.waiting ≡ nobody }
    ensures chains { chains.new.chains ≡ map.empty }
    ensures dead { chains.new.dead ≡ dead_below chains.old.dead next }
    ensures events { events.new.events ≡ events.old.events
        ++ restart_of fault waiting.old.waiting records ∷ [] }
{
    let jobs = waiting.remove_all();
    chains.kill_below(next);
    events.push_reserved(ReportEvent::Restart {
        fault,
        jobs,
        records,
    });
}
