// Whether a job may send more signals than it may.
ghost use Rattle.std.specs.Prelude.{◌≡◌, ◌↔◌, ◌+◌, ◌<◌, ◌^◌, map, slice_get, true};
ghost use Rattle.exchange_model.specs.declared.stmt.StmtKind.{out-StmtKind};
ghost use Rattle.flow_table.specs.Texts.{AreReachedAmong, seen};
ghost use Rattle.entry_summary.specs.Faults.{TooManySends};
ghost use Rattle.entry_faults.specs.Sends.{PostsHere, counts, joins_outbox as joins};
ghost use Rattle.entry_faults.specs.Sends.{posts as posts_layer};

use exchange_model::{Exchange, SignalKind, StmtKind};
use flow_table::{KnownFacts, PlaceAt};
use plex_limits::MOST_SENT;

/// Whether more statements are reached that send a signal to a buffer or out of the exchange than a
/// job may make such sends.
pub fn too_many_sends<K: KnownFacts>(
    exchange: &Exchange,
    places: &[PlaceAt<'_>],
    known: &K,
    entry: u32,
) -> bool
    requires { AreReachedAmong exchange.now (K.knows known.now) entry (map seen places.now) }
    ensures { (result ≡ true) ↔ TooManySends exchange.now (K.knows known.now) entry }
{
    exchange.kept();
    let mut sends = 0;
    for at in places {
        sends = counted(sends, posts_at(exchange, at, known, entry));
    }
    sends > MOST_SENT
}

/// One more, where a signal is sent.
fn counted(sends: usize, posts: bool) -> usize
    requires { sends + 1 < 2 ^ 64 }
    ensures { result ≡ sends + counts posts }
{
    if posts { sends + 1 } else { sends }
}

/// Whether a statement is reached and sends a signal to a buffer or out of the exchange.
#[tactic(auto, using(crate::proofs::Sending::posts_here, crate::proofs::Sending::posts_not))]
fn posts_at<K: KnownFacts>(exchange: &Exchange, at: &PlaceAt<'_>, known: &K, entry: u32) -> bool
    ensures { (result ≡ true) ↔ PostsHere exchange.now (K.knows known.now) entry at.now }
{
    posts(exchange, at.kind) && known.is_reached(entry, at.point)
}

/// Whether a statement sends a signal to a buffer or out of the exchange.
fn posts(exchange: &Exchange, kind: &StmtKind) -> bool
    ensures { result ≡ posts_layer exchange.now (out-StmtKind kind.now) }
{
    match kind {
        StmtKind::Send { signal, .. } => joins_outbox(exchange, *signal),
        _ => false,
    }
}

/// Whether a signal goes to a buffer or out of the exchange.
fn joins_outbox(exchange: &Exchange, signal: u32) -> bool
    ensures { result ≡ joins (slice_get exchange.now.signals signal) }
{
    exchange.kept();
    match exchange.signals.get(signal as usize) {
        Some(kind) => leaves(kind),
        None => false,
    }
}

fn leaves(kind: &SignalKind) -> bool
    ensures { result ≡ Rattle.entry_faults.specs.Sends.leaves kind.now }
{
    matches!(
        kind,
        SignalKind::Buffered { .. } | SignalKind::Outside { .. }
    )
}
