// The levels to which a job of an entry may send.
ghost use Rattle.std.specs.Prelude.{◌≡◌, ◌↔◌, ◌∷◌, ◌++◌, [], map, slice_get, IfOk, OnOk};
ghost use Rattle.std.specs.List.{Contains, filter};
ghost use Rattle.std.specs.List.Sorted.{IsStrictlySortedBy};
ghost use Rattle.plex_num.specs.declared.level.Level.{Level as LevelType};
ghost use Rattle.exchange_model.specs.declared.stmt.StmtKind.{out-StmtKind};
ghost use Rattle.flow_table.specs.Texts.{AreReachedAmong, seen};
ghost use Rattle.entry_summary.specs.Orders.{level_order};
ghost use Rattle.entry_summary.specs.Summaries.{MaySendTo};
ghost use Rattle.entry_accesses.specs.Adding.{Adds};
ghost use Rattle.entry_accesses.specs.Levels.{HasLevel, buffer_level, in_order};
ghost use Rattle.entry_accesses.specs.Levels.{is_sent as is_sent_level, sent_level};

use exchange_model::{Exchange, SignalKind, StmtKind};
use flow_table::{KnownFacts, PlaceAt};
use plex_num::{Level, Memory, Seq};
use std::alloc::Global;

/// The levels to which a job of the entry may send, from A on, each once. The places are of the
/// exchange, and all that are reached are among them.
pub fn levels_of<K: KnownFacts>(
    alloc: Global,
    exchange: &Exchange,
    places: &[PlaceAt<'_>],
    known: &K,
    entry: u32,
) -> Result<Seq<Level>, Memory>
    requires { AreReachedAmong exchange.now (K.knows known.now) entry (map seen places.now) }
    ensures exact { IfOk result (λ levels. (l : LevelType) → Contains levels l
        ↔ MaySendTo exchange.now (K.knows known.now) entry l) }
    ensures rising { IfOk result (λ levels. IsStrictlySortedBy level_order levels) }
{
    let sent = sent_of(alloc, exchange, places, known, entry)?;
    let levels = from_a_on(alloc, sent.as_slice())?;
    Ok(levels)
}

/// The same in the order of the text, some more than once.
fn sent_of<K: KnownFacts>(
    alloc: Global,
    exchange: &Exchange,
    places: &[PlaceAt<'_>],
    known: &K,
    entry: u32,
) -> Result<Seq<Level>, Memory>
    requires { AreReachedAmong exchange.now (K.knows known.now) entry (map seen places.now) }
    ensures { IfOk result (λ sent. (l : LevelType) → Contains sent l
        ↔ MaySendTo exchange.now (K.knows known.now) entry l) }
{
    let mut sent = Seq::new(alloc);
    for at in places {
        push_sent(exchange, known, entry, at, &mut sent)?;
    }
    Ok(sent)
}

/// Appends the level to which a statement sends, if it is reached and sends to one.
fn push_sent<K: KnownFacts>(
    exchange: &Exchange,
    known: &K,
    entry: u32,
    at: &PlaceAt<'_>,
    sent: &mut Seq<Level>,
) -> Result<(), Memory>
    ensures { OnOk result (Adds sent.old sent.new
        (HasLevel exchange.now (K.knows known.now) entry (seen at.now))) }
{
    if !known.is_reached(entry, at.point) {
        return Ok(());
    }
    if let Some(level) = level_of(exchange, at.kind) {
        sent.push(level)?;
    }
    Ok(())
}

/// The level to which a statement sends; `None` exactly where it sends to no buffer.
fn level_of(exchange: &Exchange, kind: &StmtKind) -> Option<Level>
    ensures { result ≡ sent_level exchange.now (out-StmtKind kind.now) }
{
    match kind {
        StmtKind::Send { signal, .. } => buffer_of(exchange, *signal),
        _ => None,
    }
}

/// The level of a buffered signal; `None` exactly for any other number.
fn buffer_of(exchange: &Exchange, signal: u32) -> Option<Level>
    ensures { result ≡ buffer_level (slice_get exchange.now.signals signal) }
{
    match exchange.signals.get(signal as usize) {
        Some(SignalKind::Buffered { level, .. }) => Some(*level),
        _ => None,
    }
}

/// Those of all levels that are among these, from A on.
fn from_a_on(alloc: Global, sent: &[Level]) -> Result<Seq<Level>, Memory>
    ensures { IfOk result (λ levels. levels ≡ in_order sent.now) }
{
    let mut levels = Seq::new(alloc);
    push_if_sent(sent, Level::A, &mut levels)?;
    push_if_sent(sent, Level::B, &mut levels)?;
    push_if_sent(sent, Level::C, &mut levels)?;
    push_if_sent(sent, Level::D, &mut levels)?;
    Ok(levels)
}

#[tactic(auto, using(crate::proofs::Leveling::is_among, crate::proofs::Leveling::not_among))]
fn push_if_sent(sent: &[Level], level: Level, levels: &mut Seq<Level>) -> Result<(), Memory>
    ensures { OnOk result (levels.new ≡ levels.old
        ++ filter (is_sent_level sent.now) (level ∷ [])) }
{
    if is_sent(sent, level) {
        return levels.push(level);
    }
    Ok(())
}

fn is_sent(sent: &[Level], level: Level) -> bool
    ensures { result ≡ is_sent_level sent.now level }
{
    sent.contains(&level)
}
