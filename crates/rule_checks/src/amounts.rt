// The numbers that have limits.
ghost use Rattle.std.specs.Prelude.{◌≡◌, ◌+◌, ℕ, List, [], Option, IfOk};
ghost use Rattle.exchange_model.specs.declared.signal.SignalKind.{SignalKind as SignalOf};
ghost use Rattle.signal_types.specs.Found.{kind_in};
ghost use Rattle.text_events.specs.Note.{begun};
ghost use Rattle.text_events.specs.Seen.{note_of, head_seen};
ghost use Rattle.text_rules.specs.Links.{is_buffered, signals_note, blocks_note, entries_head};
ghost use Rattle.text_rules.specs.Links.{statements_note, cells_note, adds, amounts_in, plus};
ghost use Rattle.text_rules.specs.Links.{goes_over, one_goes_over};
ghost use Rattle.rule_checks.specs.Tables.{amounts_of};

use exchange_model::SignalKind;
use plex_limits::{MOST_BLOCKS, MOST_CELLS, MOST_ENTRIES, MOST_SIGNALS, MOST_STATEMENTS};
use plex_num::Memory;
use signal_types::SignalTable;
use text_events::{EventKind, Head};
use token_grammar::KeptName;

/// How much there is of what has limits.
#[derive(Clone, Copy)]
pub(crate) struct Counted {
    pub(crate) signals: u64,
    pub(crate) blocks: u64,
    pub(crate) entries: u64,
    pub(crate) statements: u64,
    pub(crate) cells: u64,
}

fn count_signals(kind: EventKind<'_>) -> u64
    ensures { result ≡ signals_note (note_of kind.entry) }
{
    match kind {
        EventKind::Signals { count } => u64::from(count),
        _ => 0,
    }
}

fn count_blocks(kind: EventKind<'_>) -> u64
    ensures { result ≡ blocks_note (note_of kind.entry) }
{
    match kind {
        EventKind::Block => 1,
        _ => 0,
    }
}

fn is_buffered(signals: &SignalTable, name: &KeptName) -> bool
    ensures { result ≡ is_buffered (kind_in signals.now.kinds.now name.now) }
{
    match signals.kind(name) {
        Some(SignalKind::Buffered { .. }) => true,
        _ => false,
    }
}

fn count_entries(signals: &SignalTable, here: Head<'_>) -> u64
    ensures { result ≡ entries_head (kind_in signals.now.kinds.now) (head_seen here.entry) }
{
    match here {
        Head::Enters { signal, count: _ } => u64::from(is_buffered(signals, signal)),
        _ => 0,
    }
}

fn count_statements(kind: EventKind<'_>) -> u64
    ensures { result ≡ statements_note (note_of kind.entry) }
{
    match kind {
        EventKind::Begins { .. } => 1,
        EventKind::BeginsItem { .. } => 1,
        EventKind::Ends => 1,
        _ => 0,
    }
}

fn count_cells(kind: EventKind<'_>) -> u64
    ensures { result ≡ cells_note (note_of kind.entry) }
{
    match kind {
        EventKind::Cells { count } => count,
        _ => 0,
    }
}

/// How much an event adds.
pub(crate) fn added_at(signals: &SignalTable, kind: EventKind<'_>) -> Counted
    ensures { amounts_of result ≡ adds (kind_in signals.now.kinds.now) (note_of kind.entry) }
{
    Counted {
        signals: count_signals(kind),
        blocks: count_blocks(kind),
        entries: count_entries(signals, kind.begun()),
        statements: count_statements(kind),
        cells: count_cells(kind),
    }
}

/// A number goes over its limit here, and not before.
fn exceeds(limit: u64, before: u64, count: u64) -> bool
    ensures { result ≡ goes_over limit before count }
{
    before <= limit && limit - before < count
}

fn sum(a: u64, b: u64) -> Result<u64, Memory>
    ensures { IfOk result (λ n. n ≡ a + b) }
{
    a.checked_add(b).ok_or(Memory)
}

impl Counted {
    /// Nothing.
    pub(crate) fn none() -> Counted
        ensures { (kind : List ℕ → Option SignalOf) → amounts_of result ≡ amounts_in kind [] }
    {
        Counted {
            signals: 0,
            blocks: 0,
            entries: 0,
            statements: 0,
            cells: 0,
        }
    }

    /// Whether one number goes over its limit with so much more.
    pub(crate) fn goes_over(&self, more: Counted) -> bool
        ensures { result ≡ one_goes_over (amounts_of self.now) (amounts_of more) }
    {
        exceeds(MOST_SIGNALS as u64, self.signals, more.signals)
            || exceeds(MOST_BLOCKS as u64, self.blocks, more.blocks)
            || exceeds(MOST_ENTRIES as u64, self.entries, more.entries)
            || exceeds(MOST_STATEMENTS as u64, self.statements, more.statements)
            || exceeds(MOST_CELLS as u64, self.cells, more.cells)
    }

    /// So much more; Memory where a number has more than 64 bits.
    pub(crate) fn plus(&self, more: Counted) -> Result<Counted, Memory>
        ensures { IfOk result (λ sum. amounts_of sum ≡ plus (amounts_of self.now) (amounts_of more)) }
    {
        Ok(Counted {
            signals: sum(self.signals, more.signals)?,
            blocks: sum(self.blocks, more.blocks)?,
            entries: sum(self.entries, more.entries)?,
            statements: sum(self.statements, more.statements)?,
            cells: sum(self.cells, more.cells)?,
        })
    }
}
