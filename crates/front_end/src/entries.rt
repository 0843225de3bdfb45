// Where jobs start.
ghost use Rattle.std.specs.Prelude.{◌≡◌, ◌++◌, OnOk};
ghost use Rattle.exchange_model.specs.Kept.{entered, entry_at, entries_in};
ghost use Rattle.exchange_model.specs.declared.stmt.StmtKind.{out-StmtKind};

use exchange_model::{Entry, SignalKind, Stmt, StmtKind};
use plex_num::{Memory, Seq};

/// The signal of an ENTER.
fn entered(kind: &StmtKind) -> Option<u32>
    ensures { result ≡ entered (out-StmtKind kind.now) }
{
    match kind {
        StmtKind::Enter { signal, .. } => Some(*signal),
        _ => None,
    }
}

/// Where jobs start at a statement of a block: at an ENTER of a buffered signal.
fn entry_of(signals: &[SignalKind], block: u32, statement: &Stmt) -> Option<Entry>
    ensures { result ≡ entry_at signals.now (entered (out-StmtKind statement.now.kind)) block
        statement.now.point }
{
    let signal = entered(&statement.kind)?;
    match signals.get(signal as usize)? {
        SignalKind::Buffered { .. } => Some(Entry {
            block,
            signal,
            point: statement.point,
        }),
        _ => None,
    }
}

/// Appends where jobs start in the body of the block of this number.
#[tactic(auto, using(crate::proofs::EntrySteps::bodies))]
pub(crate) fn add_entries(
    signals: &[SignalKind],
    block: u32,
    body: &[Stmt],
    out: &mut Seq<Entry>,
) -> Result<(), Memory>
    ensures { OnOk result (out.new ≡ out.old ++ entries_in signals.now block body.now) }
{
    for statement in body {
        let Some(entry) = entry_of(signals, block, statement) else {
            continue;
        };
        out.push(entry)?;
    }
    Ok(())
}
