// How often texts send or transfer to a held reference.
ghost use Rattle.std.specs.Prelude.{◌≡◌, ℕ, Option, cond};
ghost use Rattle.exchange_model.specs.declared.stmt.StmtKind.{out-StmtKind};
ghost use Rattle.flow_table.specs.Texts.{Chosen, Inside, Texts, Walked};
ghost use Rattle.certificate.specs.Referring.{Counts, WithThose};
ghost use Rattle.certificate_meaning.specs.Shapes.{is_held, refers};

use exchange_model::{Block, Receiver, Stmt, StmtKind, When};

/// How many statements of these blocks send or transfer to a held reference.
#[tactic(auto, using(crate::proofs::Counts::blocks_begin, crate::proofs::Counts::blocks_more, crate::proofs::Counts::blocks_end))]
pub(crate) fn references_in(blocks: &[Block]) -> u32
    ensures { Counts (Texts 0 blocks.now) result }
{
    let mut count: u32 = 0;
    for block in blocks {
        count = count.saturating_add(in_list(block.body.as_slice()));
    }
    count
}

#[cycle(count)]
fn in_list(list: &[Stmt]) -> u32
    ensures { (b : ℕ) (end : Option ℕ) → Counts (Walked b list.now end) result }
{
    let mut count: u32 = 0;
    for statement in list {
        count = count.saturating_add(in_statement(&statement.kind));
    }
    count
}

/// The same of a statement and of those in it.
#[cycle(count)]
fn in_statement(kind: &StmtKind) -> u32
    ensures { (b p : ℕ) (next : Option ℕ)
        → Counts (WithThose b p next (out-StmtKind kind.now)) result }
{
    let inner = in_inner(kind);
    one_if(refers(kind)).saturating_add(inner)
}

/// The same of the statements in one.
#[cycle(count)]
fn in_inner(kind: &StmtKind) -> u32
    ensures { (b p : ℕ) (next : Option ℕ)
        → Counts (Inside b p next (out-StmtKind kind.now)) result }
{
    match kind {
        StmtKind::If { yes, no, .. } => {
            let first = in_list(yes.as_slice());
            first.saturating_add(in_list(no.as_slice()))
        }
        StmtKind::Case {
            whens,
            otherwise,
            ..
        } => {
            let first = in_choices(whens.as_slice());
            first.saturating_add(in_list(otherwise.as_slice()))
        }
        StmtKind::On { body, .. } => in_list(body.as_slice()),
        _ => 0,
    }
}

/// The same of the choices of a CASE.
#[cycle(count)]
fn in_choices(whens: &[When]) -> u32
    ensures { (b : ℕ) (next : Option ℕ) → Counts (Chosen b next whens.now) result }
{
    let mut count: u32 = 0;
    for when in whens {
        count = count.saturating_add(in_list(when.body.as_slice()));
    }
    count
}

fn one_if(test: bool) -> u32
    ensures { result ≡ cond test 1 0 }
{
    if test { 1 } else { 0 }
}

/// Whether a statement sends or transfers to a held reference.
fn refers(kind: &StmtKind) -> bool
    ensures { result ≡ refers (out-StmtKind kind.now) }
{
    match kind {
        StmtKind::Send { to, .. } | StmtKind::Transfer { to, .. } => is_held(*to),
        _ => false,
    }
}

fn is_held(to: Option<Receiver>) -> bool
    ensures { result ≡ is_held to }
{
    matches!(to, Some(Receiver::Held(_)))
}
