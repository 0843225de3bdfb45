// The points of the statements of blocks.
ghost use Rattle.std.specs.Prelude.{◌≡◌, ◌++◌, OnOk};
ghost use Rattle.std.specs.List.{flat_map};
ghost use Rattle.front_end.specs.Points.{stmt_points, kind_points, when_points, body_points};

use exchange_model::{PointInfo, Stmt, StmtKind, When};
use plex_num::{Memory, Seq};

/// Appends a point for each of these statements and for those in them, of the block of this number.
#[cycle(points)]
#[tactic(auto, using(crate::proofs::Lists::flat_begin, crate::proofs::Lists::flat_step, crate::proofs::Lists::flat_end))]
pub(crate) fn add_points(block: u32, stmts: &[Stmt], out: &mut Seq<PointInfo>) -> Result<(), Memory>
    ensures { OnOk result (out.new ≡ out.old ++ body_points block stmts.now) }
{
    for s in stmts {
        add_stmt(block, s, out)?;
    }
    Ok(())
}

#[cycle(points)]
#[tactic(auto, using(crate::proofs::PointSteps::stmt_added))]
fn add_stmt(block: u32, s: &Stmt, out: &mut Seq<PointInfo>) -> Result<(), Memory>
    ensures { OnOk result (out.new ≡ out.old ++ stmt_points block s.now) }
{
    out.push(PointInfo {
        block,
        line: s.line,
    })?;
    add_kind(block, &s.kind, out)?;
    Ok(())
}

#[cycle(points)]
fn add_kind(block: u32, kind: &StmtKind, out: &mut Seq<PointInfo>) -> Result<(), Memory>
    ensures { OnOk result (out.new ≡ out.old ++ kind_points block kind.now) }
{
    match kind {
        StmtKind::If { cond: _, yes, no } => {
            add_points(block, yes.as_slice(), out)?;
            add_points(block, no.as_slice(), out)?;
            Ok(())
        }
        StmtKind::Case {
            value: _,
            whens,
            otherwise,
        } => {
            add_whens(block, whens.as_slice(), out)?;
            add_points(block, otherwise.as_slice(), out)?;
            Ok(())
        }
        StmtKind::On {
            temp: _,
            from: _,
            upto: _,
            body,
        } => {
            add_points(block, body.as_slice(), out)?;
            Ok(())
        }
        _ => Ok(()),
    }
}

#[cycle(points)]
#[tactic(auto, using(crate::proofs::Lists::flat_begin, crate::proofs::Lists::flat_step, crate::proofs::Lists::flat_end))]
fn add_whens(block: u32, whens: &[When], out: &mut Seq<PointInfo>) -> Result<(), Memory>
    ensures { OnOk result (out.new ≡ out.old ++ flat_map (when_points block) whens.now) }
{
    for w in whens {
        add_when(block, w, out)?;
    }
    Ok(())
}

#[cycle(points)]
#[tactic(auto, using(crate::proofs::PointSteps::when_added))]
fn add_when(block: u32, w: &When, out: &mut Seq<PointInfo>) -> Result<(), Memory>
    ensures { OnOk result (out.new ≡ out.old ++ when_points block w.now) }
{
    add_points(block, w.body.as_slice(), out)?;
    Ok(())
}
