// Statements with numbers for names.
ghost use Rattle.std.specs.Prelude.{◌≡◌, IfOk, OnOk};
ghost use Rattle.resolved_block.specs.Statements.{typed_kind, typed_list, typed_stmt, typed_when};
ghost use Rattle.resolved_block.specs.Statements.{typed_whens};
ghost use Rattle.block_resolver.specs.Tables.{env_in};

use crate::conditions::{make_cond, make_temps, make_values};
use crate::expressions::make_expr;
use crate::kinds::{make_case, make_if, make_on, make_search, make_send};
use crate::names::Names;
use crate::numbers::next;
use exchange_model::{Stmt, StmtKind, When};
use plex_ast as tree;
use plex_num::{Memory, Seq};
use std::alloc::Global;

#[cycle(statements)]
#[tactic(auto, using(crate::proofs::Lists::turns_made))]
fn make_list(
    alloc: Global,
    names: &Names<'_>,
    stmts: &[tree::Stmt],
    point: &mut u32,
) -> Result<Seq<Stmt>, Memory>
    ensures made { IfOk result (λ m. m ≡ (typed_list (env_in names.now) stmts.now point.old).0) }
    ensures next { OnOk result (point.new ≡ (typed_list (env_in names.now) stmts.now point.old).1) }
{
    let mut made = Seq::new(alloc);
    for s in stmts {
        let stmt = make_stmt(alloc, names, s, point)?;
        made.push(stmt)?;
    }
    Ok(made)
}

#[cycle(statements)]
#[tactic(auto, using(crate::proofs::Lists::turns_made))]
fn make_whens(
    alloc: Global,
    names: &Names<'_>,
    whens: &[tree::When],
    point: &mut u32,
) -> Result<Seq<When>, Memory>
    ensures made { IfOk result (λ m. m ≡ (typed_whens (env_in names.now) whens.now point.old).0) }
    ensures next { OnOk result
        (point.new ≡ (typed_whens (env_in names.now) whens.now point.old).1) }
{
    let mut made = Seq::new(alloc);
    for w in whens {
        let when = make_when(alloc, names, w, point)?;
        made.push(when)?;
    }
    Ok(made)
}

#[cycle(statements)]
#[tactic(auto, using(resolved_block::proofs::Turns::when_made, resolved_block::proofs::Turns::when_next))]
fn make_when(
    alloc: Global,
    names: &Names<'_>,
    w: &tree::When,
    point: &mut u32,
) -> Result<When, Memory>
    ensures made { IfOk result (λ m. m ≡ (typed_when (env_in names.now) w.now point.old).0) }
    ensures next { OnOk result (point.new ≡ (typed_when (env_in names.now) w.now point.old).1) }
{
    let body = make_list(alloc, names, w.body.as_slice(), point)?;
    Ok(When {
        number: w.number.value,
        body,
    })
}

/// The statement, which has the next number.
#[cycle(statements)]
#[tactic(auto, using(resolved_block::proofs::Turns::stmt_made, resolved_block::proofs::Turns::stmt_next))]
pub(crate) fn make_stmt(
    alloc: Global,
    names: &Names<'_>,
    s: &tree::Stmt,
    point: &mut u32,
) -> Result<Stmt, Memory>
    ensures made { IfOk result (λ m. m ≡ (typed_stmt (env_in names.now) s.now point.old).0) }
    ensures next { OnOk result (point.new ≡ (typed_stmt (env_in names.now) s.now point.old).1) }
{
    let number = *point;
    *point = next(number)?;
    let kind = make_kind(alloc, names, &s.kind, point)?;
    Ok(Stmt {
        point: number,
        line: s.line,
        kind,
    })
}

#[cycle(statements)]
fn make_kind(
    alloc: Global,
    names: &Names<'_>,
    kind: &tree::StmtKind,
    point: &mut u32,
) -> Result<StmtKind, Memory>
    ensures made { IfOk result (λ m. m ≡ (typed_kind (env_in names.now) kind.now point.old).0) }
    ensures next { OnOk result (point.new ≡ (typed_kind (env_in names.now) kind.now point.old).1) }
{
    match kind {
        tree::StmtKind::Assign { name, value } => {
            let value = make_expr(alloc, names, value.get())?;
            Ok(names.target(name, value))
        }
        tree::StmtKind::SetField {
            name,
            pointer,
            value,
        } => {
            let value = make_expr(alloc, names, value.get())?;
            Ok(StmtKind::SetField {
                file: names.field_file(name),
                field: names.field_place(name),
                pointer: names.temporary(pointer.get()),
                value,
            })
        }
        tree::StmtKind::Goto { label } => Ok(StmtKind::Goto {
            label: names.label(label),
        }),
        tree::StmtKind::IfGoto { cond, label } => {
            let cond = make_cond(alloc, names, cond.get())?;
            Ok(StmtKind::IfGoto {
                cond,
                label: names.label(label),
            })
        }
        tree::StmtKind::If { cond, first, other } => {
            let yes = make_list(alloc, names, first.as_slice(), point)?;
            match other {
                None => {
                    let made = make_if(alloc, names, cond.get(), yes, Seq::new(alloc))?;
                    Ok(made)
                }
                Some(stmts) => {
                    let no = make_list(alloc, names, stmts.get().as_slice(), point)?;
                    let made = make_if(alloc, names, cond.get(), yes, no)?;
                    Ok(made)
                }
            }
        }
        tree::StmtKind::Case {
            value,
            whens,
            otherwise,
        } => {
            let whens = make_whens(alloc, names, whens.as_slice(), point)?;
            let otherwise = make_list(alloc, names, otherwise.get().as_slice(), point)?;
            let made = make_case(alloc, names, value.get(), whens, otherwise)?;
            Ok(made)
        }
        tree::StmtKind::On {
            name,
            from,
            upto,
            body,
        } => {
            let body = make_list(alloc, names, body.as_slice(), point)?;
            let made = make_on(alloc, names, name.get(), from.get(), upto.get(), body)?;
            Ok(made)
        }
        tree::StmtKind::ForFirst {
            name,
            file,
            field,
            rel,
            value,
            label,
        } => {
            let value = make_expr(alloc, names, value.get())?;
            Ok(make_search(
                names,
                name.get(),
                file.get(),
                field.get(),
                rel.kind,
                value,
                label.get(),
            ))
        }
        tree::StmtKind::Send {
            signal,
            reference,
            values,
            fresh,
        } => {
            let values = make_values(alloc, names, values)?;
            Ok(make_send(names, signal.get(), reference, values, *fresh))
        }
        tree::StmtKind::Retrieve {
            signal,
            names: list,
        } => {
            let temps = make_temps(alloc, names, list)?;
            Ok(StmtKind::Retrieve {
                answer: names.signal(signal),
                temps,
            })
        }
        tree::StmtKind::Return { signal, values } => {
            let values = make_values(alloc, names, values)?;
            Ok(StmtKind::Return {
                answer: names.signal(signal),
                values,
            })
        }
        tree::StmtKind::Transfer { signal, reference } => Ok(StmtKind::Transfer {
            signal: names.signal(signal),
            to: names.sent_to(signal, reference),
        }),
        tree::StmtKind::Seize { name, file, label } => Ok(StmtKind::Seize {
            temp: names.temporary(name.get()),
            file: names.file(file.get()),
            label: names.label(label.get()),
        }),
        tree::StmtKind::Free { name, file } => Ok(StmtKind::Free {
            temp: names.temporary(name.get()),
            file: names.file(file.get()),
        }),
        tree::StmtKind::Exit => Ok(StmtKind::Exit),
    }
}
