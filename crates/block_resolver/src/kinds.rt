// Statements with numbers for names, from parts of which some are made.
ghost use Rattle.std.specs.Prelude.{◌≡◌, IfOk};
ghost use Rattle.exchange_model.specs.declared.stmt.StmtKind.TheVariants as stmt;
ghost use Rattle.resolved_block.specs.Expressions.{typed_cond, typed_expr, typed_rel};
ghost use Rattle.resolved_block.specs.Meant.{field_place, file_of, label_of, sent_to, signal_of};
ghost use Rattle.resolved_block.specs.Meant.{temporary_of};
ghost use Rattle.block_resolver.specs.Tables.{env_in};

use crate::conditions::{make_cond, make_rel};
use crate::expressions::make_expr;
use crate::names::Names;
use exchange_model::{Expr, Stmt, StmtKind, When};
use plex_ast as tree;
use plex_num::{Memory, Seq};
use std::alloc::Global;

/// An IF with these statements.
pub(crate) fn make_if(
    alloc: Global,
    names: &Names<'_>,
    cond: &tree::Cond,
    yes: Seq<Stmt>,
    no: Seq<Stmt>,
) -> Result<StmtKind, Memory>
    ensures { IfOk result (λ m. m ≡ stmt.If (typed_cond (env_in names.now) cond.now) yes no) }
{
    let cond = make_cond(alloc, names, cond)?;
    Ok(StmtKind::If { cond, yes, no })
}

/// A CASE with these choices.
pub(crate) fn make_case(
    alloc: Global,
    names: &Names<'_>,
    value: &tree::Expr,
    whens: Seq<When>,
    otherwise: Seq<Stmt>,
) -> Result<StmtKind, Memory>
    ensures { IfOk result
        (λ m. m ≡ stmt.Case (typed_expr (env_in names.now) value.now) whens otherwise) }
{
    let value = make_expr(alloc, names, value)?;
    Ok(StmtKind::Case {
        value,
        whens,
        otherwise,
    })
}

/// An ON with these statements.
pub(crate) fn make_on(
    alloc: Global,
    names: &Names<'_>,
    name: &tree::Named,
    from: &tree::Expr,
    upto: &tree::Expr,
    body: Seq<Stmt>,
) -> Result<StmtKind, Memory>
    ensures { IfOk result (λ m. m ≡ stmt.On (temporary_of (env_in names.now) name.now)
        (typed_expr (env_in names.now) from.now) (typed_expr (env_in names.now) upto.now) body) }
{
    let from = make_expr(alloc, names, from)?;
    let upto = make_expr(alloc, names, upto)?;
    Ok(StmtKind::On {
        temp: names.temporary(name),
        from,
        upto,
        body,
    })
}

/// A FOR FIRST that seeks this value.
pub(crate) fn make_search(
    names: &Names<'_>,
    name: &tree::Named,
    file: &tree::Named,
    field: &tree::Named,
    rel: tree::RelKind,
    value: Expr,
    label: &tree::Named,
) -> StmtKind
    ensures { result ≡ stmt.ForFirst (temporary_of (env_in names.now) name.now)
        (file_of (env_in names.now) file.now) (field_place (env_in names.now) field.now)
        (typed_rel rel) value (label_of (env_in names.now) label.now) }
{
    StmtKind::ForFirst {
        temp: names.temporary(name),
        file: names.file(file),
        field: names.field_place(field),
        rel: make_rel(rel),
        value,
        label: names.label(label),
    }
}

/// A SEND of these values.
pub(crate) fn make_send(
    names: &Names<'_>,
    signal: &tree::Named,
    reference: &Option<tree::Boxed<tree::Reference>>,
    values: Seq<Expr>,
    fresh: bool,
) -> StmtKind
    ensures { result ≡ stmt.Send (signal_of (env_in names.now) signal.now)
        (sent_to (env_in names.now) signal.now reference.now) values fresh }
{
    StmtKind::Send {
        signal: names.signal(signal),
        to: names.sent_to(signal, reference),
        values,
        fresh,
    }
}
