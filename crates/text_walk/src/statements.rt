// What stands in statements.
ghost use Rattle.std.specs.Prelude.{◌≡◌, OnOk, map};
ghost use Rattle.text_events.specs.Note as note;
ghost use Rattle.text_events.specs.Walk.{add, in_turn, each_walk, name_walk, names_walk};
ghost use Rattle.text_events.specs.Walk.{reference_walk, stmt_walk, body_walk, kind_walk};
ghost use Rattle.text_events.specs.Walk.{when_walk};

use crate::expressions::{walk_cond, walk_expr, walk_values};
use crate::pushes::{narrow, push, push_compared, push_label, push_signal, push_use};
use plex_ast::{Boxed, Named, Names, Reference, ReferenceKind, Stmt, StmtKind, When};
use plex_num::{Memory, Seq};
use std::alloc::Global;
use text_events::{Event, Need, PackedEvent, Role};

// A temporary is named.
fn walk_name<'a>(n: &'a Named, out: &mut Seq<Event<'a>>) -> Result<(), Memory>
    ensures { OnOk result (out.new ≡ name_walk n.now out.old) }
{
    push_use(out, n, Need::Temporary)?;
    Ok(())
}

#[tactic(auto, using(text_events::proofs::Steps::turns_begin, text_events::proofs::Steps::turns_step, text_events::proofs::Steps::turns_end))]
fn walk_list_of_names<'a>(names: &'a [Named], out: &mut Seq<Event<'a>>) -> Result<(), Memory>
    ensures { OnOk result (out.new ≡ in_turn (map name_walk names.now) out.old) }
{
    for n in names {
        walk_name(n, out)?;
    }
    Ok(())
}

/// Those of the names after WITH.
pub(crate) fn walk_names<'a>(
    names: &'a Option<Boxed<Names>>,
    out: &mut Seq<Event<'a>>,
) -> Result<(), Memory>
    ensures { OnOk result (out.new ≡ names_walk names.now out.old) }
{
    match names {
        None => Ok(()),
        Some(boxed) => {
            let x = boxed.get();
            walk_name(&x.first, out)?;
            walk_list_of_names(x.rest.as_slice(), out)?;
            Ok(())
        }
    }
}

// A held reference uses the name that holds the block.
fn walk_reference<'a>(
    reference: &'a Option<Boxed<Reference>>,
    out: &mut Seq<Event<'a>>,
) -> Result<(), Memory>
    ensures { OnOk result (out.new ≡ reference_walk reference.now out.old) }
{
    match reference {
        None => Ok(()),
        Some(r) => match &r.get().kind {
            ReferenceKind::Block { name: _ } => Ok(()),
            ReferenceKind::Held { name } => {
                push_use(out, name, Need::Value)?;
                Ok(())
            }
        },
    }
}

// The file of SEIZE or FREE.
fn push_held<'a>(out: &mut Seq<Event<'a>>, file: &'a Named) -> Result<(), Memory>
    ensures { OnOk result (out.new ≡ add file.now.line (note.Holds file.now.name) out.old) }
{
    let kept = PackedEvent::Holds {
        line: file.line,
        file: &file.name,
    };
    push(out, kept)?;
    Ok(())
}

// The file and the field of FOR FIRST.
fn push_searched<'a>(
    alloc: Global,
    out: &mut Seq<Event<'a>>,
    file: &'a Named,
    field: &'a Named,
) -> Result<(), Memory>
    ensures { OnOk result (out.new ≡ add field.now.line (note.Compares field.now.name file.now.name)
        (add file.now.line (note.Searches file.now.name) out.old)) }
{
    let kept = PackedEvent::Searches {
        line: file.line,
        file: &file.name,
    };
    push(out, kept)?;
    push_compared(alloc, out, file, field)?;
    Ok(())
}

/// Those of the statements of a list.
#[cycle(stmts)]
#[tactic(auto, using(text_events::proofs::Steps::list_begin, text_events::proofs::Steps::list_step, text_events::proofs::Steps::list_end))]
fn walk_body<'a>(alloc: Global, list: &'a Seq<Stmt>, out: &mut Seq<Event<'a>>) -> Result<(), Memory>
    ensures { OnOk result (out.new ≡ body_walk (map stmt_walk list.now) out.old) }
{
    let stmts = list.as_slice();
    for i in 0..stmts.len() {
        let owner = narrow(out.len())?;
        let at = narrow(i)?;
        push(out, PackedEvent::Begins { at, list })?;
        walk_kind(alloc, &stmts[i].kind, owner, out)?;
    }
    Ok(())
}

/// Those of a statement, which is named by `owner`, after its first token.
#[cycle(stmts)]
pub(crate) fn walk_kind<'a>(
    alloc: Global,
    k: &'a StmtKind,
    owner: u32,
    out: &mut Seq<Event<'a>>,
) -> Result<(), Memory>
    ensures { OnOk result (out.new ≡ (kind_walk k.now).walk owner out.old) }
{
    match k {
        StmtKind::Assign { name, value } => {
            push_use(out, name, Need::Value)?;
            walk_expr(value.get(), owner, out)?;
            Ok(())
        }
        StmtKind::SetField {
            name,
            pointer,
            value,
        } => {
            push_use(out, name, Need::Field)?;
            push_use(out, pointer.get(), Need::Temporary)?;
            walk_expr(value.get(), owner, out)?;
            Ok(())
        }
        StmtKind::Goto { label } => {
            push_label(out, label)?;
            Ok(())
        }
        StmtKind::IfGoto { cond, label } => {
            walk_cond(cond.get(), owner, out)?;
            push_label(out, label)?;
            Ok(())
        }
        StmtKind::If { cond, first, other } => {
            walk_cond(cond.get(), owner, out)?;
            walk_body(alloc, first, out)?;
            match other {
                None => Ok(()),
                Some(stmts) => {
                    walk_body(alloc, stmts.get(), out)?;
                    Ok(())
                }
            }
        }
        StmtKind::Case {
            value,
            whens,
            otherwise,
        } => {
            walk_expr(value.get(), owner, out)?;
            walk_whens(alloc, whens.as_slice(), owner, out)?;
            walk_body(alloc, otherwise.get(), out)?;
            Ok(())
        }
        StmtKind::On {
            name,
            from,
            upto,
            body,
        } => {
            walk_name(name.get(), out)?;
            walk_expr(from.get(), owner, out)?;
            walk_expr(upto.get(), owner, out)?;
            walk_body(alloc, body, out)?;
            Ok(())
        }
        StmtKind::ForFirst {
            name,
            file,
            field,
            rel: _,
            value,
            label,
        } => {
            walk_name(name.get(), out)?;
            push_searched(alloc, out, file.get(), field.get())?;
            walk_expr(value.get(), owner, out)?;
            push_label(out, label.get())?;
            Ok(())
        }
        StmtKind::Send {
            signal,
            reference,
            values,
            fresh: _,
        } => {
            let role = Role::Sent {
                reference: reference.is_some(),
            };
            push_signal(out, signal.get(), role)?;
            walk_reference(reference, out)?;
            walk_values(values, owner, out)?;
            Ok(())
        }
        StmtKind::Retrieve { signal, names } => {
            push_signal(out, signal, Role::Answer)?;
            walk_names(names, out)?;
            Ok(())
        }
        StmtKind::Return { signal, values } => {
            push_signal(out, signal, Role::Answer)?;
            walk_values(values, owner, out)?;
            Ok(())
        }
        StmtKind::Transfer { signal, reference } => {
            push_signal(out, signal, Role::Transferred)?;
            walk_reference(reference, out)?;
            Ok(())
        }
        StmtKind::Seize { name, file, label } => {
            walk_name(name.get(), out)?;
            push_held(out, file.get())?;
            push_label(out, label.get())?;
            Ok(())
        }
        StmtKind::Free { name, file } => {
            walk_name(name.get(), out)?;
            push_held(out, file.get())?;
            Ok(())
        }
        StmtKind::Exit => Ok(()),
    }
}

#[cycle(stmts)]
#[tactic(auto, using(text_events::proofs::Steps::walks_begin, text_events::proofs::Steps::walks_step, text_events::proofs::Steps::walks_end))]
fn walk_whens<'a>(
    alloc: Global,
    whens: &'a [When],
    owner: u32,
    out: &mut Seq<Event<'a>>,
) -> Result<(), Memory>
    ensures { OnOk result (out.new ≡ each_walk (map when_walk whens.now) owner out.old) }
{
    for w in whens {
        walk_when(alloc, w, owner, out)?;
    }
    Ok(())
}

#[cycle(stmts)]
#[tactic(auto, using(text_events::proofs::Steps::when_opened))]
fn walk_when<'a>(
    alloc: Global,
    w: &'a When,
    owner: u32,
    out: &mut Seq<Event<'a>>,
) -> Result<(), Memory>
    ensures { OnOk result (out.new ≡ when_walk w.now owner out.old) }
{
    let kept = PackedEvent::Chooses {
        line: w.number.line,
        owner,
        number: w.number.value,
    };
    push(out, kept)?;
    walk_body(alloc, &w.body, out)?;
    Ok(())
}
