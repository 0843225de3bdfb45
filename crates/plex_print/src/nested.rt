// Statements, which hold statements at most `deep` deep, and whose brackets nest at most `room`
// deep: what nests deeper is left out.
ghost use Rattle.std.specs.Prelude.{◌≡◌, IfOk};
ghost use Rattle.plex_print.specs.Printed.{body_text, case_text, else_text, if_text, kind_text};
ghost use Rattle.plex_print.specs.Printed.{on_text, stmt_text, when_text};
ghost use Rattle.plex_print.specs.Writing.{each_of, maybe_of};

use crate::condition::cond;
use crate::expression::expr;
use crate::plain::{
    Search, assign, exit, for_first, free, if_goto, retrieve, return_of, seize, send, set_field,
    to_label, transfer,
};
use crate::word::{end, name, number, word};
use plex_ast::{Boxed, Cond, Expr, Named, Stmt, StmtKind, When};
use plex_num::{Memory, Seq};

/// Appends a statement.
#[cycle(statements)]
#[tactic(auto, unfolding(crate::specs::Printed::stmt_text))]
pub fn stmt(text: &mut Seq<u8>, stmt: &Stmt, room: usize, deep: usize) -> Result<(), Memory>
    ensures { IfOk result (λ _. text.new ≡ stmt_text room deep stmt.now text.old) }
{
    kind(text, &stmt.kind, room, deep)
}

#[cycle(statements)]
#[tactic(auto, unfolding(crate::specs::Printed::kind_text))]
fn kind(text: &mut Seq<u8>, kind: &StmtKind, room: usize, deep: usize) -> Result<(), Memory>
    ensures { IfOk result (λ _. text.new ≡ kind_text room deep kind.now text.old) }
{
    match kind {
        StmtKind::Assign {
            name: target,
            value,
        } => assign(text, target, value.get(), room),
        StmtKind::SetField {
            name: field,
            pointer,
            value,
        } => set_field(text, field, pointer.get(), value.get(), room),
        StmtKind::Goto { label } => to_label(text, label),
        StmtKind::IfGoto { cond: test, label } => if_goto(text, test.get(), label, room),
        StmtKind::If {
            cond: test,
            first,
            other,
        } => if_then(text, test.get(), first, other, room, deep),
        StmtKind::Case {
            value,
            whens,
            otherwise,
        } => case(
            text,
            value.get(),
            whens.as_slice(),
            otherwise.get().as_slice(),
            room,
            deep,
        ),
        StmtKind::On {
            name: counter,
            from,
            upto,
            body: held,
        } => on(
            text,
            counter.get(),
            from.get(),
            upto.get(),
            held.as_slice(),
            room,
            deep,
        ),
        StmtKind::ForFirst {
            name: pointer,
            file,
            field,
            rel,
            value,
            label,
        } => for_first(
            text,
            pointer.get(),
            file.get(),
            &Search {
                field: field.get(),
                relation: rel,
                value: value.get(),
            },
            label.get(),
            room,
        ),
        StmtKind::Send {
            signal,
            reference,
            values,
            fresh,
        } => send(text, signal.get(), reference, values, *fresh, room),
        StmtKind::Retrieve { signal, names } => retrieve(text, signal, names),
        StmtKind::Return { signal, values } => return_of(text, signal, values, room),
        StmtKind::Transfer { signal, reference } => transfer(text, signal, reference),
        StmtKind::Seize {
            name: pointer,
            file,
            label,
        } => seize(text, pointer.get(), file.get(), label.get()),
        StmtKind::Free {
            name: pointer,
            file,
        } => free(text, pointer.get(), file.get()),
        StmtKind::Exit => exit(text),
    }
}

/// `IF cond THEN { stmt } [ ELSE { stmt } ] FI ;`
#[cycle(statements)]
#[tactic(auto, unfolding(crate::specs::Printed::if_text))]
fn if_then(
    text: &mut Seq<u8>,
    test: &Cond,
    first: &Seq<Stmt>,
    other: &Option<Boxed<Seq<Stmt>>>,
    room: usize,
    deep: usize,
) -> Result<(), Memory>
    ensures { IfOk result (λ _. text.new ≡ if_text room (body_text room deep) test.now first.now
        other.now text.old) }
{
    word(text, b"IF")?;
    cond(text, test, room)?;
    word(text, b"THEN")?;
    body(text, first.as_slice(), room, deep)?;
    some_else(text, other, room, deep)?;
    word(text, b"FI")?;
    end(text)
}

#[cycle(statements)]
#[tactic(auto, unfolding(crate::specs::Printed::else_text))]
fn some_else(
    text: &mut Seq<u8>,
    other: &Option<Boxed<Seq<Stmt>>>,
    room: usize,
    deep: usize,
) -> Result<(), Memory>
    ensures { IfOk result (λ _. text.new ≡ maybe_of (else_text (body_text room deep)) other.now
        text.old) }
{
    match other {
        None => Ok(()),
        Some(other) => {
            word(text, b"ELSE")?;
            body(text, other.get().as_slice(), room, deep)
        }
    }
}

/// `CASE expr IS { WHEN number DO { stmt } } OTHERWISE DO { stmt } ESAC ;`
#[cycle(statements)]
#[tactic(auto, unfolding(crate::specs::Printed::case_text))]
fn case(
    text: &mut Seq<u8>,
    value: &Expr,
    choices: &[When],
    otherwise: &[Stmt],
    room: usize,
    deep: usize,
) -> Result<(), Memory>
    ensures { IfOk result (λ _. text.new ≡ case_text room (body_text room deep) value.now
        choices.now otherwise.now text.old) }
{
    word(text, b"CASE")?;
    expr(text, value, room)?;
    word(text, b"IS")?;
    whens(text, choices, room, deep)?;
    word(text, b"OTHERWISE")?;
    word(text, b"DO")?;
    body(text, otherwise, room, deep)?;
    word(text, b"ESAC")?;
    end(text)
}

#[cycle(statements)]
fn whens(text: &mut Seq<u8>, list: &[When], room: usize, deep: usize) -> Result<(), Memory>
    ensures { IfOk result (λ _. text.new ≡ each_of (when_text (body_text room deep)) list.now
        text.old) }
{
    let mut rest = list;
    'whens: while let Some((next, left)) = rest.split_first() {
        when(text, next, room, deep)?;
        rest = left;
    }
    Ok(())
}

/// `WHEN number DO { stmt }`
#[cycle(statements)]
#[tactic(auto, unfolding(crate::specs::Printed::when_text))]
fn when(text: &mut Seq<u8>, when: &When, room: usize, deep: usize) -> Result<(), Memory>
    ensures { IfOk result (λ _. text.new ≡ when_text (body_text room deep) when.now text.old) }
{
    word(text, b"WHEN")?;
    number(text, &when.number)?;
    word(text, b"DO")?;
    body(text, when.body.as_slice(), room, deep)
}

/// `ON name FROM expr UPTO expr DO { stmt } NO ;`
#[cycle(statements)]
#[tactic(auto, unfolding(crate::specs::Printed::on_text))]
fn on(
    text: &mut Seq<u8>,
    counter: &Named,
    from: &Expr,
    upto: &Expr,
    held: &[Stmt],
    room: usize,
    deep: usize,
) -> Result<(), Memory>
    ensures { IfOk result (λ _. text.new ≡ on_text room (body_text room deep) counter.now from.now
        upto.now held.now text.old) }
{
    word(text, b"ON")?;
    name(text, counter)?;
    word(text, b"FROM")?;
    expr(text, from, room)?;
    word(text, b"UPTO")?;
    expr(text, upto, room)?;
    word(text, b"DO")?;
    body(text, held, room, deep)?;
    word(text, b"NO")?;
    end(text)
}

/// What a statement holds.
#[cycle(statements)]
#[tactic(auto, using(crate::proofs::Words::body_none, crate::proofs::Words::body_some))]
fn body(text: &mut Seq<u8>, list: &[Stmt], room: usize, deep: usize) -> Result<(), Memory>
    ensures { IfOk result (λ _. text.new ≡ body_text room deep list.now text.old) }
{
    if deep == 0 {
        return Ok(());
    }
    stmts(text, list, room, deep - 1)
}

#[cycle(statements)]
fn stmts(text: &mut Seq<u8>, list: &[Stmt], room: usize, deep: usize) -> Result<(), Memory>
    ensures { IfOk result (λ _. text.new ≡ each_of (stmt_text room deep) list.now text.old) }
{
    let mut rest = list;
    'stmts: while let Some((next, left)) = rest.split_first() {
        stmt(text, next, room, deep)?;
        rest = left;
    }
    Ok(())
}
