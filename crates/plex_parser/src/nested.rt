// Statements, whose brackets nest at most `room` deep and which hold statements at most `deep`
// deep.
ghost use Rattle.std.specs.Prelude.{◌≡◌, ◌++◌, ◌∷◌, []};
ghost use Rattle.plex_lexer.specs.Cursors.{ahead};
ghost use Rattle.token_grammar.specs.Gives.{Reads};
ghost use Rattle.token_grammar.specs.Reading.{at, many};
ghost use Rattle.plex_parser.specs.Statements.{body_read, arms_read, branches_read, case_by};
ghost use Rattle.plex_parser.specs.Statements.{do_read, else_by, else_to_fi_read, gone_read};
ghost use Rattle.plex_parser.specs.Statements.{held_at, if_at, if_tail_at, if_with, kind_at};
ghost use Rattle.plex_parser.specs.Statements.{nest_by, on_by, other_at, otherwise_read, span_read};
ghost use Rattle.plex_parser.specs.Statements.{stmt_read, stmts_read, then_by, upto_read, when_by};
ghost use Rattle.plex_parser.specs.Statements.{HELD as HELD_WORDS, PLAIN as PLAIN_WORDS, STMT};
ghost use Rattle.plex_ast.specs.Words as classes;

use crate::assignment::{assign, assigned};
use crate::plain::{boxed_expr, boxed_name, plain, to_label};
use plex_ast::{Boxed, Cond, Expr, Stmt, StmtKind, When, push_few, words};
use plex_expr_parser::{boxed, cond};
use plex_lexer::Cursor;
use plex_num::Seq;
use std::alloc::Global;
use token_grammar::{Fault, line_of, name, number, starts, starts_in, starts_name, word};

/// What begins a statement that holds none, but for a name.
const PLAIN: [u64; 9] = [
    words::SEND,
    words::RETRIEVE,
    words::RETURN,
    words::TRANSFER,
    words::GOTO,
    words::FOR,
    words::SEIZE,
    words::FREE,
    words::EXIT,
];

/// What begins a statement that holds others.
const HELD: [u64; 3] = [words::IF, words::CASE, words::ON];

/// As many statements as stand there, and the tokens after them.
#[cycle(statements)]
#[tactic(auto, using(crate::proofs::Loops::stmt_less, crate::proofs::Loops::stmt_on, crate::proofs::Loops::stmt_end, crate::proofs::Loops::stmt_bad))]
fn stmts(
    alloc: Global,
    tokens: Cursor<'_>,
    room: usize,
    deep: usize,
) -> Result<(Seq<Stmt>, Cursor<'_>), Fault>
    ensures { Reads result (stmts_read room deep) tokens.entry }
{
    let mut left = tokens;
    let mut list = Seq::new(alloc);
    'stmts: while starts_stmt(left) {
        let (stmt, after) = stmt(alloc, left, room, deep)?;
        if let Err(_) = push_few(alloc, &mut list, stmt) {
            return Err(Fault::Memory);
        }
        left = after;
    }
    Ok((list, left))
}

/// Whether the first token begins a statement.
#[tactic(auto, using(crate::proofs::Starts::stmt_starts))]
pub fn starts_stmt(tokens: Cursor<'_>) -> bool
    ensures { result ≡ at STMT (ahead tokens.entry) }
{
    starts_name(tokens) || starts_other(tokens)
}

/// Whether the first token is a word that begins a statement.
#[tactic(auto, using(crate::proofs::Starts::other_starts))]
fn starts_other(tokens: Cursor<'_>) -> bool
    ensures { result ≡ at (PLAIN_WORDS ++ HELD_WORDS) (ahead tokens.entry) }
{
    starts_in(tokens, &PLAIN) || starts_in(tokens, &HELD)
}

#[cycle(statements)]
#[tactic(auto, unfolding(crate::specs::Statements::stmt_read, crate::specs::Statements::stmt_at))]
fn stmt(
    alloc: Global,
    tokens: Cursor<'_>,
    room: usize,
    deep: usize,
) -> Result<(Stmt, Cursor<'_>), Fault>
    ensures { Reads result (stmt_read room deep) tokens.entry }
{
    let line = line_of(tokens);
    let (kind, left) = kind(alloc, tokens, room, deep)?;
    Ok((Stmt { line, kind }, left))
}

#[cycle(statements)]
#[tactic(auto, unfolding(crate::specs::Statements::kind_at))]
fn kind(
    alloc: Global,
    tokens: Cursor<'_>,
    room: usize,
    deep: usize,
) -> Result<(StmtKind, Cursor<'_>), Fault>
    ensures { Reads result (kind_at room deep (body_read room deep)) tokens.entry }
{
    if starts_name(tokens) {
        let (name, left) = name(alloc, tokens)?;
        let (target, left) = assigned(alloc, left, room)?;
        let (pointer, value) = target;
        Ok((assign(name, pointer, value), left))
    } else {
        other(alloc, tokens, room, deep)
    }
}

/// A statement that begins with a word, and the tokens after it.
#[cycle(statements)]
#[tactic(auto, unfolding(crate::specs::Statements::other_at))]
pub fn other(
    alloc: Global,
    tokens: Cursor<'_>,
    room: usize,
    deep: usize,
) -> Result<(StmtKind, Cursor<'_>), Fault>
    ensures { Reads result (other_at room deep (body_read room deep)) tokens.entry }
{
    if starts_in(tokens, &PLAIN) {
        plain(alloc, tokens, room)
    } else {
        held(alloc, tokens, room, deep)
    }
}

/// An IF, a CASE or an ON.
#[cycle(statements)]
fn held(
    alloc: Global,
    tokens: Cursor<'_>,
    room: usize,
    deep: usize,
) -> Result<(StmtKind, Cursor<'_>), Fault>
    ensures { Reads result (held_at room deep (body_read room deep)) tokens.entry }
{
    if starts(tokens, words::IF) {
        return if_of(alloc, tokens, room, deep);
    }
    if deep == 0 {
        return Err(Fault::Stuck {
            left: tokens.len(),
            deep: starts_in(tokens, &[words::CASE, words::ON]),
        });
    }
    nest(alloc, tokens, room, deep - 1)
}

#[cycle(statements)]
#[tactic(auto, unfolding(crate::specs::Statements::if_at))]
fn if_of(
    alloc: Global,
    tokens: Cursor<'_>,
    room: usize,
    deep: usize,
) -> Result<(StmtKind, Cursor<'_>), Fault>
    ensures { Reads result (if_at room deep (body_read room deep)) tokens.entry }
{
    let (_, left) = word(tokens, words::IF)?;
    let (cond, left) = cond(alloc, left, room)?;
    if_tail(alloc, left, boxed(alloc, cond)?, room, deep)
}

/// What follows this condition: `GOTO name ;` or THEN and statements.
#[cycle(statements)]
fn if_tail(
    alloc: Global,
    tokens: Cursor<'_>,
    cond: Boxed<Cond>,
    room: usize,
    deep: usize,
) -> Result<(StmtKind, Cursor<'_>), Fault>
    ensures { Reads result (if_with cond (if_tail_at deep (body_read room deep))) tokens.entry }
{
    if starts(tokens, words::GOTO) {
        return if_goto(alloc, tokens, cond);
    }
    if deep == 0 {
        return Err(Fault::Stuck {
            left: tokens.len(),
            deep: starts(tokens, words::THEN),
        });
    }
    then_of(alloc, tokens, cond, room, deep - 1)
}

#[tactic(auto, unfolding(crate::specs::Statements::gone_read))]
fn if_goto(
    alloc: Global,
    tokens: Cursor<'_>,
    cond: Boxed<Cond>,
) -> Result<(StmtKind, Cursor<'_>), Fault>
    ensures { Reads result (if_with cond gone_read) tokens.entry }
{
    let (label, left) = to_label(alloc, tokens)?;
    Ok((StmtKind::IfGoto { cond, label }, left))
}

/// `THEN { stmt } [ ELSE { stmt } ] FI ;` after this condition.
#[cycle(statements)]
#[tactic(auto, unfolding(crate::specs::Statements::then_by))]
fn then_of(
    alloc: Global,
    tokens: Cursor<'_>,
    cond: Boxed<Cond>,
    room: usize,
    deep: usize,
) -> Result<(StmtKind, Cursor<'_>), Fault>
    ensures { Reads result (if_with cond (then_by (stmts_read room deep))) tokens.entry }
{
    let (branches, left) = branches(alloc, tokens, room, deep)?;
    let (first, other) = branches;
    Ok((StmtKind::If { cond, first, other }, left))
}

/// The statements of an IF: those of THEN, and those of ELSE.
type Branches = (Seq<Stmt>, Option<Boxed<Seq<Stmt>>>);

/// `THEN { stmt } [ ELSE { stmt } ] FI ;`
#[cycle(statements)]
fn branches(
    alloc: Global,
    tokens: Cursor<'_>,
    room: usize,
    deep: usize,
) -> Result<(Branches, Cursor<'_>), Fault>
    ensures { Reads result (branches_read (stmts_read room deep)) tokens.entry }
{
    let (_, left) = word(tokens, words::THEN)?;
    let (first, left) = stmts(alloc, left, room, deep)?;
    let (other, left) = else_to_fi(alloc, left, room, deep)?;
    Ok(((first, other), left))
}

/// `[ ELSE { stmt } ] FI ;`
#[cycle(statements)]
fn else_to_fi(
    alloc: Global,
    tokens: Cursor<'_>,
    room: usize,
    deep: usize,
) -> Result<(Option<Boxed<Seq<Stmt>>>, Cursor<'_>), Fault>
    ensures { Reads result (else_to_fi_read (stmts_read room deep)) tokens.entry }
{
    let (other, left) = else_of(alloc, tokens, room, deep)?;
    let (_, left) = word(left, words::FI)?;
    let (_, left) = word(left, words::SEMI)?;
    Ok((other, left))
}

#[cycle(statements)]
#[tactic(auto, unfolding(crate::specs::Statements::else_by))]
fn else_of(
    alloc: Global,
    tokens: Cursor<'_>,
    room: usize,
    deep: usize,
) -> Result<(Option<Boxed<Seq<Stmt>>>, Cursor<'_>), Fault>
    ensures { Reads result (else_by (stmts_read room deep)) tokens.entry }
{
    if starts(tokens, words::ELSE) {
        let (_, left) = word(tokens, words::ELSE)?;
        let (list, left) = stmts(alloc, left, room, deep)?;
        Ok((Some(boxed(alloc, list)?), left))
    } else {
        Ok((None, tokens))
    }
}

/// A CASE or an ON, of which the statements in it hold statements at most `deep` deep.
#[cycle(statements)]
#[tactic(auto, unfolding(crate::specs::Statements::nest_by))]
fn nest(
    alloc: Global,
    tokens: Cursor<'_>,
    room: usize,
    deep: usize,
) -> Result<(StmtKind, Cursor<'_>), Fault>
    ensures { Reads result (nest_by room (stmts_read room deep)) tokens.entry }
{
    if starts(tokens, words::CASE) {
        case(alloc, tokens, room, deep)
    } else {
        on(alloc, tokens, room, deep)
    }
}

/// `CASE expr IS { WHEN number DO { stmt } } OTHERWISE DO { stmt } ESAC ;`
#[cycle(statements)]
#[tactic(auto, unfolding(crate::specs::Statements::case_by))]
fn case(
    alloc: Global,
    tokens: Cursor<'_>,
    room: usize,
    deep: usize,
) -> Result<(StmtKind, Cursor<'_>), Fault>
    ensures { Reads result (case_by room (stmts_read room deep)) tokens.entry }
{
    let (_, left) = word(tokens, words::CASE)?;
    let (value, left) = boxed_expr(alloc, left, room)?;
    let (_, left) = word(left, words::IS)?;
    let (arms, left) = arms(alloc, left, room, deep)?;
    let (whens, otherwise) = arms;
    Ok((
        StmtKind::Case {
            value,
            whens,
            otherwise,
        },
        left,
    ))
}

/// `{ WHEN number DO { stmt } } OTHERWISE DO { stmt } ESAC ;`
#[cycle(statements)]
fn arms(
    alloc: Global,
    tokens: Cursor<'_>,
    room: usize,
    deep: usize,
) -> Result<((Seq<When>, Boxed<Seq<Stmt>>), Cursor<'_>), Fault>
    ensures { Reads result (arms_read (stmts_read room deep)) tokens.entry }
{
    let (whens, left) = whens(alloc, tokens, room, deep)?;
    let (otherwise, left) = otherwise(alloc, left, room, deep)?;
    Ok(((whens, otherwise), left))
}

/// `OTHERWISE DO { stmt } ESAC ;`
#[cycle(statements)]
fn otherwise(
    alloc: Global,
    tokens: Cursor<'_>,
    room: usize,
    deep: usize,
) -> Result<(Boxed<Seq<Stmt>>, Cursor<'_>), Fault>
    ensures { Reads result (otherwise_read (stmts_read room deep)) tokens.entry }
{
    let (_, left) = word(tokens, words::OTHERWISE)?;
    let (body, left) = do_until(alloc, left, words::ESAC, room, deep)?;
    Ok((boxed(alloc, body)?, left))
}

/// DO, statements, this last word, and `;`
#[cycle(statements)]
fn do_until(
    alloc: Global,
    tokens: Cursor<'_>,
    last: u64,
    room: usize,
    deep: usize,
) -> Result<(Seq<Stmt>, Cursor<'_>), Fault>
    ensures { Reads result (do_read (last ∷ []) (stmts_read room deep)) tokens.entry }
{
    let (_, left) = word(tokens, words::DO)?;
    let (body, left) = stmts(alloc, left, room, deep)?;
    let (_, left) = word(left, last)?;
    let (_, left) = word(left, words::SEMI)?;
    Ok((body, left))
}

#[cycle(statements)]
#[tactic(auto, using(crate::proofs::Loops::when_less, crate::proofs::Loops::when_on, crate::proofs::Loops::when_end, crate::proofs::Loops::when_bad))]
fn whens(
    alloc: Global,
    tokens: Cursor<'_>,
    room: usize,
    deep: usize,
) -> Result<(Seq<When>, Cursor<'_>), Fault>
    ensures { Reads result (many classes.WHEN (when_by (stmts_read room deep))) tokens.entry }
{
    let mut left = tokens;
    let mut list = Seq::new(alloc);
    'whens: while starts(left, words::WHEN) {
        let (when, after) = when(alloc, left, room, deep)?;
        if let Err(_) = list.push(when) {
            return Err(Fault::Memory);
        }
        left = after;
    }
    Ok((list, left))
}

/// `WHEN number DO { stmt }`
#[cycle(statements)]
#[tactic(auto, unfolding(crate::specs::Statements::when_by))]
fn when(
    alloc: Global,
    tokens: Cursor<'_>,
    room: usize,
    deep: usize,
) -> Result<(When, Cursor<'_>), Fault>
    ensures { Reads result (when_by (stmts_read room deep)) tokens.entry }
{
    let line = line_of(tokens);
    let (_, left) = word(tokens, words::WHEN)?;
    let (number, left) = number(left)?;
    let (_, left) = word(left, words::DO)?;
    let (body, left) = stmts(alloc, left, room, deep)?;
    Ok((When { line, number, body }, left))
}

/// The bounds of an ON, and its statements.
type Span = (Boxed<Expr>, (Boxed<Expr>, Seq<Stmt>));

/// `ON name FROM expr UPTO expr DO { stmt } NO ;`
#[cycle(statements)]
#[tactic(auto, unfolding(crate::specs::Statements::on_by))]
fn on(
    alloc: Global,
    tokens: Cursor<'_>,
    room: usize,
    deep: usize,
) -> Result<(StmtKind, Cursor<'_>), Fault>
    ensures { Reads result (on_by room (stmts_read room deep)) tokens.entry }
{
    let (_, left) = word(tokens, words::ON)?;
    let (name, left) = boxed_name(alloc, left)?;
    let (span, left) = span(alloc, left, room, deep)?;
    let (from, (upto, body)) = span;
    Ok((
        StmtKind::On {
            name,
            from,
            upto,
            body,
        },
        left,
    ))
}

/// `FROM expr UPTO expr DO { stmt } NO ;`
#[cycle(statements)]
fn span(
    alloc: Global,
    tokens: Cursor<'_>,
    room: usize,
    deep: usize,
) -> Result<(Span, Cursor<'_>), Fault>
    ensures { Reads result (span_read room (stmts_read room deep)) tokens.entry }
{
    let (_, left) = word(tokens, words::FROM)?;
    let (from, left) = boxed_expr(alloc, left, room)?;
    let (rest, left) = upto(alloc, left, room, deep)?;
    Ok(((from, rest), left))
}

/// `UPTO expr DO { stmt } NO ;`
#[cycle(statements)]
fn upto(
    alloc: Global,
    tokens: Cursor<'_>,
    room: usize,
    deep: usize,
) -> Result<((Boxed<Expr>, Seq<Stmt>), Cursor<'_>), Fault>
    ensures { Reads result (upto_read room (stmts_read room deep)) tokens.entry }
{
    let (_, left) = word(tokens, words::UPTO)?;
    let (upto, left) = boxed_expr(alloc, left, room)?;
    let (body, left) = do_until(alloc, left, words::NO, room, deep)?;
    Ok(((upto, body), left))
}
