// Assignments.
ghost use Rattle.std.specs.Prelude.{◌≡◌};
ghost use Rattle.token_grammar.specs.Gives.{Reads};
ghost use Rattle.plex_parser.specs.Statements.{assigned_read, assign_made, value_read};

use crate::plain::boxed_expr;
use plex_ast::{Boxed, Expr, Named, StmtKind, words};
use plex_expr_parser::pointer;
use plex_lexer::Cursor;
use std::alloc::Global;
use token_grammar::{Fault, word};

/// What follows the name that is assigned, `[ ( name ) ] = expr ;`, and the tokens after it.
#[tactic(auto, unfolding(crate::specs::Statements::assigned_read))]
pub fn assigned(
    alloc: Global,
    tokens: Cursor<'_>,
    room: usize,
) -> Result<((Option<Boxed<Named>>, Boxed<Expr>), Cursor<'_>), Fault>
    ensures { Reads result (assigned_read room) tokens.entry }
{
    let (pointer, left) = pointer(alloc, tokens)?;
    let (value, left) = new_value(alloc, left, room)?;
    Ok(((pointer, value), left))
}

/// `= expr ;`
fn new_value(
    alloc: Global,
    tokens: Cursor<'_>,
    room: usize,
) -> Result<(Boxed<Expr>, Cursor<'_>), Fault>
    ensures { Reads result (value_read room) tokens.entry }
{
    let (_, left) = word(tokens, words::EQUAL)?;
    let (value, left) = boxed_expr(alloc, left, room)?;
    let (_, left) = word(left, words::SEMI)?;
    Ok((value, left))
}

/// The assignment to this variable or, with a pointer, to this field.
pub fn assign(name: Named, pointer: Option<Boxed<Named>>, value: Boxed<Expr>) -> StmtKind
    ensures { result ≡ assign_made name (pointer, value) }
{
    match pointer {
        None => StmtKind::Assign { name, value },
        Some(pointer) => StmtKind::SetField {
            name,
            pointer,
            value,
        },
    }
}
