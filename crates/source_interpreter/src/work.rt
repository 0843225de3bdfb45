// What remains to be done, as places in the exchange's own lists: no statement is copied.
ghost use Rattle.std.specs.Prelude.{◌≡◌, ◌∷◌, ◌++◌, [], List, map, true, OnOk, IfOk, IfSome};
ghost use Rattle.std.specs.Prelude.{IfNone};
ghost use Rattle.exchange_model.specs.declared.stmt.StmtKind.{out-StmtKind};
ghost use Rattle.source_meaning.specs.Config.{Item, Do, Start, Turns, starting, next_counted};
ghost use Rattle.exchange_model.specs.Kept.{is_enter as enters};
ghost use Rattle.source_interpreter.specs.Work.{items_of, taken_items, todo_of};
ghost use Rattle.source_interpreter.specs.Kept.{AreKept, AreOfText, IsKept, IsNextKept};
ghost use Rattle.source_interpreter.specs.Taken.{before, is_counted};

use crate::cases::Cases;
use exchange_model::{Stmt, StmtKind};
use plex_num::Memory;
use std::alloc::Global;
use std::marker::Model;

/// One part of what remains: statements, the ENTER of the signal that began the activation, or the
/// turns of a loop from a number on. Beside statements stand the tables of their exchange.
#[derive(Clone, Copy, Drop)]
pub enum Part<'a> {
    Rest {
        first: &'a Stmt,
        others: &'a [Stmt],
        cases: &'a Cases,
    },
    Start(&'a Stmt),
    Turns {
        point: u32,
        temp: u8,
        this: u64,
        last: u32,
        body: &'a [Stmt],
        cases: &'a Cases,
    },
}

/// The item that comes next, with the tables of its exchange.
#[derive(Clone, Copy, Drop)]
pub enum Next<'a> {
    Do {
        statement: &'a Stmt,
        cases: &'a Cases,
    },
    Start(&'a Stmt),
    Turn {
        point: u32,
        temp: u8,
        this: u64,
        last: u32,
        body: &'a [Stmt],
        cases: &'a Cases,
    },
}

/// What remains to be done, which contracts see as the list of items.
#[derive(Drop)]
pub struct Work<'a> {
    parts: Vec<Part<'a>>,
}

impl<'a> Model for Work<'a> {
    ghost use Rattle.std.specs.Prelude.{List};
    ghost use Rattle.source_meaning.specs.Config.{Item};
    ghost use Rattle.source_interpreter.specs.Work.{todo_of};
    ghost use Rattle.source_interpreter.specs.Kept.{AreKept};
    ghost use Rattle.std.specs.Coded.{codes};
    ghost use Rattle.exchange_model.specs.contracts.stmt.StmtKind as kind;

    ghost Value = { List Item };

    ghost coded = { Prim.hlevel (codes, kind.the_row.coded) };

    ghost view = { λ w. todo_of w.parts.items };

    ghost invariant = { λ w. AreKept w.parts.items };
}

impl<'a> Work<'a> {
    /// Nothing remains.
    pub fn new(alloc: Global) -> Work<'a>
        ensures { result ≡ [] }
    {
        Work {
            parts: Vec::new(alloc),
        }
    }

    /// Drops what remains, and keeps the memory.
    pub fn clear(&mut self)
        ensures { self.new ≡ [] }
    {
        self.parts.clear();
    }

    /// Puts statements before what remains.
    #[tactic(auto, using(crate::proofs::Todo::kept_first, crate::proofs::Todo::kept_others))]
    pub fn push_statements(
        &mut self,
        statements: &'a [Stmt],
        cases: &'a Cases,
    ) -> Result<(), Memory>
        requires { AreOfText cases.now statements.now }
        ensures { OnOk result (self.new ≡ map Do statements.now ++ self.old) }
    {
        match statements.split_first() {
            None => Ok(()),
            Some((first, others)) => push(
                &mut self.parts,
                Part::Rest {
                    first,
                    others,
                    cases,
                },
            ),
        }
    }

    /// Puts the ENTER of an activation's signal before what remains.
    pub fn push_start(&mut self, statement: &'a Stmt) -> Result<(), Memory>
        ensures { OnOk result (self.new ≡ Start statement.now ∷ self.old) }
    {
        push(&mut self.parts, Part::Start(statement))
    }

    /// Puts the turns of a loop before what remains.
    pub fn push_turns(
        &mut self,
        point: u32,
        temp: u8,
        this: u64,
        last: u32,
        body: &'a [Stmt],
        cases: &'a Cases,
    ) -> Result<(), Memory>
        requires { AreOfText cases.now body.now }
        ensures { OnOk result (self.new ≡ Turns point temp this last body.now ∷ self.old) }
    {
        push(
            &mut self.parts,
            Part::Turns {
                point,
                temp,
                this,
                last,
                body,
                cases,
            },
        )
    }

    /// What an activation does that begins with these statements: the ENTER of its signal, and what
    /// follows it.
    #[tactic(auto, using(crate::proofs::Todo::kept_others))]
    pub fn start(&mut self, statements: &'a [Stmt], cases: &'a Cases) -> Result<(), Memory>
        requires { AreOfText cases.now statements.now }
        ensures { OnOk result (self.new ≡ starting statements.now) }
    {
        self.clear();
        match statements.split_first() {
            Some((enter, others)) if is_enter(&enter.kind) => {
                self.push_statements(others, cases)?;
                self.push_start(enter)
            }
            _ => Ok(()),
        }
    }

    /// Takes the next item that counts, and drops those before it.
    pub fn take_next(&mut self) -> Result<Option<Next<'a>>, Memory>
        ensures item { IfOk result (λ next. next_counted self.old ≡ before next self.new) }
        ensures counts { IfOk result (λ next. IfSome next (λ n. is_counted n ≡ true)) }
        ensures kept { IfOk result (λ next. IfSome next IsNextKept) }
    {
        while let Some(next) = self.take()? {
            if counts(&next) {
                return Ok(Some(next));
            }
        }
        Ok(None)
    }

    // Takes the first item.
    fn take(&mut self) -> Result<Option<Next<'a>>, Memory>
        ensures item { IfOk result (λ next. self.old ≡ before next self.new) }
        ensures kept { IfOk result (λ next. IfSome next IsNextKept) }
    {
        match pop(&mut self.parts) {
            None => Ok(None),
            Some(Part::Start(statement)) => Ok(Some(Next::Start(statement))),
            Some(
                Part::Turns {
                    point,
                    temp,
                    this,
                    last,
                    body,
                    cases,
                },
            ) => Ok(Some(Next::Turn {
                point,
                temp,
                this,
                last,
                body,
                cases,
            })),
            Some(
                Part::Rest {
                    first,
                    others,
                    cases,
                },
            ) => {
                self.push_statements(others, cases)?;
                Ok(Some(Next::Do {
                    statement: first,
                    cases,
                }))
            }
        }
    }
}

// Puts a part before the others.
#[tactic(auto, using(crate::proofs::Todo::todo_push, crate::proofs::Todo::kept_push))]
fn push<'a>(parts: &mut Vec<Part<'a>>, part: Part<'a>) -> Result<(), Memory>
    requires part { IsKept part }
    requires kept { AreKept parts.old.items }
    ensures todo { OnOk result
        (todo_of parts.new.items ≡ items_of part.entry ++ todo_of parts.old.items) }
    ensures kept { AreKept parts.new.items }
{
    match parts.push(part) {
        Ok(()) => Ok(()),
        Err(_) => Err(Memory),
    }
}

// Takes out the part that comes first.
#[tactic(auto, using(crate::proofs::Todo::todo_pop, crate::proofs::Todo::kept_pop, crate::proofs::Todo::kept_part, crate::proofs::Todo::todo_none))]
fn pop<'a>(parts: &mut Vec<Part<'a>>) -> Option<Part<'a>>
    requires { AreKept parts.old.items }
    ensures todo { todo_of parts.old.items ≡ taken_items result ++ todo_of parts.new.items }
    ensures none { IfNone result (todo_of parts.old.items ≡ []) }
    ensures part { IfSome result IsKept }
    ensures kept { AreKept parts.new.items }
{
    parts.pop()
}

fn counts(next: &Next) -> bool
    ensures { result ≡ is_counted next.now }
{
    match next {
        Next::Do { statement, .. } => !is_enter(&statement.kind),
        Next::Start(_) => true,
        Next::Turn { this, last, .. } => *this <= u64::from(*last),
    }
}

fn is_enter(kind: &StmtKind) -> bool
    ensures { result ≡ enters (out-StmtKind kind.now) }
{
    matches!(kind, StmtKind::Enter { .. })
}
