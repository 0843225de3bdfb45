// Statements and labels as their neighbours and the rules see them.
ghost use Rattle.std.specs.Prelude.{◌≡◌, length};
ghost use Rattle.text_events.specs.Walk.{names_of, values_of, kind_head, way_of};
ghost use Rattle.text_events.specs.Blocks.{item_head_at};
ghost use Rattle.text_events.specs.Note.{begun, before_begun, after_begun};
ghost use Rattle.text_events.specs.Seen.{note_of, way_seen, head_seen, head_at, head_before};
ghost use Rattle.text_events.specs.Seen.{stmt_heads, item_heads};
ghost use Rattle.plex_ast.specs.declared.stmt.StmtKind.{out-StmtKind};

use crate::event::EventKind;
use plex_ast::{Boxed, Exprs, Item, ItemKind, Names, Reference, ReferenceKind, Stmt, StmtKind};
use token_grammar::KeptName;

/// To which of several receivers a signal goes: nothing is said of it, a block is named, or a name
/// holds the block.
#[derive(Clone, Copy, Drop)]
pub enum Way<'a> {
    Open,
    To(&'a KeptName),
    Held,
}

/// A statement or a label as its neighbours and the rules see it; `count` is that of the names or
/// values after WITH.
#[derive(Clone, Copy, Drop)]
pub enum Head<'a> {
    /// The list begins or ends there.
    Nothing,
    Other,
    Enters {
        signal: &'a KeptName,
        count: usize,
    },
    /// `fresh` says whether NEW FORLOPP stands there.
    Sends {
        signal: &'a KeptName,
        way: Way<'a>,
        count: usize,
        fresh: bool,
    },
    Retrieves {
        signal: &'a KeptName,
        count: usize,
    },
    Returns {
        signal: &'a KeptName,
        count: usize,
    },
    Transfers {
        signal: &'a KeptName,
        way: Way<'a>,
    },
}

// How many names stand after WITH.
fn count_names(names: &Option<Boxed<Names>>) -> usize
    ensures { result ≡ length (names_of names.now) }
{
    match names {
        None => 0,
        Some(x) => x.get().rest.as_slice().len() + 1,
    }
}

// How many values stand after WITH.
fn count_values(values: &Option<Boxed<Exprs>>) -> usize
    ensures { result ≡ length (values_of values.now) }
{
    match values {
        None => 0,
        Some(x) => x.get().rest.as_slice().len() + 1,
    }
}

// To which of several receivers a statement sends.
fn way_of(reference: &Option<Boxed<Reference>>) -> Way<'_>
    ensures { way_seen result ≡ way_of reference.now }
{
    match reference {
        None => Way::Open,
        Some(r) => match &r.get().kind {
            ReferenceKind::Block { name } => Way::To(&name.name),
            ReferenceKind::Held { .. } => Way::Held,
        },
    }
}

// The statement of this kind.
fn kind_head(k: &StmtKind) -> Head<'_>
    ensures { head_seen result ≡ kind_head (out-StmtKind k.now) }
{
    match k {
        StmtKind::Send {
            signal,
            reference,
            values,
            fresh,
        } => Head::Sends {
            signal: &signal.get().name,
            way: way_of(reference),
            count: count_values(values),
            fresh: *fresh,
        },
        StmtKind::Retrieve { signal, names } => Head::Retrieves {
            signal: &signal.name,
            count: count_names(names),
        },
        StmtKind::Return { signal, values } => Head::Returns {
            signal: &signal.name,
            count: count_values(values),
        },
        StmtKind::Transfer { signal, reference } => Head::Transfers {
            signal: &signal.name,
            way: way_of(reference),
        },
        _ => Head::Other,
    }
}

fn item_head(item: &Item) -> Head<'_>
    ensures { head_seen result ≡ item_head_at item.now.kind }
{
    match &item.kind {
        ItemKind::Label { name: _ } => Head::Other,
        ItemKind::Enter { signal, names } => Head::Enters {
            signal: &signal.name,
            count: count_names(names),
        },
        ItemKind::Stmt(s) => kind_head(&s.kind),
    }
}

// The statement at a place of a list, if one is there.
#[tactic(auto, using(crate::proofs::There::head_there, crate::proofs::There::no_head_there))]
fn statement_at(list: &[Stmt], at: usize) -> Head<'_>
    ensures { head_seen result ≡ head_at (stmt_heads list.now) at }
{
    match list.get(at) {
        Some(s) => kind_head(&s.kind),
        None => Head::Nothing,
    }
}

// The statement before a place of a list, if one is there.
fn statement_before(list: &[Stmt], at: u32) -> Head<'_>
    ensures { head_seen result ≡ head_before (stmt_heads list.now) at }
{
    match at.checked_sub(1) {
        Some(before) => statement_at(list, before as usize),
        None => Head::Nothing,
    }
}

// The item at a place of a program, if one is there.
#[tactic(auto, using(crate::proofs::There::head_there, crate::proofs::There::no_head_there))]
fn item_at(list: &[Item], at: usize) -> Head<'_>
    ensures { head_seen result ≡ head_at (item_heads list.now) at }
{
    match list.get(at) {
        Some(item) => item_head(item),
        None => Head::Nothing,
    }
}

// The item before a place of a program, if one is there.
fn item_before(list: &[Item], at: u32) -> Head<'_>
    ensures { head_seen result ≡ head_before (item_heads list.now) at }
{
    match at.checked_sub(1) {
        Some(before) => item_at(list, before as usize),
        None => Head::Nothing,
    }
}

impl<'a> EventKind<'a> {
    /// The statement that begins there, if one does.
    pub fn begun(self) -> Head<'a>
        ensures { head_seen result ≡ begun (note_of self.entry) }
    {
        match self {
            EventKind::Begins { list, at } => statement_at(list, at as usize),
            EventKind::BeginsItem { list, at } => item_at(list, at as usize),
            _ => Head::Nothing,
        }
    }

    /// What stands before that statement in its list.
    pub fn before(self) -> Head<'a>
        ensures { head_seen result ≡ before_begun (note_of self.entry) }
    {
        match self {
            EventKind::Begins { list, at } => statement_before(list, at),
            EventKind::BeginsItem { list, at } => item_before(list, at),
            _ => Head::Nothing,
        }
    }

    /// What stands after that statement in its list.
    pub fn after(self) -> Head<'a>
        ensures { head_seen result ≡ after_begun (note_of self.entry) }
    {
        match self {
            EventKind::Begins { list, at } => statement_at(list, at as usize + 1),
            EventKind::BeginsItem { list, at } => item_at(list, at as usize + 1),
            _ => Head::Nothing,
        }
    }
}
