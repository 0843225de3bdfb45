// What is kept of an event.
ghost use Rattle.std.specs.Prelude.{◌≡◌};
ghost use Rattle.text_events.specs.Note as note;
ghost use Rattle.text_events.specs.Seen.{note_of};
ghost use Rattle.text_events.specs.Kept.{stmt_line_at, own_line, item_line_at, line_kept};
ghost use Rattle.text_events.specs.Kept.{note_kept};
ghost use Rattle.text_events.specs.declared.role.Meaning.TheVariants as meanings;

use crate::event::EventKind;
use crate::role::{Meaning, Need, Role};
use plex_ast::{Boxed, Item, ItemKind, Named, Stmt};
use plex_num::Seq;
use token_grammar::KeptName;

/// A field of a file, by its place in its file, and its name.
#[derive(Drop)]
pub struct FieldHere<'a> {
    pub file: u32,
    pub field: u32,
    pub name: &'a Named,
}

/// The field that FOR FIRST looks at, and its file.
#[derive(Drop)]
pub struct Compared<'a> {
    pub field: &'a Named,
    pub file: &'a Named,
}

/// What is kept of an event, in 16 bytes: small fields come first, the tree tells what it can, and
/// what is seldom is boxed.
#[derive(Drop)]
pub enum PackedEvent<'a> {
    Signals {
        line: u32,
        count: u32,
    },
    Signal {
        line: u32,
        name: &'a KeptName,
    },
    Carries {
        line: u32,
        count: u32,
    },
    Block {
        line: u32,
    },
    BlockName {
        line: u32,
        name: &'a KeptName,
    },
    Cells {
        line: u32,
        count: u64,
    },
    Variable {
        number: u32,
        name: &'a Named,
    },
    Temporary {
        number: u32,
        name: &'a Named,
    },
    File {
        forlopp: bool,
        file: u32,
        name: &'a Named,
    },
    Field(Boxed<FieldHere<'a>>),
    Label {
        number: u32,
        name: &'a Named,
    },
    Width {
        line: u32,
        bits: u32,
    },
    Init {
        line: u32,
        value: u32,
        bits: u32,
    },
    Size {
        line: u32,
        records: u32,
    },
    Receives {
        line: u32,
        signal: &'a KeptName,
    },
    Names {
        role: Role,
        line: u32,
        signal: &'a KeptName,
    },
    Begins {
        at: u32,
        list: &'a Seq<Stmt>,
    },
    BeginsItem {
        at: u32,
        list: &'a Seq<Item>,
    },
    Uses {
        need: Need,
        line: u32,
        name: &'a KeptName,
    },
    Reads {
        need: Need,
        owner: u32,
        name: &'a Named,
    },
    Counts {
        line: u32,
        owner: u32,
    },
    Refers {
        owner: u32,
        block: &'a Named,
    },
    Goes {
        line: u32,
        label: &'a KeptName,
    },
    Searches {
        line: u32,
        file: &'a KeptName,
    },
    Compares(Boxed<Compared<'a>>),
    Holds {
        line: u32,
        file: &'a KeptName,
    },
    Chooses {
        line: u32,
        owner: u32,
        number: u32,
    },
    Ends {
        line: u32,
    },
}

// The line of the statement at a place of a list; 0 where none is there.
#[tactic(auto, using(crate::proofs::There::line_there, crate::proofs::There::no_line_there))]
fn statement_line(list: &[Stmt], at: usize) -> u32
    ensures { result ≡ stmt_line_at list.now at }
{
    match list.get(at) {
        Some(s) => s.line,
        None => 0,
    }
}

fn line_of(item: &Item) -> u32
    ensures { result ≡ own_line item.now.kind item.now.line }
{
    match &item.kind {
        ItemKind::Stmt(s) => s.line,
        _ => item.line,
    }
}

// The line of the item at a place of a program; 0 where none is there.
#[tactic(auto, using(crate::proofs::There::line_there, crate::proofs::There::no_line_there))]
fn item_line(list: &[Item], at: usize) -> u32
    ensures { result ≡ item_line_at list.now at }
{
    match list.get(at) {
        Some(item) => line_of(item),
        None => 0,
    }
}

impl<'a> PackedEvent<'a> {
    /// The line, counted from 1.
    pub fn line(&self) -> u32
        ensures { result ≡ line_kept self.now }
    {
        match self {
            PackedEvent::Signals { line, .. } => *line,
            PackedEvent::Signal { line, .. } => *line,
            PackedEvent::Carries { line, .. } => *line,
            PackedEvent::Block { line } => *line,
            PackedEvent::BlockName { line, .. } => *line,
            PackedEvent::Cells { line, .. } => *line,
            PackedEvent::Variable { name, .. } => name.line,
            PackedEvent::Temporary { name, .. } => name.line,
            PackedEvent::File { name, .. } => name.line,
            PackedEvent::Field(here) => here.get().name.line,
            PackedEvent::Label { name, .. } => name.line,
            PackedEvent::Width { line, .. } => *line,
            PackedEvent::Init { line, .. } => *line,
            PackedEvent::Size { line, .. } => *line,
            PackedEvent::Receives { line, .. } => *line,
            PackedEvent::Names { line, .. } => *line,
            PackedEvent::Begins { at, list } => statement_line(list.as_slice(), *at as usize),
            PackedEvent::BeginsItem { at, list } => item_line(list.as_slice(), *at as usize),
            PackedEvent::Uses { line, .. } => *line,
            PackedEvent::Reads { name, .. } => name.line,
            PackedEvent::Counts { line, .. } => *line,
            PackedEvent::Refers { block, .. } => block.line,
            PackedEvent::Goes { line, .. } => *line,
            PackedEvent::Searches { line, .. } => *line,
            PackedEvent::Compares(both) => both.get().field.line,
            PackedEvent::Holds { line, .. } => *line,
            PackedEvent::Chooses { line, .. } => *line,
            PackedEvent::Ends { line } => *line,
        }
    }

    /// What stands there.
    pub fn kind(&self) -> EventKind<'a>
        ensures { note_of result ≡ note_kept self.now }
    {
        match self {
            PackedEvent::Signals { count, .. } => EventKind::Signals { count: *count },
            PackedEvent::Signal { name, .. } => EventKind::Signal { name: *name },
            PackedEvent::Carries { count, .. } => EventKind::Carries { count: *count },
            PackedEvent::Block { .. } => EventKind::Block,
            PackedEvent::BlockName { name, .. } => EventKind::BlockName { name: *name },
            PackedEvent::Cells { count, .. } => EventKind::Cells { count: *count },
            PackedEvent::Variable { number, name } => declared_kind(
                *name,
                Meaning::Variable(*number),
            ),
            PackedEvent::Temporary { number, name } => declared_kind(
                *name,
                Meaning::Temporary(*number),
            ),
            PackedEvent::File {
                forlopp,
                file,
                name,
            } => {
                let meaning = Meaning::File {
                    file: *file,
                    forlopp: *forlopp,
                };
                declared_kind(*name, meaning)
            }
            PackedEvent::Field(here) => field_kind(here.get()),
            PackedEvent::Label { number, name } => declared_kind(*name, Meaning::Label(*number)),
            PackedEvent::Width { bits, .. } => EventKind::Width { bits: *bits },
            PackedEvent::Init { value, bits, .. } => EventKind::Init {
                value: *value,
                bits: *bits,
            },
            PackedEvent::Size { records, .. } => EventKind::Size { records: *records },
            PackedEvent::Receives { signal, .. } => EventKind::Receives { signal: *signal },
            PackedEvent::Names { role, signal, .. } => EventKind::Names {
                signal: *signal,
                role: *role,
            },
            PackedEvent::Begins { at, list } => EventKind::Begins {
                list: list.as_slice(),
                at: *at,
            },
            PackedEvent::BeginsItem { at, list } => EventKind::BeginsItem {
                list: list.as_slice(),
                at: *at,
            },
            PackedEvent::Uses { need, name, .. } => EventKind::Uses {
                name: *name,
                need: *need,
            },
            PackedEvent::Reads { need, owner, name } => EventKind::Reads {
                name: &name.name,
                need: *need,
                owner: *owner,
            },
            PackedEvent::Counts { owner, .. } => EventKind::Counts { owner: *owner },
            PackedEvent::Refers { owner, block } => EventKind::Refers {
                block: &block.name,
                owner: *owner,
            },
            PackedEvent::Goes { label, .. } => EventKind::Goes { label: *label },
            PackedEvent::Searches { file, .. } => EventKind::Searches { file: *file },
            PackedEvent::Compares(both) => compared_kind(both.get()),
            PackedEvent::Holds { file, .. } => EventKind::Holds { file: *file },
            PackedEvent::Chooses { owner, number, .. } => EventKind::Chooses {
                owner: *owner,
                number: *number,
            },
            PackedEvent::Ends { .. } => EventKind::Ends,
        }
    }
}

fn declared_kind(n: &Named, meaning: Meaning) -> EventKind<'_>
    ensures { note_of result ≡ note.Declares n.now.name meaning }
{
    EventKind::Declares {
        name: &n.name,
        meaning,
    }
}

fn field_kind<'a>(here: &FieldHere<'a>) -> EventKind<'a>
    ensures { note_of result ≡ note.Declares here.now.name.now.name
        (meanings.Field here.now.file here.now.field) }
{
    let meaning = Meaning::Field {
        file: here.file,
        field: here.field,
    };
    declared_kind(here.name, meaning)
}

fn compared_kind<'a>(both: &Compared<'a>) -> EventKind<'a>
    ensures { note_of result ≡ note.Compares both.now.field.now.name both.now.file.now.name }
{
    EventKind::Compares {
        field: &both.field.name,
        file: &both.file.name,
    }
}
