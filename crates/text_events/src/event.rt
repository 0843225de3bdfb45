// What may stand at a place of a text.
ghost use Rattle.std.specs.Prelude.{◌≡◌};
ghost use Rattle.text_events.specs.Kept.{said_of};
ghost use Rattle.text_events.specs.Seen.{note_of};

use crate::kept::PackedEvent;
use crate::role::{Meaning, Need, Role};
use plex_ast::{Item, Stmt};
use std::marker::Model;
use token_grammar::KeptName;

/// What stands at a place. Names stand in the tree. A statement is named by the number of the
/// events before it in its part.
#[derive(Clone, Copy, Drop)]
pub enum EventKind<'a> {
    /// A declaration makes so many signals.
    Signals {
        count: u32,
    },
    /// A signal or an answer has this name.
    Signal {
        name: &'a KeptName,
    },
    /// It carries so many values.
    Carries {
        count: u32,
    },
    /// A block begins.
    Block,
    BlockName {
        name: &'a KeptName,
    },
    /// A declaration takes so many cells.
    Cells {
        count: u64,
    },
    /// A name is declared.
    Declares {
        name: &'a KeptName,
        meaning: Meaning,
    },
    /// The number after WIDTH.
    Width {
        bits: u32,
    },
    /// The number after INIT, and that after the WIDTH before it.
    Init {
        value: u32,
        bits: u32,
    },
    /// The number after SIZE.
    Size {
        records: u32,
    },
    /// A line of the survey receives a signal.
    Receives {
        signal: &'a KeptName,
    },
    /// A signal is named.
    Names {
        signal: &'a KeptName,
        role: Role,
    },
    /// The statement at a place of a list begins.
    Begins {
        list: &'a [Stmt],
        at: u32,
    },
    /// The ENTER or the statement at a place of a program begins.
    BeginsItem {
        list: &'a [Item],
        at: u32,
    },
    /// A declared name is used.
    Uses {
        name: &'a KeptName,
        need: Need,
    },
    /// A declared name is an operand of the statement.
    Reads {
        name: &'a KeptName,
        need: Need,
        owner: u32,
    },
    /// A number is an operand of the statement.
    Counts {
        owner: u32,
    },
    /// A block is an operand of the statement.
    Refers {
        block: &'a KeptName,
        owner: u32,
    },
    /// A label to which control may go.
    Goes {
        label: &'a KeptName,
    },
    /// The file that FOR FIRST looks through.
    Searches {
        file: &'a KeptName,
    },
    /// The field that FOR FIRST looks at, and its file.
    Compares {
        field: &'a KeptName,
        file: &'a KeptName,
    },
    /// The file of SEIZE or FREE.
    Holds {
        file: &'a KeptName,
    },
    /// The number after a WHEN of a CASE.
    Chooses {
        owner: u32,
        number: u32,
    },
    /// The text of a block ends.
    Ends,
}

/// What stands at a place, on its line, counted from 1; contracts see the line and the note.
#[derive(Drop)]
pub struct Event<'a> {
    kept: PackedEvent<'a>,
}

impl<'a> Model for Event<'a> {
    ghost use Rattle.std.specs.Coded.{codes};
    ghost use Rattle.text_events.specs.Note.{Event as Said};
    ghost use Rattle.text_events.specs.Kept.{line_kept, note_kept};
    ghost use Rattle.text_events.specs.contracts.role.Meaning as meaning;
    ghost use Rattle.text_events.specs.contracts.role.Need as need;
    ghost use Rattle.text_events.specs.contracts.role.Role as role;

    ghost Value = { Said };

    ghost coded = { Prim.hlevel (
      codes,
      meaning.the_row.coded,
      need.the_row.coded,
      role.the_row.coded,
    ) };

    ghost view = { λ e. record { line = line_kept e.kept; note = note_kept e.kept } };
}

impl<'a> Event<'a> {
    /// The event of which this is kept.
    pub fn of(kept: PackedEvent<'a>) -> Event<'a>
        ensures { result ≡ said_of kept.entry }
    {
        Event { kept }
    }

    /// The line, counted from 1.
    pub fn line(&self) -> u32
        ensures { result ≡ self.now.line }
    {
        self.kept.line()
    }

    /// What stands there.
    pub fn kind(&self) -> EventKind<'a>
        ensures { note_of result ≡ self.now.note }
    {
        self.kept.kind()
    }
}
