ghost use Rattle.std.specs.Prelude.{◌≡◌};
ghost use Rattle.exchange_model.specs.Kept.{entered, is_enter};
ghost use Rattle.exchange_model.specs.declared.stmt.StmtKind.{out-StmtKind};

use crate::expr::{Cond, Expr, Rel};
use plex_num::Seq;

/// A statement: its number through all blocks, the line of its first token, from 1, and what it
/// does.
#[derive(Drop)]
#[cycle(stmt)]
pub struct Stmt {
    pub point: u32,
    pub line: u32,
    pub kind: StmtKind,
}

/// What a statement does. Temporaries, variables and labels are places in the lists of the block,
/// files and signals are numbers through the exchange, and a field is a place in the list of its
/// file.
#[derive(Drop)]
#[cycle(stmt)]
pub enum StmtKind {
    /// Where the signal starts an activation, the temporaries get its values.
    Enter {
        signal: u32,
        temps: Seq<u8>,
    },
    SetTemp {
        temp: u8,
        value: Expr,
    },
    SetVariable {
        variable: u32,
        value: Expr,
    },
    /// A field of the record whose number the temporary `pointer` has.
    SetField {
        file: u32,
        field: u32,
        pointer: u8,
        value: Expr,
    },
    Goto {
        label: u32,
    },
    IfGoto {
        cond: Cond,
        label: u32,
    },
    If {
        cond: Cond,
        yes: Seq<Stmt>,
        no: Seq<Stmt>,
    },
    Case {
        value: Expr,
        whens: Seq<When>,
        otherwise: Seq<Stmt>,
    },
    On {
        temp: u8,
        from: Expr,
        upto: Expr,
        body: Seq<Stmt>,
    },
    /// The temporary gets the least record whose field stands so to the value, and the text goes on
    /// at the label.
    ForFirst {
        temp: u8,
        file: u32,
        field: u32,
        rel: Rel,
        value: Expr,
        label: u32,
    },
    /// `to` is the receiver; in an exchange it is None exactly for an outside signal. `fresh` says
    /// that the job begins a forlopp of its own.
    Send {
        signal: u32,
        to: Option<Receiver>,
        values: Seq<Expr>,
        fresh: bool,
    },
    /// The temporaries get the values of the answer.
    Retrieve {
        answer: u32,
        temps: Seq<u8>,
    },
    Return {
        answer: u32,
        values: Seq<Expr>,
    },
    /// The entry values go on to the receiver.
    Transfer {
        signal: u32,
        to: Option<Receiver>,
    },
    /// The temporary gets the least free record, or the text goes on at the label.
    Seize {
        temp: u8,
        file: u32,
        label: u32,
    },
    /// The record whose number the temporary has becomes free.
    Free {
        temp: u8,
        file: u32,
    },
    Exit,
    /// The end of the text: the last statement of each body, and nowhere else.
    Finish,
}

impl StmtKind {
    /// The signal that an ENTER takes; `None` exactly for every other statement.
    pub fn entered(&self) -> Option<u32>
        ensures { result ≡ entered (out-StmtKind self.now) }
    {
        match self {
            StmtKind::Enter { signal, .. } => Some(*signal),
            _ => None,
        }
    }

    /// Whether it is an ENTER.
    pub fn is_enter(&self) -> bool
        ensures { result ≡ is_enter (out-StmtKind self.now) }
    {
        matches!(self, StmtKind::Enter { .. })
    }
}

/// One choice of a CASE: the number, and the statements that are done where the value is that
/// number.
#[derive(Drop)]
#[cycle(stmt)]
pub struct When {
    pub number: u32,
    pub body: Seq<Stmt>,
}

/// To which block a signal goes: to that of a number, from 0, or to that whose reference a holder
/// has when the signal is sent.
#[derive(Clone, Copy, PartialEq, Eq)]
pub enum Receiver {
    Block(u32),
    Held(Holder),
}

/// What has a reference: a temporary or a variable, by its place in the list of its block.
#[derive(Clone, Copy, PartialEq, Eq)]
pub enum Holder {
    Temporary(u8),
    Variable(u32),
}
