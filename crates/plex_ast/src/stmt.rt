// Statements.
use crate::boxed::Boxed;
use crate::expr::{Cond, Expr, Exprs, Rel};
use plex_num::Seq;
use token_grammar::{Named, Numbered};

/// `names = WITH name { , name }`
pub struct Names {
    pub line: u32,
    pub first: Named,
    pub rest: Seq<Named>,
}

impl Drop for Names {
    fn drop(self) {
        let Names {
            line: _,
            first: _,
            rest: _,
        } = self;
    }
}

/// `ref = REFERENCE name | REFERENCE ( name )`: which of several receivers a signal goes to
pub struct Reference {
    pub line: u32,
    pub kind: ReferenceKind,
}

impl Drop for Reference {
    fn drop(self) {
        let Reference { line: _, kind: _ } = self;
    }
}

/// The alternatives of `ref`.
#[derive(Drop)]
pub enum ReferenceKind {
    /// `REFERENCE name`: this block
    Block { name: Named },
    /// `REFERENCE ( name )`: the block that this variable or temporary holds
    Held { name: Named },
}

/// `stmt`: a statement, which its alternatives tell apart.
#[derive(Drop)]
#[cycle(stmt)]
pub struct Stmt {
    pub line: u32,
    pub kind: StmtKind,
}

/// The alternatives of `stmt`. What a short statement lacks stands behind boxes, so that a list of
/// many is small.
#[derive(Drop)]
#[cycle(stmt)]
pub enum StmtKind {
    /// `name = expr ;`
    Assign {
        name: Named,
        value: Boxed<Expr>,
    },
    /// `name ( name ) = expr ;`
    SetField {
        name: Named,
        pointer: Boxed<Named>,
        value: Boxed<Expr>,
    },
    /// `GOTO name ;`
    Goto {
        label: Named,
    },
    /// `IF cond GOTO name ;`
    IfGoto {
        cond: Boxed<Cond>,
        label: Named,
    },
    /// `IF cond THEN { stmt } [ ELSE { stmt } ] FI ;`
    If {
        cond: Boxed<Cond>,
        first: Seq<Stmt>,
        other: Option<Boxed<Seq<Stmt>>>,
    },
    /// `CASE expr IS { WHEN number DO { stmt } } OTHERWISE DO { stmt } ESAC ;`
    Case {
        value: Boxed<Expr>,
        whens: Seq<When>,
        otherwise: Boxed<Seq<Stmt>>,
    },
    /// `ON name FROM expr UPTO expr DO { stmt } NO ;`
    On {
        name: Boxed<Named>,
        from: Boxed<Expr>,
        upto: Boxed<Expr>,
        body: Seq<Stmt>,
    },
    /// `FOR FIRST name IN name WHERE name rel expr GOTO name ;`
    ForFirst {
        name: Boxed<Named>,
        file: Boxed<Named>,
        field: Boxed<Named>,
        rel: Rel,
        value: Boxed<Expr>,
        label: Boxed<Named>,
    },
    /// `SEND name [ ref ] [ exprs ] [ NEW FORLOPP ] ;` where `fresh` says whether NEW FORLOPP
    /// stands there
    Send {
        signal: Boxed<Named>,
        reference: Option<Boxed<Reference>>,
        values: Option<Boxed<Exprs>>,
        fresh: bool,
    },
    /// `RETRIEVE name [ names ] ;`
    Retrieve {
        signal: Named,
        names: Option<Boxed<Names>>,
    },
    /// `RETURN name [ exprs ] ;`
    Return {
        signal: Named,
        values: Option<Boxed<Exprs>>,
    },
    /// `TRANSFER name [ ref ] ;`
    Transfer {
        signal: Named,
        reference: Option<Boxed<Reference>>,
    },
    /// `SEIZE name IN name ELSE GOTO name ;`
    Seize {
        name: Boxed<Named>,
        file: Boxed<Named>,
        label: Boxed<Named>,
    },
    /// `FREE name IN name ;`
    Free {
        name: Boxed<Named>,
        file: Boxed<Named>,
    },
    /// `EXIT ;`
    Exit,
}

/// One choice of a CASE: `WHEN number DO { stmt }`
#[derive(Drop)]
#[cycle(stmt)]
pub struct When {
    pub line: u32,
    pub number: Numbered,
    pub body: Seq<Stmt>,
}
