// Blocks.
use crate::boxed::Boxed;
use crate::stmt::{Names, Stmt};
use plex_num::Seq;
use token_grammar::{Named, Numbered};

/// `block = BLOCK name ; DECLARE ; { decl } SURVEY ; { survey } PROGRAM ; { item } END BLOCK ;`
pub struct Block {
    pub line: u32,
    pub name: Named,
    pub decls: Seq<Decl>,
    pub surveys: Seq<Survey>,
    pub items: Seq<Item>,
    /// The line of its END.
    pub end_line: u32,
}

impl Drop for Block {
    fn drop(self) {
        let Block {
            line: _,
            name: _,
            decls: _,
            surveys: _,
            items: _,
            end_line: _,
        } = self;
    }
}

/// `decl`: a declaration, which its alternatives tell apart.
pub struct Decl {
    pub line: u32,
    pub kind: DeclKind,
}

impl Drop for Decl {
    fn drop(self) {
        let Decl { line: _, kind: _ } = self;
    }
}

/// The alternatives of `decl`.
#[derive(Drop)]
pub enum DeclKind {
    /// `VARIABLE name WIDTH number [ INIT number ] [ CLEAR ] ;` where `clear` says whether CLEAR
    /// stands there
    Variable {
        name: Named,
        width: Numbered,
        init: Option<Numbered>,
        clear: bool,
    },
    /// `TEMPORARY name ;`
    Temporary {
        name: Named,
    },
    /// `[ FORLOPP ] FILE name SIZE number ; { FIELD .. }` where `forlopp` says whether FORLOPP
    /// stands there
    File {
        forlopp: bool,
        name: Named,
        size: Numbered,
        fields: Seq<Field>,
    },
}

/// One field of a file: `FIELD name WIDTH number [ INIT number ] ;`
pub struct Field {
    pub line: u32,
    pub name: Named,
    pub width: Numbered,
    pub init: Option<Numbered>,
}

impl Drop for Field {
    fn drop(self) {
        let Field {
            line: _,
            name: _,
            width: _,
            init: _,
        } = self;
    }
}

/// `survey`: a line of a survey, which its alternatives tell apart.
pub struct Survey {
    pub line: u32,
    pub kind: SurveyKind,
}

impl Drop for Survey {
    fn drop(self) {
        let Survey { line: _, kind: _ } = self;
    }
}

/// The alternatives of `survey`.
#[derive(Drop)]
pub enum SurveyKind {
    /// `RECEIVE name ;`
    Receive { signal: Named },
    /// `SEND name ;`
    Send { signal: Named },
}

/// `item`: a step of a program, which its alternatives tell apart.
pub struct Item {
    pub line: u32,
    pub kind: ItemKind,
}

impl Drop for Item {
    fn drop(self) {
        let Item { line: _, kind: _ } = self;
    }
}

/// The alternatives of `item`.
#[derive(Drop)]
pub enum ItemKind {
    /// `name )`
    Label {
        name: Named,
    },
    /// `ENTER name [ names ] ;`
    Enter {
        signal: Named,
        names: Option<Boxed<Names>>,
    },
    /// `stmt`
    Stmt(Stmt),
}
