// Expressions and conditions.
use crate::boxed::Boxed;
use crate::few::Few;
use plex_num::Seq;
use token_grammar::{Named, Numbered};

/// `expr = term { ( + | - ) term }`
#[derive(Drop)]
#[cycle(expr)]
pub struct Expr {
    /// The line of its first token, from 1; so in every node.
    pub line: u32,
    pub first: Term,
    pub rest: Few<Added>,
}

/// What is added to a sum: `+ term | - term`
#[derive(Drop)]
#[cycle(expr)]
pub enum Added {
    /// `+ term`
    Plus(Term),
    /// `- term`
    Minus(Term),
}

/// `term = factor { ( * | / | MOD ) factor }`
#[derive(Drop)]
#[cycle(expr)]
pub struct Term {
    pub line: u32,
    pub first: Factor,
    pub rest: Few<Multiplied>,
}

/// What a product goes on with: `* factor | / factor | MOD factor`
#[derive(Drop)]
#[cycle(expr)]
pub enum Multiplied {
    /// `* factor`
    Times(Factor),
    /// `/ factor`
    Over(Factor),
    /// `MOD factor`
    Mod(Factor),
}

/// `factor = number | name | name ( name ) | ( expr ) | REFERENCE name`
#[derive(Drop)]
#[cycle(expr)]
pub struct Factor {
    pub line: u32,
    pub kind: FactorKind,
}

/// The alternatives of `factor`.
#[derive(Drop)]
#[cycle(expr)]
pub enum FactorKind {
    /// `number`
    Number(Numbered),
    /// `name`: a variable or a temporary
    Name(Named),
    /// `name ( name )`: a field, and the pointer to its record
    Field {
        name: Boxed<Named>,
        pointer: Boxed<Named>,
    },
    /// `( expr )`
    Bracket(Boxed<Expr>),
    /// `REFERENCE name`: the number by which the block is held
    Reference {
        block: Named,
    },
}

/// `cond = conj { OR conj }`
pub struct Cond {
    pub line: u32,
    pub first: Conj,
    pub rest: Seq<Conj>,
}

impl Drop for Cond {
    fn drop(self) {
        let Cond {
            line: _,
            first: _,
            rest: _,
        } = self;
    }
}

/// `conj = relation { AND relation }`
pub struct Conj {
    pub line: u32,
    pub first: Relation,
    pub rest: Seq<Relation>,
}

impl Drop for Conj {
    fn drop(self) {
        let Conj {
            line: _,
            first: _,
            rest: _,
        } = self;
    }
}

/// `relation = expr rel expr`
pub struct Relation {
    pub line: u32,
    pub left: Expr,
    pub rel: Rel,
    pub right: Expr,
}

impl Drop for Relation {
    fn drop(self) {
        let Relation {
            line: _,
            left: _,
            rel: _,
            right: _,
        } = self;
    }
}

/// `rel = = | <> | < | <= | > | >=`
#[derive(Drop)]
pub struct Rel {
    pub line: u32,
    pub kind: RelKind,
}

/// The alternatives of `rel`.
#[derive(Clone, Copy, PartialEq, Eq)]
pub enum RelKind {
    /// `=`
    Equal,
    /// `<>`
    Unequal,
    /// `<`
    Below,
    /// `<=`
    AtMost,
    /// `>`
    Above,
    /// `>=`
    AtLeast,
}

/// `exprs = WITH expr { , expr }`
pub struct Exprs {
    pub line: u32,
    pub first: Expr,
    pub rest: Seq<Expr>,
}

impl Drop for Exprs {
    fn drop(self) {
        let Exprs {
            line: _,
            first: _,
            rest: _,
        } = self;
    }
}
