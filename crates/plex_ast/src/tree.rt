// Exchanges and signals.
use crate::block::Block;
use plex_num::Seq;
use token_grammar::{Leveled, Named, Numbered};

/// `exchange = { signal } { block }`; its line is 1 where it is empty.
pub struct Tree {
    pub line: u32,
    pub signals: Seq<Signal>,
    pub blocks: Seq<Block>,
}

impl Drop for Tree {
    fn drop(self) {
        let Tree {
            line: _,
            signals: _,
            blocks: _,
        } = self;
    }
}

/// `signal = SIGNAL name shape ;`
pub struct Signal {
    pub line: u32,
    pub name: Named,
    pub shape: Shape,
}

impl Drop for Signal {
    fn drop(self) {
        let Signal {
            line: _,
            name: _,
            shape: _,
        } = self;
    }
}

/// `shape`: what kind of signal it is, which its alternatives tell apart.
pub struct Shape {
    pub line: u32,
    pub kind: ShapeKind,
}

impl Drop for Shape {
    fn drop(self) {
        let Shape { line: _, kind: _ } = self;
    }
}

/// The alternatives of `shape`.
#[derive(Drop)]
pub enum ShapeKind {
    /// `SINGLE BUFFERED level DATA number`
    Buffered {
        level: Leveled,
        data: Numbered,
    },
    /// `SINGLE DIRECT DATA number`
    Direct {
        data: Numbered,
    },
    /// `COMBINED DATA number ANSWER name DATA number`
    Combined {
        data: Numbered,
        answer: Named,
        answer_data: Numbered,
    },
    /// `OUTSIDE DATA number`
    Outside {
        data: Numbered,
    },
}
