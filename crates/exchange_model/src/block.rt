ghost use Rattle.std.specs.Prelude.{◌≡◌, ◌<◌, ◌^◌};
ghost use Rattle.exchange_model.specs.Cells.{record_cells, file_cells, block_cells};

use crate::stmt::Stmt;
use plex_num::{Name, Seq};

/// A block: its stored data, and the statements that alone reach it.
pub struct Block {
    pub name: Name,
    pub variables: Seq<Variable>,
    pub temporaries: Seq<Name>,
    pub files: Seq<File>,
    /// The signals that the block may send, by number, in the order in which its survey first names
    /// them.
    pub sends: Seq<u32>,
    pub enters: Seq<Enter>,
    pub labels: Seq<Label>,
    pub body: Seq<Stmt>,
}

impl Drop for Block {
    fn drop(self) {
        let Block {
            name: _,
            variables: _,
            temporaries: _,
            files: _,
            sends: _,
            enters: _,
            labels: _,
            body: _,
        } = self;
    }
}

/// A stored variable, or a field: its width in bits, its value before the first job, and whether a
/// restart gives it that value again, which is so of no field.
#[derive(Drop)]
pub struct Variable {
    pub name: Name,
    pub width: u8,
    pub init: u32,
    pub clear: bool,
}

/// A file: its number through the exchange, and its records, which are numbered from 0. Those of a
/// forlopp file are seized and freed.
pub struct File {
    pub name: Name,
    pub number: u32,
    pub forlopp: bool,
    /// The number of its records.
    pub size: u32,
    pub fields: Seq<Variable>,
}

impl Drop for File {
    fn drop(self) {
        let File {
            name: _,
            number: _,
            forlopp: _,
            size: _,
            fields: _,
        } = self;
    }
}

/// A file of an exchange, with the number of its block and the cell at which its records begin.
#[derive(Clone, Copy)]
pub struct FilePlace<'a> {
    pub block: u32,
    pub file: &'a File,
    pub first: u32,
}

/// A row of a block's signal distribution table: a received signal, by its number, and the place of
/// its ENTER in the body.
#[derive(Clone, Copy, PartialEq, Eq)]
pub struct Enter {
    pub signal: u32,
    pub place: u32,
}

/// A label, and the place in the body of the statement that follows it.
#[derive(Drop)]
pub struct Label {
    pub name: Name,
    pub place: u32,
}

impl File {
    /// How many cells one record has: its fields and, in a forlopp file, its mark. They must be
    /// below 2^32.
    pub fn record_cells(&self) -> u32
        requires { record_cells self.now < 2 ^ 32 }
        ensures { result ≡ record_cells self.now }
    {
        self.fields.len() as u32 + u32::from(self.forlopp)
    }

    /// How many cells all its records have, which must be below 2^32.
    pub fn cells(&self) -> u32
        requires { file_cells self.now < 2 ^ 32 }
        ensures { result ≡ file_cells self.now }
    {
        if self.size == 0 {
            0
        } else {
            self.size * self.record_cells()
        }
    }
}

impl Block {
    /// How many cells its variables and all its files have, which must be below 2^32.
    pub fn cells(&self) -> u32
        requires { block_cells self.now < 2 ^ 32 }
        ensures { result ≡ block_cells self.now }
    {
        let mut cells = self.variables.len() as u32;
        for file in self.files.as_slice() {
            cells += file.cells();
        }
        cells
    }
}
