// What the types of numbers say of an exchange and of a code: that each is of 32 bits.
ghost use Rattle.std.specs.Prelude.{◌≤◌, ◌^◌, All, length};
ghost use Rattle.source_meaning.specs.Config.{files_of};
ghost use Rattle.stmt_code.specs.Numbers.{AreBelow, AreNumbers, IsBelow};

use exchange_model::{Exchange, File};
use machine_code::{Code, Op};
use plex_num::Seq;

/// Says that an exchange has no more than 2^32 files, since each has its number. It looks at each
/// file once.
pub fn files_are_numbered(exchange: &Exchange)
    ensures { length (files_of exchange.now) ≤ 2 ^ 32 }
{
    exchange.kept();
    blocks_are_numbered(exchange);
}

/// The files of each block have numbers of 32 bits.
fn blocks_are_numbered(exchange: &Exchange)
    ensures { All (AreBelow (2 ^ 32)) exchange.now.blocks }
{
    for block in exchange.blocks.as_slice() {
        each_is_numbered(&block.files);
    }
}

/// Each of these files has a number of 32 bits.
fn each_is_numbered(files: &Seq<File>)
    ensures { All (IsBelow (2 ^ 32)) files.now }
{
    for file in files.as_slice() {
        is_numbered(file);
    }
}

/// The number of a file is of 32 bits.
fn is_numbered(file: &File)
    ensures { IsBelow (2 ^ 32) file.now }
{
    let _number = file.number;
}

/// Says that the numbers of each instruction are of 32 bits. It looks at each instruction once.
pub fn numbers_are_words(code: &Code)
    ensures { All AreNumbers code.now.ops }
{
    for op in code.ops() {
        are_words(*op);
    }
}

/// The numbers of an instruction are of 32 bits.
fn are_words(op: Op)
    ensures { AreNumbers op }
{
    let _ = op;
}
