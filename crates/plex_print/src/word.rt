// One word at the end of a text.
ghost use Rattle.std.specs.Prelude.{◌≡◌, IfOk};
ghost use Rattle.plex_print.specs.PrintedExpressions.{level_text, name_text, number_text};
ghost use Rattle.plex_print.specs.Writing.{say, semi};

use plex_ast::{Leveled, Named, Numbered};
use plex_num::{Level, Memory, Seq, print_number};

/// Appends a word, and a blank that parts it from the next.
#[tactic(auto, unfolding(crate::specs::Writing::say), using(crate::proofs::Words::said))]
pub fn word(text: &mut Seq<u8>, bytes: &[u8]) -> Result<(), Memory>
    ensures { IfOk result (λ _. text.new ≡ say bytes.now text.old) }
{
    text.append(bytes)?;
    text.append(b" ")
}

/// Appends a semicolon, and an LF.
#[tactic(auto, unfolding(crate::specs::Writing::semi))]
pub fn end(text: &mut Seq<u8>) -> Result<(), Memory>
    ensures { IfOk result (λ _. text.new ≡ semi text.old) }
{
    text.append(b";\n")
}

pub fn name(text: &mut Seq<u8>, name: &Named) -> Result<(), Memory>
    ensures { IfOk result (λ _. text.new ≡ name_text name.now text.old) }
{
    word(text, name.name.as_slice())
}

/// Appends a number in decimal digits.
#[tactic(auto, unfolding(crate::specs::Writing::say), using(crate::proofs::Words::said))]
pub fn number(text: &mut Seq<u8>, number: &Numbered) -> Result<(), Memory>
    ensures { IfOk result (λ _. text.new ≡ number_text number.now text.old) }
{
    print_number(u64::from(number.value), text)?;
    text.append(b" ")
}

/// Appends the name of a job buffer.
pub fn level(text: &mut Seq<u8>, level: &Leveled) -> Result<(), Memory>
    ensures { IfOk result (λ _. text.new ≡ level_text level.now text.old) }
{
    match level.level {
        Level::A => word(text, b"A"),
        Level::B => word(text, b"B"),
        Level::C => word(text, b"C"),
        Level::D => word(text, b"D"),
    }
}
