// Blocks, whose brackets nest at most `room` deep and whose statements hold statements at most
// `deep` deep.
ghost use Rattle.std.specs.Prelude.{◌≡◌, IfOk};
ghost use Rattle.plex_print.specs.Printed.{block_text, declare_text, decl_text, item_text};
ghost use Rattle.plex_print.specs.Printed.{program_text, survey_text, surveyed_text};
ghost use Rattle.plex_print.specs.Writing.{each_of};

use crate::declaration::decl;
use crate::lists::some_names;
use crate::nested::stmt;
use crate::word::{end, name, word};
use plex_ast::{Block, Decl, Item, ItemKind, Survey, SurveyKind};
use plex_num::{Memory, Seq};

/// Appends a block.
#[tactic(auto, unfolding(crate::specs::Printed::block_text))]
pub fn block(text: &mut Seq<u8>, block: &Block, room: usize, deep: usize) -> Result<(), Memory>
    ensures { IfOk result (λ _. text.new ≡ block_text room deep block.now text.old) }
{
    word(text, b"BLOCK")?;
    name(text, &block.name)?;
    end(text)?;
    declared(text, block.decls.as_slice())?;
    surveyed(text, block.surveys.as_slice())?;
    program(text, block.items.as_slice(), room, deep)?;
    word(text, b"END")?;
    word(text, b"BLOCK")?;
    end(text)
}

/// `DECLARE ; { decl }`
#[tactic(auto, unfolding(crate::specs::Printed::declare_text))]
fn declared(text: &mut Seq<u8>, list: &[Decl]) -> Result<(), Memory>
    ensures { IfOk result (λ _. text.new ≡ declare_text list.now text.old) }
{
    word(text, b"DECLARE")?;
    end(text)?;
    decls(text, list)
}

fn decls(text: &mut Seq<u8>, list: &[Decl]) -> Result<(), Memory>
    ensures { IfOk result (λ _. text.new ≡ each_of decl_text list.now text.old) }
{
    let mut rest = list;
    'decls: while let Some((next, left)) = rest.split_first() {
        decl(text, next)?;
        rest = left;
    }
    Ok(())
}

/// `SURVEY ; { survey }`
#[tactic(auto, unfolding(crate::specs::Printed::surveyed_text))]
fn surveyed(text: &mut Seq<u8>, list: &[Survey]) -> Result<(), Memory>
    ensures { IfOk result (λ _. text.new ≡ surveyed_text list.now text.old) }
{
    word(text, b"SURVEY")?;
    end(text)?;
    surveys(text, list)
}

fn surveys(text: &mut Seq<u8>, list: &[Survey]) -> Result<(), Memory>
    ensures { IfOk result (λ _. text.new ≡ each_of survey_text list.now text.old) }
{
    let mut rest = list;
    'surveys: while let Some((next, left)) = rest.split_first() {
        survey(text, next)?;
        rest = left;
    }
    Ok(())
}

#[tactic(auto, unfolding(crate::specs::Printed::survey_text))]
fn survey(text: &mut Seq<u8>, survey: &Survey) -> Result<(), Memory>
    ensures { IfOk result (λ _. text.new ≡ survey_text survey.now text.old) }
{
    match &survey.kind {
        SurveyKind::Receive { signal } => {
            word(text, b"RECEIVE")?;
            name(text, signal)?;
            end(text)
        }
        SurveyKind::Send { signal } => {
            word(text, b"SEND")?;
            name(text, signal)?;
            end(text)
        }
    }
}

/// `PROGRAM ; { item }`
#[tactic(auto, unfolding(crate::specs::Printed::program_text))]
fn program(text: &mut Seq<u8>, list: &[Item], room: usize, deep: usize) -> Result<(), Memory>
    ensures { IfOk result (λ _. text.new ≡ program_text room deep list.now text.old) }
{
    word(text, b"PROGRAM")?;
    end(text)?;
    items(text, list, room, deep)
}

fn items(text: &mut Seq<u8>, list: &[Item], room: usize, deep: usize) -> Result<(), Memory>
    ensures { IfOk result (λ _. text.new ≡ each_of (item_text room deep) list.now text.old) }
{
    let mut rest = list;
    'items: while let Some((next, left)) = rest.split_first() {
        item(text, next, room, deep)?;
        rest = left;
    }
    Ok(())
}

#[tactic(auto, unfolding(crate::specs::Printed::item_text))]
fn item(text: &mut Seq<u8>, item: &Item, room: usize, deep: usize) -> Result<(), Memory>
    ensures { IfOk result (λ _. text.new ≡ item_text room deep item.now text.old) }
{
    match &item.kind {
        ItemKind::Label { name: label } => {
            name(text, label)?;
            word(text, b")")
        }
        ItemKind::Enter { signal, names } => {
            word(text, b"ENTER")?;
            name(text, signal)?;
            some_names(text, names)?;
            end(text)
        }
        ItemKind::Stmt(step) => stmt(text, step, room, deep),
    }
}
