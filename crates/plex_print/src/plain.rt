// Statements that hold none, whose brackets nest at most `room` deep: what nests deeper is left
// out.
ghost use Rattle.std.specs.Prelude.{◌≡◌, IfOk};
ghost use Rattle.plex_print.specs.Printed.{assign_text, exit_text, for_first_text, free_text};
ghost use Rattle.plex_print.specs.Printed.{if_goto_text, retrieve_text, return_text, seize_text};
ghost use Rattle.plex_print.specs.Printed.{send_text, set_field_text, to_label_text, transfer_text};
ghost use Rattle.plex_print.specs.Writing.{flag_of, say, ◌▷◌};
ghost use Rattle.std.specs.Prelude.{codes};

use crate::condition::{cond, rel};
use crate::expression::expr;
use crate::lists::{some_exprs, some_names, some_reference};
use crate::word::{end, name, word};
use plex_ast::{Boxed, Cond, Expr, Exprs, Named, Names, Reference, Rel};
use plex_num::{Memory, Seq};

/// `name = expr ;`
#[tactic(auto, unfolding(crate::specs::Printed::assign_text))]
pub fn assign(text: &mut Seq<u8>, target: &Named, value: &Expr, room: usize) -> Result<(), Memory>
    ensures { IfOk result (λ _. text.new ≡ assign_text room target.now value.now text.old) }
{
    name(text, target)?;
    word(text, b"=")?;
    expr(text, value, room)?;
    end(text)
}

/// `name ( name ) = expr ;`
#[tactic(auto, unfolding(crate::specs::Printed::set_field_text))]
pub fn set_field(
    text: &mut Seq<u8>,
    field: &Named,
    pointer: &Named,
    value: &Expr,
    room: usize,
) -> Result<(), Memory>
    ensures { IfOk result (λ _. text.new ≡ set_field_text room field.now pointer.now value.now
        text.old) }
{
    name(text, field)?;
    word(text, b"(")?;
    name(text, pointer)?;
    word(text, b")")?;
    word(text, b"=")?;
    expr(text, value, room)?;
    end(text)
}

/// `GOTO name ;`
#[tactic(auto, unfolding(crate::specs::Printed::to_label_text))]
pub fn to_label(text: &mut Seq<u8>, label: &Named) -> Result<(), Memory>
    ensures { IfOk result (λ _. text.new ≡ to_label_text label.now text.old) }
{
    word(text, b"GOTO")?;
    name(text, label)?;
    end(text)
}

/// `IF cond GOTO name ;`
#[tactic(auto, unfolding(crate::specs::Printed::if_goto_text))]
pub fn if_goto(text: &mut Seq<u8>, test: &Cond, label: &Named, room: usize) -> Result<(), Memory>
    ensures { IfOk result (λ _. text.new ≡ if_goto_text room test.now label.now text.old) }
{
    word(text, b"IF")?;
    cond(text, test, room)?;
    to_label(text, label)
}

/// What a record is searched for by: a field of it stands in this relation to a value.
#[derive(Clone, Copy)]
pub struct Search<'a> {
    pub field: &'a Named,
    pub relation: &'a Rel,
    pub value: &'a Expr,
}

/// `FOR FIRST name IN name WHERE name rel expr GOTO name ;`
#[tactic(auto, unfolding(crate::specs::Printed::for_first_text))]
pub fn for_first(
    text: &mut Seq<u8>,
    pointer: &Named,
    file: &Named,
    search: &Search<'_>,
    label: &Named,
    room: usize,
) -> Result<(), Memory>
    ensures { IfOk result (λ _. text.new ≡ for_first_text room pointer.now file.now
        search.now.field.now search.now.relation.now search.now.value.now label.now text.old) }
{
    word(text, b"FOR")?;
    word(text, b"FIRST")?;
    name(text, pointer)?;
    word(text, b"IN")?;
    name(text, file)?;
    word(text, b"WHERE")?;
    name(text, search.field)?;
    rel(text, search.relation)?;
    expr(text, search.value, room)?;
    to_label(text, label)
}

/// `SEND name [ ref ] [ exprs ] [ NEW FORLOPP ] ;`
#[tactic(auto, unfolding(crate::specs::Printed::send_text))]
pub fn send(
    text: &mut Seq<u8>,
    signal: &Named,
    receiver: &Option<Boxed<Reference>>,
    values: &Option<Boxed<Exprs>>,
    fresh: bool,
    room: usize,
) -> Result<(), Memory>
    ensures { IfOk result (λ _. text.new ≡ send_text room signal.now receiver.now values.now fresh
        text.old) }
{
    word(text, b"SEND")?;
    name(text, signal)?;
    some_reference(text, receiver)?;
    some_exprs(text, values, room)?;
    new_forlopp(text, fresh)?;
    end(text)
}

fn new_forlopp(text: &mut Seq<u8>, fresh: bool) -> Result<(), Memory>
    ensures { IfOk result (λ _. text.new ≡ flag_of (say (codes "NEW") ▷ say (codes "FORLOPP"))
        fresh text.old) }
{
    if fresh {
        word(text, b"NEW")?;
        word(text, b"FORLOPP")
    } else {
        Ok(())
    }
}

/// `RETRIEVE name [ names ] ;`
#[tactic(auto, unfolding(crate::specs::Printed::retrieve_text))]
pub fn retrieve(
    text: &mut Seq<u8>,
    signal: &Named,
    names: &Option<Boxed<Names>>,
) -> Result<(), Memory>
    ensures { IfOk result (λ _. text.new ≡ retrieve_text signal.now names.now text.old) }
{
    word(text, b"RETRIEVE")?;
    name(text, signal)?;
    some_names(text, names)?;
    end(text)
}

/// `RETURN name [ exprs ] ;`
#[tactic(auto, unfolding(crate::specs::Printed::return_text))]
pub fn return_of(
    text: &mut Seq<u8>,
    signal: &Named,
    values: &Option<Boxed<Exprs>>,
    room: usize,
) -> Result<(), Memory>
    ensures { IfOk result (λ _. text.new ≡ return_text room signal.now values.now text.old) }
{
    word(text, b"RETURN")?;
    name(text, signal)?;
    some_exprs(text, values, room)?;
    end(text)
}

/// `TRANSFER name [ ref ] ;`
#[tactic(auto, unfolding(crate::specs::Printed::transfer_text))]
pub fn transfer(
    text: &mut Seq<u8>,
    signal: &Named,
    receiver: &Option<Boxed<Reference>>,
) -> Result<(), Memory>
    ensures { IfOk result (λ _. text.new ≡ transfer_text signal.now receiver.now text.old) }
{
    word(text, b"TRANSFER")?;
    name(text, signal)?;
    some_reference(text, receiver)?;
    end(text)
}

/// `SEIZE name IN name ELSE GOTO name ;`
#[tactic(auto, unfolding(crate::specs::Printed::seize_text))]
pub fn seize(text: &mut Seq<u8>, pointer: &Named, file: &Named, label: &Named) -> Result<(), Memory>
    ensures { IfOk result (λ _. text.new ≡ seize_text pointer.now file.now label.now text.old) }
{
    word(text, b"SEIZE")?;
    name(text, pointer)?;
    word(text, b"IN")?;
    name(text, file)?;
    word(text, b"ELSE")?;
    to_label(text, label)
}

/// `FREE name IN name ;`
#[tactic(auto, unfolding(crate::specs::Printed::free_text))]
pub fn free(text: &mut Seq<u8>, pointer: &Named, file: &Named) -> Result<(), Memory>
    ensures { IfOk result (λ _. text.new ≡ free_text pointer.now file.now text.old) }
{
    word(text, b"FREE")?;
    name(text, pointer)?;
    word(text, b"IN")?;
    name(text, file)?;
    end(text)
}

/// `EXIT ;`
#[tactic(auto, unfolding(crate::specs::Printed::exit_text))]
pub fn exit(text: &mut Seq<u8>) -> Result<(), Memory>
    ensures { IfOk result (λ _. text.new ≡ exit_text text.old) }
{
    word(text, b"EXIT")?;
    end(text)
}
