// A certificate as text.
ghost use Rattle.std.specs.Prelude.{◌≡◌, ◌++◌, ◌∷◌, All, IfOk, OnOk, codes};
ghost use Rattle.std.specs.Fmt.{decimal};
ghost use Rattle.std.specs.List.Sorted.{IsStrictlySortedBy};
ghost use Rattle.certificate_text.specs.Text.{FactFits, certificate_text, fact_line, facts_text};
ghost use Rattle.certificate_text.specs.Text.{head_text, last_text, shape_line, slot_word};
ghost use Rattle.certificate_text.specs.Text.{value_word};
ghost use Rattle.certificate_text.specs.declared.version.Version.TheVariants.{Two};
ghost use Rattle.text_lines.specs.Lines.{ended};
ghost use Rattle.flow_points.specs.Orders.{fact_order};

use crate::certificate::{Certificate, Shape};
use flow_points::{Fact, Slot, Value};
use plex_num::{Memory, Seq, print_number};
use std::alloc::Global;

/// The text of a certificate whose facts rise strictly, with temporaries and places of values in
/// their ranges. It fails only where memory is refused.
pub fn print_certificate(alloc: Global, certificate: &Certificate) -> Result<Seq<u8>, Memory>
    requires fits { All FactFits certificate.now.facts }
    requires rises { IsStrictlySortedBy fact_order certificate.now.facts }
    ensures { IfOk result (λ text. text ≡ certificate_text certificate.now) }
{
    let mut text = Seq::new(alloc);
    print_head(&mut text, certificate.shape)?;
    print_facts(&mut text, certificate.facts.as_slice())?;
    print_end(&mut text)?;
    Ok(text)
}

/// Appends the lines before the facts: of the version and of the shape. With `print_facts` and
/// `print_end` a certificate is written whose facts come some at a time.
pub fn print_head(text: &mut Seq<u8>, shape: Shape) -> Result<(), Memory>
    ensures { OnOk result (text.new ≡ text.old ++ head_text shape) }
{
    text.append(b"PLEX CERTIFICATE 2\n")?;
    add_shape(text, shape)?;
    Ok(())
}

/// Appends the lines of facts.
pub fn print_facts(text: &mut Seq<u8>, facts: &[Fact]) -> Result<(), Memory>
    ensures { OnOk result (text.new ≡ text.old ++ facts_text facts.now) }
{
    for fact in facts {
        print_line(text, *fact)?;
    }
    Ok(())
}

/// Appends the last line, behind all facts.
pub fn print_end(text: &mut Seq<u8>) -> Result<(), Memory>
    ensures { OnOk result (text.new ≡ text.old ++ last_text) }
{
    text.append(b"END CERTIFICATE\n")?;
    Ok(())
}

/// Appends the line of a fact, without its end.
#[tactic(auto, unfolding(crate::specs::Text::fact_line))]
pub fn print_fact(text: &mut Seq<u8>, fact: Fact) -> Result<(), Memory>
    ensures { OnOk result (text.new ≡ text.old ++ fact_line fact) }
{
    add_number(text, b"FACT ", fact.entry)?;
    add_number(text, b" ", fact.point)?;
    add_slot(text, fact.slot)?;
    add_value(text, fact.value)?;
    Ok(())
}

/// Appends the line of a fact, with its end.
fn print_line(text: &mut Seq<u8>, fact: Fact) -> Result<(), Memory>
    ensures { OnOk result (text.new ≡ text.old ++ ended (fact_line fact)) }
{
    print_fact(text, fact)?;
    text.append(b"\n")
}

/// Appends a slot behind a space.
fn add_slot(text: &mut Seq<u8>, slot: Slot) -> Result<(), Memory>
    ensures { OnOk result (text.new ≡ text.old ++ (codes " " ++ slot_word slot)) }
{
    match slot {
        Slot::Temp(temp) => add_number(text, b" T", u32::from(temp)),
        Slot::Given(place) => add_number(text, b" E", u32::from(place)),
        Slot::Answered(place) => add_number(text, b" A", u32::from(place)),
        Slot::Depth => text.append(b" DEPTH"),
        Slot::Awaits => text.append(b" AWAITS"),
    }
}

/// Appends a value behind a space.
fn add_value(text: &mut Seq<u8>, value: Value) -> Result<(), Memory>
    ensures { OnOk result (text.new ≡ text.old ++ (codes " " ++ value_word value)) }
{
    match value {
        Value::Arg(place) => add_number(text, b" ARG ", u32::from(place)),
        Value::Const(number) => add_number(text, b" CONST ", number),
        Value::Any => text.append(b" ANY"),
    }
}

/// Appends the line of a shape.
#[tactic(auto, unfolding(crate::specs::Text::shape_line))]
fn add_shape(text: &mut Seq<u8>, shape: Shape) -> Result<(), Memory>
    ensures { OnOk result (text.new ≡ text.old ++ ended (shape_line Two shape)) }
{
    add_number(text, b"EXCHANGE signals ", shape.signals)?;
    add_number(text, b" blocks ", shape.blocks)?;
    add_number(text, b" points ", shape.points)?;
    add_number(text, b" cells ", shape.cells)?;
    add_number(text, b" entries ", shape.entries)?;
    add_number(text, b" references ", shape.references)?;
    text.append(b"\n")?;
    Ok(())
}

/// Appends a number behind its label.
fn add_number(text: &mut Seq<u8>, label: &[u8], number: u32) -> Result<(), Memory>
    ensures { OnOk result (text.new ≡ text.old ++ (label.now ++ decimal number)) }
{
    text.append(label)?;
    print_number(u64::from(number), text)
}
