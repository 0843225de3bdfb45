// The lines of variables, of fields and of pairs.
ghost use Rattle.std.specs.Prelude.{◌≡◌, ◌++◌, map, IfOk, OnOk};
ghost use Rattle.analysis_text.specs.Lines.{text_of, written};
ghost use Rattle.entry_additions.specs.Added.{targets};
ghost use Rattle.additions_text.specs.Lines.{adding_text as text_of_adding, adds_text, always_text};
ghost use Rattle.additions_text.specs.Lines.{field_line, never_text, test_line, tests_text};
ghost use Rattle.additions_text.specs.Lines.{told_text as text_of_told, variable_line};

use addition_pairs::Told;
use analysis_text::{Names, add_conflict, add_pair_words, add_test, name_at};
use conflicts_meaning::EntryPair;
use entry_additions::Added;
use pair_tests::{Conflict, Test};
use plex_num::{Memory, Seq, add_number};
use std::alloc::Global;

/// A line for each of these variables, and then for each of these fields.
pub(crate) fn adds_lines(
    alloc: Global,
    names: &Names,
    entry: usize,
    added: &Added,
) -> Result<Seq<u8>, Memory>
    ensures { IfOk result (λ text. text ≡ adds_text names.now entry (targets added.now)) }
{
    let mut text = Seq::new(alloc);
    add_variables(&mut text, names, entry, added.variables.as_slice())?;
    add_fields(&mut text, names, entry, added.fields.as_slice())?;
    Ok(text)
}

fn add_variables(
    text: &mut Seq<u8>,
    names: &Names,
    entry: usize,
    numbers: &[u32],
) -> Result<(), Memory>
    ensures { OnOk result
        (text.new ≡ text.old ++ text_of (map (variable_line names.now entry) numbers.now)) }
{
    for number in numbers {
        add_variable(text, names, entry, *number)?;
    }
    Ok(())
}

fn add_fields(
    text: &mut Seq<u8>,
    names: &Names,
    entry: usize,
    numbers: &[u32],
) -> Result<(), Memory>
    ensures { OnOk result
        (text.new ≡ text.old ++ text_of (map (field_line names.now entry) numbers.now)) }
{
    for number in numbers {
        add_field(text, names, entry, *number)?;
    }
    Ok(())
}

/// `ADDS e VAR` and the variable.
fn add_variable(text: &mut Seq<u8>, names: &Names, entry: usize, number: u32) -> Result<(), Memory>
    ensures { OnOk result (text.new ≡ text.old ++ written (variable_line names.now entry number)) }
{
    add_number(text, b"ADDS ", entry as u64)?;
    text.append(b" VAR ")?;
    text.append(name_at(&names.variables, number))?;
    text.append(b"\n")
}

/// `ADDS e FIELD` and the field.
fn add_field(text: &mut Seq<u8>, names: &Names, entry: usize, number: u32) -> Result<(), Memory>
    ensures { OnOk result (text.new ≡ text.old ++ written (field_line names.now entry number)) }
{
    add_number(text, b"ADDS ", entry as u64)?;
    text.append(b" FIELD ")?;
    text.append(name_at(&names.fields, number))?;
    text.append(b"\n")
}

/// The lines of a pair's verdict with additions; empty if the verdict is the same without.
pub(crate) fn adding_text(
    alloc: Global,
    names: &Names,
    pair: EntryPair,
    told: &Option<Told>,
) -> Result<Seq<u8>, Memory>
    ensures { IfOk result (λ text. text ≡ text_of_adding names.now pair told.now) }
{
    match told {
        None => Ok(Seq::new(alloc)),
        Some(told) => told_lines(alloc, names, pair, told),
    }
}

fn told_lines(alloc: Global, names: &Names, pair: EntryPair, told: &Told) -> Result<Seq<u8>, Memory>
    ensures { IfOk result (λ text. text ≡ text_of_told names.now pair told.now) }
{
    match told {
        Told::Never(conflict) => never_line(alloc, names, pair, *conflict),
        Told::Asks(tests) => tests_lines(alloc, names, pair, tests.as_slice()),
    }
}

/// `PAIR i j ADDING NEVER` and the conflict.
fn never_line(
    alloc: Global,
    names: &Names,
    pair: EntryPair,
    conflict: Conflict,
) -> Result<Seq<u8>, Memory>
    ensures { IfOk result (λ text. text ≡ never_text names.now pair conflict) }
{
    let mut text = Seq::new(alloc);
    add_pair_words(&mut text, pair.first, pair.later)?;
    text.append(b" ADDING NEVER ")?;
    add_conflict(&mut text, names, conflict)?;
    text.append(b"\n")?;
    Ok(text)
}

/// A line for each test; if there is none, the line that says that jobs always pass.
#[tactic(auto, using(crate::proofs::Lining::always_told, crate::proofs::Lining::tests_told))]
fn tests_lines(
    alloc: Global,
    names: &Names,
    pair: EntryPair,
    tests: &[Test],
) -> Result<Seq<u8>, Memory>
    ensures { IfOk result (λ text. text ≡ tests_text names.now pair tests.now) }
{
    if tests.len() == 0 {
        return always_line(alloc, pair);
    }
    some_lines(alloc, names, pair, tests)
}

/// `PAIR i j ADDING ALWAYS`.
fn always_line(alloc: Global, pair: EntryPair) -> Result<Seq<u8>, Memory>
    ensures { IfOk result (λ text. text ≡ always_text pair) }
{
    let mut text = Seq::new(alloc);
    add_pair_words(&mut text, pair.first, pair.later)?;
    text.append(b" ADDING ALWAYS")?;
    text.append(b"\n")?;
    Ok(text)
}

fn some_lines(
    alloc: Global,
    names: &Names,
    pair: EntryPair,
    tests: &[Test],
) -> Result<Seq<u8>, Memory>
    ensures { IfOk result (λ text. text ≡ text_of (map (test_line names.now pair) tests.now)) }
{
    let mut text = Seq::new(alloc);
    add_tests(&mut text, names, pair, tests)?;
    Ok(text)
}

fn add_tests(
    text: &mut Seq<u8>,
    names: &Names,
    pair: EntryPair,
    tests: &[Test],
) -> Result<(), Memory>
    ensures { OnOk result
        (text.new ≡ text.old ++ text_of (map (test_line names.now pair) tests.now)) }
{
    for test in tests {
        add_if(text, names, pair, *test)?;
    }
    Ok(())
}

/// `PAIR i j ADDING IF` and the test.
fn add_if(text: &mut Seq<u8>, names: &Names, pair: EntryPair, test: Test) -> Result<(), Memory>
    ensures { OnOk result (text.new ≡ text.old ++ written (test_line names.now pair test)) }
{
    add_pair_words(text, pair.first, pair.later)?;
    text.append(b" ADDING IF ")?;
    add_test(text, names, test)?;
    text.append(b"\n")
}
