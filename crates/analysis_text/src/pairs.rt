// The lines of the pairs.
ghost use Rattle.std.specs.Prelude.{◌≡◌, ◌<◌, ◌++◌, OnOk, map, length};
ghost use Rattle.entry_summary.specs.declared.summary.Summary.{Summary};
ghost use Rattle.analysis_text.specs.Lines.{conflict_words, if_line, never_line, pair_words};
ghost use Rattle.analysis_text.specs.Lines.{test_words, text_of, written};
ghost use Rattle.analysis_text.specs.Pairs.{ArePairs, GainsText, IsPairText, IsTextOfFirst};
ghost use Rattle.analysis_text.specs.Telling.{AreTold, TellsPair};

use crate::names::{Names, add_value, level_word, name_at};
use crate::told::{Told, ToldPairs};
use kept_summaries::Summaries;
use pair_tests::{Conflict, Test};
use plex_num::{Memory, Seq, add_number};
use std::alloc::Global;
use text_parts::Text;

/// What is told of each pair.
pub fn add_pairs(
    text: &mut Text,
    alloc: Global,
    names: &Names,
    summaries: &Summaries,
) -> Result<(), Memory>
    ensures { OnOk result (GainsText (ArePairs names.now summaries.now) text.old text.new) }
{
    let mut told = ToldPairs::new(alloc, summaries.len())?;
    for number in 0..summaries.len() {
        let mut end = text.take_end();
        add_row(&mut end, alloc, names, number, summaries, &mut told)?;
        text.put(end)?;
    }
    Ok(())
}

/// What is told of a first with each later one.
fn add_row(
    text: &mut Seq<u8>,
    alloc: Global,
    names: &Names,
    number: usize,
    summaries: &Summaries,
    told: &mut ToldPairs,
) -> Result<(), Memory>
    requires number { number < length summaries.now }
    requires told { AreTold summaries.now told.old.pairs.items }
    ensures row { OnOk result
        (GainsText (IsTextOfFirst names.now summaries.now number) text.old text.new) }
    ensures told { OnOk result (AreTold summaries.now told.new.pairs.items) }
{
    for other in 0..summaries.len() {
        let pair = told.pair(alloc, summaries, number, other)?;
        add_told(text, names, number, other, &pair.told)?;
        told.keep(pair);
    }
    Ok(())
}

/// The lines of a pair, by what is told of it.
#[tactic(auto, using(crate::proofs::Turns::never_told, crate::proofs::Turns::tests_told))]
fn add_told(
    text: &mut Seq<u8>,
    names: &Names,
    number: usize,
    other: usize,
    told: &Told,
) -> Result<(), Memory>
    ensures { OnOk result ((first later : Summary) → TellsPair first later told.now
        → GainsText (IsPairText names.now number other first later) text.old text.new) }
{
    match told {
        Told::Never(conflict) => {
            add_never(text, names, number, other, *conflict)?;
            Ok(())
        }
        Told::Asks(tests) => {
            add_tests(text, names, number, other, tests.as_slice())?;
            Ok(())
        }
    }
}

/// `PAIR i j NEVER` and the conflict.
fn add_never(
    text: &mut Seq<u8>,
    names: &Names,
    number: usize,
    other: usize,
    conflict: Conflict,
) -> Result<(), Memory>
    ensures { OnOk result
        (text.new ≡ text.old ++ written (never_line names.now number other conflict)) }
{
    add_pair_words(text, number, other)?;
    text.append(b" NEVER ")?;
    add_conflict(text, names, conflict)?;
    text.append(b"\n")
}

/// `PAIR i j`.
pub fn add_pair_words(text: &mut Seq<u8>, number: usize, other: usize) -> Result<(), Memory>
    ensures { OnOk result (text.new ≡ text.old ++ pair_words number other) }
{
    add_number(text, b"PAIR ", number as u64)?;
    add_number(text, b" ", other as u64)
}

/// A conflict, as a line NEVER tells it.
pub fn add_conflict(text: &mut Seq<u8>, names: &Names, conflict: Conflict) -> Result<(), Memory>
    ensures { OnOk result (text.new ≡ text.old ++ conflict_words names.now conflict) }
{
    match conflict {
        Conflict::Variable { number } => {
            text.append(b"VARIABLE ")?;
            text.append(name_at(&names.variables, number))
        }
        Conflict::Field {
            number,
            first,
            later,
        } => {
            text.append(b"FIELD ")?;
            text.append(name_at(&names.fields, number))?;
            text.append(b" ")?;
            add_value(text, first)?;
            text.append(b" WITH ")?;
            add_value(text, later)
        }
        Conflict::Seizing { file } => {
            text.append(b"SEIZE ")?;
            text.append(name_at(&names.files, file))
        }
        Conflict::Above { level } => {
            text.append(b"LEVEL ")?;
            text.append(level_word(level))
        }
    }
}

fn add_tests(
    text: &mut Seq<u8>,
    names: &Names,
    number: usize,
    other: usize,
    tests: &[Test],
) -> Result<(), Memory>
    ensures { OnOk result
        (text.new ≡ text.old ++ text_of (map (if_line names.now number other) tests.now)) }
{
    for test in tests {
        add_if(text, names, number, other, *test)?;
    }
    Ok(())
}

/// `PAIR i j IF` and the test.
fn add_if(
    text: &mut Seq<u8>,
    names: &Names,
    number: usize,
    other: usize,
    test: Test,
) -> Result<(), Memory>
    ensures { OnOk result
        (text.new ≡ text.old ++ written (if_line names.now number other test)) }
{
    add_pair_words(text, number, other)?;
    text.append(b" IF ")?;
    add_test(text, names, test)?;
    text.append(b"\n")
}

/// A test, as a line IF tells it.
pub fn add_test(text: &mut Seq<u8>, names: &Names, test: Test) -> Result<(), Memory>
    ensures { OnOk result (text.new ≡ text.old ++ test_words names.now test) }
{
    match test {
        Test::Differ { first, later } => {
            add_number(text, b"FIRST ", u64::from(first))?;
            add_number(text, b" NOT LATER ", u64::from(later))
        }
        Test::FirstNot { first, value } => {
            add_number(text, b"FIRST ", u64::from(first))?;
            add_number(text, b" NOT ", u64::from(value))
        }
        Test::LaterNot { later, value } => {
            add_number(text, b"LATER ", u64::from(later))?;
            add_number(text, b" NOT ", u64::from(value))
        }
        Test::InForlopp => text.append(b"FORLOPP"),
        Test::HoldsNo { file } => {
            text.append(b"FIRST HOLDS NO ")?;
            text.append(name_at(&names.files, file))
        }
    }
}
