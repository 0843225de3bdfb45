// One line as text.
ghost use Rattle.std.specs.Prelude.{◌≡◌, ◌++◌, OnOk, map};
ghost use Rattle.std.specs.Fmt.{decimal};
ghost use Rattle.std.specs.List.{flat_map};
ghost use Rattle.name_tables.specs.Names.{operation_names};
ghost use Rattle.name_tables.specs.Rows.{names_of};
ghost use Rattle.listing.specs.Listing.{spaced, spoken};
ghost use Rattle.listing.specs.Rows.{name_at, row_line};
ghost use Rattle.text_lines.specs.Lines.{ended};

use name_tables::{Row, name_of};
use plex_num::{Memory, Seq, print_number};

/// Appends a line with the name at a place of the table.
#[tactic(auto, unfolding(crate::specs::Rows::row_line))]
pub fn add_row(
    text: &mut Seq<u8>,
    table: &[Row; 38],
    place: usize,
    numbers: &[u64],
) -> Result<(), Memory>
    requires { names_of table.now ≡ operation_names }
    ensures { OnOk result (text.new ≡ text.old ++ row_line place numbers.now) }
{
    add_line(text, name_at(table, place), numbers)
}

/// The name at a place of the table; none past its end.
#[tactic(auto, using(crate::proofs::Table::name_there, crate::proofs::Table::name_past))]
fn name_at(table: &[Row; 38], place: usize) -> &[u8]
    requires { names_of table.now ≡ operation_names }
    ensures { result.now ≡ name_at place }
{
    match name_of(table, place) {
        Some(name) => name,
        None => b"",
    }
}

/// Appends a line of a name and numbers after it.
pub fn add_line(text: &mut Seq<u8>, name: &[u8], numbers: &[u64]) -> Result<(), Memory>
    ensures { OnOk result
        (text.new ≡ text.old ++ ended (spoken name.now (map decimal numbers.now))) }
{
    text.append(name)?;
    add_numbers(text, numbers)?;
    text.append(b"\n")?;
    Ok(())
}

/// Appends each number behind a space.
fn add_numbers(text: &mut Seq<u8>, numbers: &[u64]) -> Result<(), Memory>
    ensures { OnOk result (text.new ≡ text.old ++ flat_map spaced (map decimal numbers.now)) }
{
    for number in numbers {
        add_number(text, *number)?;
    }
    Ok(())
}

fn add_number(text: &mut Seq<u8>, number: u64) -> Result<(), Memory>
    ensures { OnOk result (text.new ≡ text.old ++ spaced (decimal number)) }
{
    text.append(b" ")?;
    print_number(number, text)
}
