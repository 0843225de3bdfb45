// The files of an exchange, and the cells of their records.
ghost use Rattle.std.specs.Prelude.{◌≡◌, ◌+◌, ◌*◌, ◌<◌, ◌≤◌, length, nat_eq, IfSome, slice_get};
ghost use Rattle.std.specs.Prelude.{slice_index};
ghost use Rattle.exchange_model.specs.Cells.{record_cells, field_cell, mark_cell};
ghost use Rattle.source_meaning.specs.Value.{pointer_fault, stands as stand};
ghost use Rattle.source_interpreter.specs.Checks.{unless};
ghost use Rattle.job_types.specs.Chain.{holds as has_record};
ghost use Rattle.source_meaning.specs.Config.{files_of};
ghost use Rattle.source_meaning.specs.Changes.{field_width, least_record};
ghost use Rattle.source_interpreter.specs.Opened.{opened};

use crate::words::{put_cell, value_at};
use exchange_model::{Exchange, File, FilePlace, Rel};
use job_types::{Fault, Held};
use plex_limits::MOST_CELLS;
use plex_num::Seq;
use std::marker::Model;

/// A file, its block, and the cell at which its records begin.
#[derive(Drop)]
pub struct Place<'a> {
    block: u32,
    file: &'a File,
    first: u32,
}

impl<'a> Model for Place<'a> {
    ghost use Rattle.std.specs.Prelude.{◌+◌, ◌≤◌};
    ghost use Rattle.plex_limits.specs.declared.limits.TheConstants.{MOST_CELLS};
    ghost use Rattle.exchange_model.specs.Cells.{Placed, file_cells};

    ghost Value = { Placed };

    ghost view = { λ p. record { block = p.block; file = p.file.now; first = p.first } };

    ghost invariant = { λ p. p.first + file_cells p.file.now ≤ MOST_CELLS };
}

impl<'a> Place<'a> {
    /// The width of a field.
    pub fn width(&self, field: u32) -> u8
        ensures { result ≡ field_width self.now field }
    {
        self.file
            .fields
            .get(field as usize)
            .map_or(0, |field| field.width)
    }

    /// The cell of a field of a record.
    pub fn field_cell(&self, number: u32, field: u32) -> usize
        requires { number < self.now.file.size }
        ensures { result ≡ field_cell self.now number field }
    {
        self.record_start(number) + field as usize
    }

    /// The cell of a record's mark, which follows its fields.
    pub fn mark_cell(&self, number: u32) -> usize
        requires { number < self.now.file.size }
        ensures { result ≡ mark_cell self.now number }
    {
        self.record_start(number) + self.file.fields.len()
    }

    // The cell at which a record begins, which ends before the last cell.
    #[tactic(auto, using(crate::proofs::Places::record_ends))]
    fn record_start(&self, number: u32) -> usize
        requires { number < self.now.file.size }
        ensures start { result ≡ self.now.first + number * record_cells self.now.file }
        ensures within { result + length self.now.file.fields ≤ MOST_CELLS }
    {
        let cells = self.file.fields.len() + usize::from(self.file.forlopp);
        self.first as usize + number as usize * cells
    }

    /// The least record whose field stands so to a value.
    #[tactic(auto, using(crate::proofs::Searching::finds))]
    pub fn first_where(&self, store: &[u32], field: u32, rel: Rel, value: u32) -> Option<u32>
        ensures first { result ≡ least_record
            (λ n. stand rel (slice_index store.now (field_cell self.now n field)) value)
            self.now.file.size }
        ensures within { IfSome result (λ n. n < self.now.file.size) }
    {
        for number in 0..self.file.size {
            if rel.holds(value_at(store, self.field_cell(number, field)), value) {
                return Some(number);
            }
        }
        None
    }

    /// The least record whose mark says that it is free.
    #[tactic(auto, using(crate::proofs::Searching::finds))]
    pub fn first_free(&self, store: &[u32]) -> Option<u32>
        ensures first { result ≡ least_record
            (λ n. nat_eq (slice_index store.now (mark_cell self.now n)) 0)
            self.now.file.size }
        ensures within { IfSome result (λ n. n < self.now.file.size) }
    {
        for number in 0..self.file.size {
            if value_at(store, self.mark_cell(number)) == 0 {
                return Some(number);
            }
        }
        None
    }

    /// A record gets its INIT values, and is marked free.
    #[tactic(auto, using(crate::proofs::Searching::opened_more))]
    pub fn open(&self, store: &mut Seq<u32>, number: u32)
        requires { number < self.now.file.size }
        ensures { store.new ≡ opened self.now number store.old }
    {
        let start = self.record_start(number);
        for (place, field) in self.file.fields.as_slice().iter().enumerate() {
            put_cell(store, start + place, field.init);
        }
        put_cell(store, self.mark_cell(number), 0);
    }
}

/// The file of this number, if there is one.
#[tactic(auto, using(crate::proofs::Places::place_found, crate::proofs::Places::no_place))]
pub fn place_of(exchange: &Exchange, number: u32) -> Option<Place<'_>>
    ensures { result ≡ slice_get (files_of exchange.now) number }
{
    exchange.kept();
    match exchange.file(number) {
        Some(FilePlace { block, file, first }) => Some(Place { block, file, first }),
        None => None,
    }
}

/// Looks for what is wrong with a pointer to a record.
pub fn check_pointer(chain: &[Held], file: u32, place: &Place, number: u32) -> Result<(), Fault>
    ensures { result ≡ unless (pointer_fault chain.now file place.now number) }
{
    if number >= place.file.size {
        Err(Fault::Pointer)
    } else if place.file.forlopp && !holds(chain, file, number) {
        Err(Fault::NotOwn)
    } else {
        Ok(())
    }
}

// Whether a chain has a record.
fn holds(chain: &[Held], file: u32, number: u32) -> bool
    ensures { result ≡ has_record chain.now file number }
{
    chain
        .iter()
        .any(|held| held.file == file && held.number == number)
}
