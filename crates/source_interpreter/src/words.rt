// Lists of numbers: what is past an end is 0, and a write there changes nothing.
ghost use Rattle.std.specs.Prelude.{◌≡◌, slice_index, slice_set};

use plex_num::Seq;

/// The value at a place, and 0 past the end.
pub fn value_at(numbers: &[u32], i: usize) -> u32
    ensures { result ≡ slice_index numbers.now i }
{
    if i < numbers.len() { numbers[i] } else { 0 }
}

/// Writes a number at a place, which changes nothing past the end.
pub fn put(numbers: &mut [u32], i: usize, value: u32)
    ensures { numbers.new ≡ slice_set numbers.old i value }
{
    if i < numbers.len() {
        numbers[i] = value;
    }
}

/// Writes a word of the store, which changes nothing past its end.
pub fn put_cell(store: &mut Seq<u32>, cell: usize, value: u32)
    ensures { store.new ≡ slice_set store.old cell value }
{
    if cell < store.len() {
        store.set(cell, value);
    }
}
