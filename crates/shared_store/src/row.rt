// How the cells of a store lie in its table: in a store of few cells each stands on a line of its
// own.
ghost use Rattle.std.specs.Prelude.{◌≡◌, ℕ, ◌<◌, ◌^◌, ◌∷◌, ◌++◌, flat_map, slice_index, IfOk};
ghost use Rattle.shared_store.specs.Places.{line};

use std::alloc::{AllocError, Global};

/// The words in a line of memory, which is what processors pass to one another.
const LINE_WORDS: usize = 8;

/// The cells of the largest store in which each stands on a line of its own.
const MOST_APART: usize = 4_096;

/// How many words stay free behind each of so many cells: the rest of a line, or none where there
/// are many cells.
pub(crate) fn free_words(cells: usize) -> usize
    ensures { result < 8 }
{
    if cells <= MOST_APART {
        LINE_WORDS - 1
    } else {
        0
    }
}

/// The words of the table: a 0, and then the words of the cells, each with so many free words
/// behind it, which are 0.
pub(crate) fn table_row(alloc: Global, words: &[u32], free: usize) -> Result<Vec<u64>, AllocError>
    ensures items { IfOk result (λ row. row.items ≡ flat_map (line free) (0 ∷ words.now)) }
    ensures fit { IfOk result (λ row. (k : ℕ) → slice_index words.now k < 2 ^ 32) }
{
    let zeros = Vec::from_elem(alloc, 0, free)?;
    let room = (words.len() + 1).saturating_mul(free.saturating_add(1));
    let mut row = Vec::with_capacity(alloc, room)?;
    push_word(&mut row, 0, zeros.as_slice())?;
    for word in words {
        push_word(&mut row, *word as u64, zeros.as_slice())?;
    }
    Ok(row)
}

/// A word more in the row, and these behind it.
fn push_word(row: &mut Vec<u64>, word: u64, behind: &[u64]) -> Result<(), AllocError>
    ensures { IfOk result (λ _. row.new.items ≡ row.old.items ++ word ∷ behind.now) }
{
    row.push(word)?;
    for next in behind {
        row.push(*next)?;
    }
    Ok(())
}
