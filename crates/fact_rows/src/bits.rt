// Numbers as bits of words, 64 to a word.
ghost use Rattle.std.specs.Prelude.{◌≡◌, ◌⊎◌, ◌↔◌, ◌+◌, ◌*◌, ◌<◌, ◌≤◌, ◌^◌, ◌++◌, ◌∷◌, ◌==◌, []};
ghost use Rattle.std.specs.Prelude.{length, take, drop, OnOk, IsTrue};
ghost use Rattle.std.specs.Bool.{MatchBool};
ghost use Rattle.std.specs.List.{Contains, list_all};
ghost use Rattle.std.specs.Int.{bit_at};
ghost use Rattle.fact_rows.specs.Numbers.{AreNumbers, numbers};

use plex_num::Memory;

/// Sets the bit of a number; true exactly where it was not set.
pub(crate) fn set_bit(words: &mut [u64], i: u32) -> bool
    requires { i < 64 * length words.old }
    ensures numbers { AreNumbers
        (λ n. (n ≡ i) ⊎ Contains (numbers words.old) n) (numbers words.new) }
    ensures added { IsTrue result ↔ (Contains (numbers words.old) i → ⊥) }
    ensures counted { MatchBool result
        (length (numbers words.new) ≡ length (numbers words.old) + 1)
        (numbers words.new ≡ numbers words.old) }
    ensures long { length words.new ≡ length words.old }
{
    let place = i as usize / 64;
    let bit = 1u64 << (i % 64);
    let word = words[place];
    words[place] = word | bit;
    word & bit == 0
}

/// Sets all bits of other words, of which there are as many; true exactly where one of them was not
/// set.
pub(crate) fn join(words: &mut [u64], others: &[u64]) -> bool
    requires { length others.now ≡ length words.old }
    ensures numbers { AreNumbers
        (λ n. Contains (numbers others.now) n ⊎ Contains (numbers words.old) n)
        (numbers words.new) }
    ensures counted { MatchBool result
        (length (numbers words.old) < length (numbers words.new))
        (words.new ≡ words.old) }
    ensures long { length words.new ≡ length words.old }
{
    let mut grown = false;
    for place in 0..words.len() {
        let word = words[place];
        let joined = word | others[place];
        words[place] = joined;
        grown = grown | (joined != word);
    }
    grown
}

/// The words from a place on.
pub(crate) fn from(words: &[u64], n: usize) -> &[u64]
    requires { n ≤ length words.now }
    ensures { result.now ≡ drop n words.now }
{
    &words[n..]
}

/// The words before a place.
pub(crate) fn until(words: &[u64], n: usize) -> &[u64]
    requires { n ≤ length words.now }
    ensures { result.now ≡ take n words.now }
{
    &words[..n]
}

/// Whether these words are the same.
#[tactic(auto, using(crate::proofs::Numbering::same_words))]
pub(crate) fn are_same(words: &[u64], others: &[u64]) -> bool
    ensures { IsTrue result → words.now ≡ others.now }
{
    words == others
}

/// Whether no bit is set.
pub(crate) fn are_zero(words: &[u64]) -> bool
    ensures { IsTrue result ↔ (numbers words.now ≡ []) }
{
    all_zero(words)
}

fn all_zero(words: &[u64]) -> bool
    ensures { result ≡ list_all (λ w. w == 0) words.now }
{
    words.iter().all(|word| *word == 0)
}

/// Whether a bit of a word is set.
pub(crate) fn has_bit(word: u64, bit: u32) -> bool
    requires { bit < 64 }
    ensures { result ≡ (bit_at word bit == 1) }
{
    (word >> bit) & 1 == 1
}

/// Appends an item.
pub(crate) fn append<T: Drop>(list: &mut Vec<T>, item: T) -> Result<(), Memory>
    ensures { OnOk result (list.new.items ≡ list.old.items ++ item ∷ []) }
{
    match list.push(item) {
        Ok(()) => Ok(()),
        Err(_) => Err(Memory),
    }
}
