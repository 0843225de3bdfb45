// Ordered lists of numbers.
ghost use Rattle.std.specs.Prelude.{◌↔◌, IsTrue};
ghost use Rattle.std.specs.List.{Contains};
ghost use Rattle.std.specs.List.Sorted.{IsStrictlySortedBy};
ghost use Rattle.std.specs.Ordering.{nat_cmp};
ghost use Rattle.fact_rows.specs.Numbers.{AreNumbers};

use plex_num::Seq;

/// Sorts the numbers and removes duplicates.
pub(crate) fn in_order(numbers: Seq<u32>) -> Seq<u32>
    ensures { AreNumbers (Contains numbers) result }
{
    let mut sorted = numbers.into_vec();
    sorted.sort_unstable();
    sorted.dedup();
    Seq::from_vec(sorted)
}

/// Whether a number is among these, which must be strictly ascending.
pub fn is_among(numbers: &[u32], number: u32) -> bool
    requires { IsStrictlySortedBy nat_cmp numbers.now }
    ensures { IsTrue result ↔ Contains numbers.now number }
{
    match numbers.binary_search(&number) {
        Ok(_) => true,
        Err(_) => false,
    }
}
