// Numerals: decimal digits with no leading zero.
ghost use Rattle.std.specs.Prelude.{◌≡◌, ◌≢◌, ◌<◌, ◌^◌, ℕ, MatchOption};
ghost use Rattle.std.specs.Char.{is_ascii_digit};
ghost use Rattle.std.specs.Fmt.{decimal};
ghost use Rattle.std.specs.List.{list_all};
ghost use Rattle.text_lines.specs.Numerals.{begins_rightly, is_numeral};

use plex_num::read_number;

/// The number below 2^32 whose decimal digits a word is; `None` for every other word.
#[tactic(auto, using(crate::proofs::Numerals::numerals_told))]
pub fn numeral(word: &[u8]) -> Option<u32>
    ensures { MatchOption result
        ((n : ℕ) → n < 2 ^ 32 → word.now ≢ decimal n)
        (λ n. (n < 2 ^ 32) × (word.now ≡ decimal n)) }
{
    if begins_rightly(word) {
        read_number(word)
    } else {
        None
    }
}

/// Whether a word is a numeral, of whatever length.
#[tactic(auto, unfolding(crate::specs::Numerals::is_numeral))]
pub fn is_numeral(word: &[u8]) -> bool
    ensures { result ≡ is_numeral word.now }
{
    begins_rightly(word) && all_digits(word)
}

fn all_digits(word: &[u8]) -> bool
    ensures { result ≡ list_all is_ascii_digit word.now }
{
    word.iter().all(|byte| byte.is_ascii_digit())
}

/// Whether the first digit may stand there.
fn begins_rightly(word: &[u8]) -> bool
    ensures { result ≡ begins_rightly word.now }
{
    match word {
        [] => false,
        [_] => true,
        [first, ..] => *first != b'0',
    }
}
