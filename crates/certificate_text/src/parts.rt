// Words and numbers, from the front of a text.
ghost use Rattle.std.specs.Prelude.{◌≡◌, ◌≢◌, ◌++◌, [], ◌<◌, List, MatchOption, ℕ};
ghost use Rattle.certificate_text.specs.Parts.{IsNumbered};

use text_lines::{cut, numeral};

/// What follows a word with which the text begins; `None` where it does not begin so.
pub fn after<'a>(text: &'a [u8], word: &[u8]) -> Option<&'a [u8]>
    ensures { MatchOption result
        ((rest : List ℕ) → text.now ≢ word.now ++ rest)
        (λ r. text.now ≡ word.now ++ r.now) }
{
    text.strip_prefix(word)
}

/// The number behind a label, which ends at a byte below the digits, and what follows that; `None`
/// where the text does not begin so, or the number is not below 2^32 or has a leading zero.
pub fn numbered<'a>(text: &'a [u8], label: &[u8], end: u8) -> Option<(u32, &'a [u8])>
    requires { end < 48 }
    ensures { MatchOption result
        ((n : ℕ) (rest : List ℕ) → IsNumbered label.now n end text.now rest → ⊥)
        (λ r. IsNumbered label.now r.0 end text.now r.1.now) }
{
    let rest = after(text, label)?;
    let (n, rest) = number(rest, end)?;
    Some((n, rest))
}

/// The same of a number that is below this one.
pub fn small<'a>(text: &'a [u8], label: &[u8], below: u8, end: u8) -> Option<(u8, &'a [u8])>
    requires { end < 48 }
    ensures { MatchOption result
        ((n : ℕ) (rest : List ℕ) → n < below → IsNumbered label.now n end text.now rest → ⊥)
        (λ r. (r.0 < below) × IsNumbered label.now r.0 end text.now r.1.now) }
{
    let (n, rest) = numbered(text, label, end)?;
    if n < u32::from(below) {
        Some((n as u8, rest))
    } else {
        None
    }
}

/// The number with which the text begins.
fn number(text: &[u8], end: u8) -> Option<(u32, &[u8])>
    requires { end < 48 }
    ensures { MatchOption result
        ((n : ℕ) (rest : List ℕ) → IsNumbered [] n end text.now rest → ⊥)
        (λ r. IsNumbered [] r.0 end text.now r.1.now) }
{
    let (word, rest) = cut(text, end)?;
    let n = numeral(word)?;
    Some((n, rest))
}
