// Numbers as text: decimal digits without a sign.
ghost use Rattle.std.specs.Prelude.{◌≡◌, ◌≤◌, ◌++◌, length, MatchResult, OnOk};
ghost use Rattle.std.specs.Fmt.{decimal};
ghost use Rattle.plex_num.specs.Number.{digits_from, number_of};

use crate::seq::{Memory, Seq};
use itoa::Buffer;

/// The number that the text is: 1 to 10 digits with a value below 2^32; `None` for every other
/// text.
#[tactic(auto, using(crate::proofs::Digits::numbers_told))]
pub fn read_number(text: &[u8]) -> Option<u32>
    ensures { result ≡ number_of text.now }
{
    if text.is_empty() {
        return None;
    }
    if text.len() > 10 {
        return None;
    }
    match read_digits(text) {
        Some(value) if value < 4_294_967_296 => Some(value as u32),
        _ => None,
    }
}

/// The number that these digits make, of which there are at most 10.
#[tactic(auto, using(crate::proofs::Digits::digits_read))]
fn read_digits(text: &[u8]) -> Option<u64>
    requires { length text.now ≤ 10 }
    ensures { result ≡ digits_from 0 text.now }
{
    let mut value: u64 = 0;
    for byte in text {
        if !byte.is_ascii_digit() {
            return None;
        }
        let digit = u64::from(*byte - b'0');
        value = value * 10 + digit;
    }
    Some(value)
}

/// Appends the number in decimal digits, with no leading zero; where memory is refused, the list
/// stays as it was.
pub fn print_number(value: u64, text: &mut Seq<u8>) -> Result<(), Memory>
    ensures { MatchResult result
        (λ _. text.new ≡ text.old ++ decimal value)
        (λ _. text.new ≡ text.old) }
{
    let mut buffer = Buffer::new();
    text.append(buffer.format(value).as_bytes())
}

/// Appends these bytes and then the number in decimal digits.
pub fn add_number(text: &mut Seq<u8>, before: &[u8], value: u64) -> Result<(), Memory>
    ensures { OnOk result (text.new ≡ text.old ++ before.now ++ decimal value) }
{
    text.append(before)?;
    print_number(value, text)
}
