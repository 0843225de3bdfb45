// Bytes, cut at the first that is a certain one.
ghost use Rattle.std.specs.Prelude.{◌≡◌, ◌++◌, ◌<◌, IfSome, MatchOption, length, nat_eq, position};
ghost use Rattle.text_lines.specs.Parts.{HasNo, IsCut, StartsWith};

/// The bytes before the first that is `end`, and what follows it; `None` where it does not stand in
/// the text.
pub fn cut(text: &[u8], end: u8) -> Option<(&[u8], &[u8])>
    ensures { MatchOption result (HasNo end text.now) (λ r. IsCut end text.now r.0.now r.1.now) }
{
    let (word, rest) = until(text, end);
    match rest.split_first() {
        Some((_, after)) => Some((word, after)),
        None => None,
    }
}

/// The bytes before the first that is `end`, and the rest from there on.
pub fn until(bytes: &[u8], end: u8) -> (&[u8], &[u8])
    ensures apart { HasNo end result.0.now }
    ensures starts { StartsWith end result.1.now }
    ensures joined { bytes.now ≡ result.0.now ++ result.1.now }
{
    let at = place(bytes, end).unwrap_or(bytes.len());
    bytes.split_at(at)
}

/// The place of the first byte that is `end`.
fn place(bytes: &[u8], end: u8) -> Option<usize>
    ensures first { result ≡ position (λ b. nat_eq b end) bytes.now }
    ensures inside { IfSome result (λ at. at < length bytes.now) }
{
    bytes.iter().position(|byte| *byte == end)
}
