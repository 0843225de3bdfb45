// Runs of bytes: how many from the front on belong together.
ghost use Rattle.std.specs.Prelude.{◌≡◌, ◌≤◌, ◌∷◌, [], length, take, take_while, drop, MatchOption};
ghost use Rattle.std.specs.Char.{is_ascii_digit};
ghost use Rattle.plex_lexer.specs.Bytes.{is_blank, in_word, in_comment};
ghost use Rattle.plex_lexer.specs.Pieces.{IsEnd};

/// Whether the byte parts tokens: a tabulator, a CR or a blank.
pub fn blank(b: u8) -> bool
    ensures { result ≡ is_blank b }
{
    b == b'\t' || b == b'\r' || b == b' '
}

fn goes_on_with_word(b: u8) -> bool
    ensures { result ≡ in_word b }
{
    b.is_ascii_uppercase() || b.is_ascii_digit()
}

fn goes_on_with_comment(b: u8) -> bool
    ensures { result ≡ in_comment b }
{
    b != b'\n'
}

/// The number of capital letters and digits at the front.
pub fn word_len(bytes: &[u8]) -> usize
    ensures { result ≡ length (take_while in_word bytes.now) }
{
    bytes.iter().take_while(|b| goes_on_with_word(**b)).count()
}

/// The number of digits at the front.
pub fn digits_len(bytes: &[u8]) -> usize
    ensures { result ≡ length (take_while is_ascii_digit bytes.now) }
{
    bytes.iter().take_while(|b| b.is_ascii_digit()).count()
}

/// The capital letters and digits at the front.
pub fn word_run(bytes: &[u8]) -> &[u8]
    ensures { result.now ≡ take_while in_word bytes.now }
{
    &bytes[..word_len(bytes)]
}

/// The digits at the front.
pub fn digit_run(bytes: &[u8]) -> &[u8]
    ensures { result.now ≡ take_while is_ascii_digit bytes.now }
{
    &bytes[..digits_len(bytes)]
}

/// The first bytes, at most so many.
pub fn at_most(bytes: &[u8], most: usize) -> &[u8]
    ensures front { result.now ≡ take most bytes.now }
    ensures few { length result.now ≤ most }
{
    if bytes.len() > most {
        &bytes[..most]
    } else {
        bytes
    }
}

fn comment_len(bytes: &[u8]) -> usize
    ensures { result ≡ length (take_while in_comment bytes.now) }
{
    bytes
        .iter()
        .take_while(|b| goes_on_with_comment(**b))
        .count()
}

/// The bytes from a place on, counted from 0.
pub fn from(bytes: &[u8], place: usize) -> &[u8]
    requires { place ≤ length bytes.now }
    ensures rest { result.now ≡ drop place bytes.now }
    ensures shorter { length result.now ≤ length bytes.now }
{
    &bytes[place..]
}

/// The bytes after so many.
#[tactic(auto, using(crate::proofs::Ends::end_drop))]
pub fn past(bytes: &[u8], many: usize) -> &[u8]
    requires { many ≤ length bytes.now }
    ensures rest { result.now ≡ drop many bytes.now }
    ensures shorter { length result.now ≤ length bytes.now }
    ensures end { IsEnd bytes.now result.now }
{
    from(bytes, many)
}

/// The bytes from a place on, counted from 0; none past the end.
pub fn from_any(bytes: &[u8], place: usize) -> &[u8]
    ensures { result.now ≡ drop place bytes.now }
{
    if place > bytes.len() {
        from(bytes, bytes.len())
    } else {
        from(bytes, place)
    }
}

/// The bytes after a comment: from its LF on, or none.
pub fn after_comment(bytes: &[u8]) -> &[u8]
    ensures rest { result.now ≡ drop (length (take_while in_comment bytes.now)) bytes.now }
    ensures shorter { length result.now ≤ length bytes.now }
    ensures end { IsEnd bytes.now result.now }
{
    past(bytes, comment_len(bytes))
}

/// The first byte and those after it; `None` exactly where there is none.
pub fn first(bytes: &[u8]) -> Option<(u8, &[u8])>
    ensures { MatchOption result (bytes.now ≡ []) (λ x. bytes.now ≡ x.0 ∷ x.1.now) }
{
    match bytes.split_first() {
        None => None,
        Some((b, after)) => Some((*b, after)),
    }
}
