// Marks, of which the longest is taken.
ghost use Rattle.std.specs.Prelude.{◌≡◌, ◌<◌, length, true, IfSome};
ghost use Rattle.plex_lexer.specs.Marks.{single_mark, double_mark, mark_of};

const SINGLE_MARKS: [u8; 11] = *b";,()=+-*/<>";

/// The place of the byte among the marks of one byte.
#[tactic(auto, unfolding(crate::specs::Marks::single_mark))]
fn place(b: u8) -> Option<usize>
    ensures first { result ≡ single_mark b }
    ensures inside { IfSome result (λ i. i < 11) }
{
    SINGLE_MARKS.iter().position(|m| *m == b)
}

/// The number of a mark of one byte.
fn single(b: u8) -> Option<u8>
    ensures is { result ≡ single_mark b }
    ensures small { IfSome result (λ number. number < 128) }
{
    match place(b) {
        Some(number) => Some(number as u8),
        None => None,
    }
}

/// The number of a mark of two bytes: `<=`, `>=` or `<>`.
fn double(b: u8, rest: &[u8]) -> Option<u8>
    ensures is { result ≡ double_mark b rest.now }
    ensures small { IfSome result (λ number. number < 128) }
{
    macro_rules! marks {
        ($($first:literal $second:literal $number:literal),*) => {
            match (b, *rest.first()?) {
                $(($first, $second) => Some($number),)*
                _ => None,
            }
        };
    }
    marks!(b'<' b'=' 11, b'>' b'=' 12, b'<' b'>' 13)
}

/// The number of the longest mark that begins with this byte, and whether it has two bytes.
pub fn mark(b: u8, rest: &[u8]) -> Option<(u8, bool)>
    ensures is { result ≡ mark_of b rest.now }
    ensures small { IfSome result (λ mark. mark.0 < 128) }
{
    if let Some(number) = double(b, rest) {
        return Some((number, true));
    }
    match single(b) {
        Some(number) => Some((number, false)),
        None => None,
    }
}
