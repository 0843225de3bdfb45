// Lines of a text and words of a line, from the front.
ghost use Rattle.std.specs.Prelude.{◌≡◌, ◌<◌, ◌≤◌, ◌∷◌, [], IfSome, MatchOption, Some, drop};
ghost use Rattle.std.specs.Prelude.{length, position, take};
ghost use Rattle.std.specs.Str.{bytes_eq};
ghost use Rattle.std.specs.Str.Lines.{lines, strip_carriage_return};
ghost use Rattle.text_lines.specs.Words.{is_blank, is_comment, is_line_end, is_skipped, words};

/// The first line without its end, and what stands after it.
#[tactic(auto, using(crate::proofs::Lined::line_none, crate::proofs::Lined::line_last, crate::proofs::Lined::line_ended))]
pub fn next_line(text: &[u8]) -> Option<(&[u8], &[u8])>
    ensures cases { MatchOption result
        (lines text.now ≡ [])
        (λ p. lines text.now ≡ p.0.now ∷ lines p.1.now) }
    ensures shorter { IfSome result (λ p. length p.1.now < length text.now) }
{
    if text.is_empty() {
        return None;
    }
    match line_end(text) {
        Some(at) => Some((without_return(front(text, at)), back(text, at + 1))),
        None => Some((text, back(text, text.len()))),
    }
}

/// The place of the first LF.
fn line_end(text: &[u8]) -> Option<usize>
    ensures place { result ≡ position is_line_end text.now }
    ensures within { IfSome result (λ at. at < length text.now) }
{
    text.iter().position(|byte| *byte == 10)
}

/// A line without the CR at its end.
fn without_return(line: &[u8]) -> &[u8]
    ensures { result.now ≡ strip_carriage_return line.now }
{
    match line.split_last() {
        Some((13, rest)) => rest,
        _ => line,
    }
}

/// The first word of a line, and what stands after it.
#[tactic(auto, using(crate::proofs::Worded::word_blank, crate::proofs::Worded::word_ended, crate::proofs::Worded::word_last, crate::proofs::Worded::word_none))]
pub fn next_word(line: &[u8]) -> Option<(&[u8], &[u8])>
    ensures cases { MatchOption result
        (words line.now ≡ [])
        (λ p. words line.now ≡ p.0.now ∷ words p.1.now) }
    ensures shorter { IfSome result (λ p. length p.1.now < length line.now) }
{
    let mut rest = line;
    while let Some(at) = blank(rest) {
        if at > 0 {
            return Some((front(rest, at), back(rest, at + 1)));
        }
        rest = back(rest, 1);
    }
    if rest.is_empty() {
        None
    } else {
        Some((rest, back(rest, rest.len())))
    }
}

/// The place of the first blank.
fn blank(line: &[u8]) -> Option<usize>
    ensures place { result ≡ position is_blank line.now }
    ensures within { IfSome result (λ at. at < length line.now) }
{
    line.iter().position(|byte| *byte == 32 || *byte == 9)
}

/// The first bytes, so many.
fn front(text: &[u8], count: usize) -> &[u8]
    requires { count ≤ length text.now }
    ensures { result.now ≡ take count text.now }
{
    &text[..count]
}

/// The bytes after the first, so many.
fn back(text: &[u8], count: usize) -> &[u8]
    requires { count ≤ length text.now }
    ensures { result.now ≡ drop count text.now }
{
    &text[count..]
}

/// Whether the bytes are those of this text.
pub fn is_word(word: &[u8], text: &[u8]) -> bool
    ensures { result ≡ bytes_eq word.now text.now }
{
    word == text
}

/// Whether a line is empty, blank or a comment.
pub fn is_skipped(line: &[u8]) -> bool
    ensures { result ≡ is_skipped line.now }
{
    match next_word(line) {
        None => true,
        Some(_) => is_comment(line),
    }
}

fn is_comment(line: &[u8]) -> bool
    ensures { result ≡ is_comment line.now }
{
    match line.split_first() {
        Some((byte, _)) => *byte == b'!',
        None => false,
    }
}
