ghost use Rattle.std.specs.Prelude.{◌≡◌, ◌≤◌, ◌<◌, ◌∷◌, length, IfOk};
ghost use Rattle.name_tables.specs.Names.{keyword_names};
ghost use Rattle.name_tables.specs.Rows.{names_of};
ghost use Rattle.plex_lexer.specs.Lexed.{tokens_of, TellsTokens};
ghost use Rattle.plex_lexer.specs.Pieces.{token_at, seen, IsEnd};
ghost use Rattle.plex_lexer.specs.Spots.{IsSmall};

use crate::fault::LexFault;
use crate::marks::mark;
use crate::runs::{after_comment, blank, digits_len, first, past, word_len};
use crate::sort::Sort;
use crate::spot::Spot;
use crate::tokens::Tokens;
use crate::words::{number, word};
use name_tables::{Row, keywords};
use plex_limits::MOST_BYTES;
use plex_num::Seq;
use std::alloc::Global;

/// The sort of the token that begins at the byte `b`, and the bytes after it.
#[tactic(auto, using(crate::proofs::SortedTokens::word_piece, crate::proofs::SortedTokens::word_fault, crate::proofs::SortedTokens::number_piece, crate::proofs::SortedTokens::number_fault, crate::proofs::Ends::end_self))]
fn read_token<'t>(
    b: u8,
    bytes: &[u8],
    after: &'t [u8],
    offset: u32,
    line: u32,
    table: &[Row; 56],
) -> Result<(Sort, &'t [u8]), LexFault>
    requires front { bytes.now ≡ b ∷ after.now }
    requires table { names_of table.now ≡ keyword_names }
    ensures read { seen (λ r. r.now) bytes.now offset line result ≡
        token_at offset line b after.now }
    ensures small { IfOk result (λ piece. IsSmall piece.0) }
    ensures shorter { IfOk result (λ piece. length piece.1.now ≤ length after.now) }
    ensures end { IfOk result (λ piece. IsEnd after.now piece.1.now) }
{
    if b.is_ascii_uppercase() {
        let sort = word(bytes, offset, line, table)?;
        Ok((sort, past(after, word_len(after))))
    } else if b.is_ascii_digit() {
        let sort = number(bytes, offset, line)?;
        Ok((sort, past(after, digits_len(after))))
    } else {
        match mark(b, after) {
            None => Err(LexFault::BadByte { offset, line }),
            Some((number, true)) => Ok((Sort::Mark(number), past(after, 1))),
            Some((number, false)) => Ok((Sort::Mark(number), after)),
        }
    }
}

/// The tokens of a text of at most 16 MiB, or its first place that begins no token.
#[tactic(auto, using(crate::proofs::Steps::line_on, crate::proofs::Steps::blank_on, crate::proofs::Steps::comment_on, crate::proofs::Steps::end_on, crate::proofs::Steps::begin_on, crate::proofs::Ends::end_self, crate::proofs::Ends::end_after, crate::proofs::Ends::end_on))]
pub fn lex<'t>(alloc: Global, text: &'t [u8]) -> Result<Tokens<'t>, LexFault>
    requires { length text.now ≤ MOST_BYTES }
    ensures tokens { TellsTokens result (tokens_of text.now) }
    ensures few { IfOk result (λ tokens. length tokens ≤ length text.now) }
{
    let table = keywords();
    let mut rest = text;
    let mut spots = Seq::new(alloc);
    let mut line: u32 = 1;
    'bytes: while let Some((b, after)) = first(rest) {
        if b == b'\n' {
            line += 1;
            rest = after;
        } else if blank(b) {
            rest = after;
        } else if b == b'!' {
            rest = after_comment(after);
        } else {
            let offset = (text.len() - rest.len()) as u32;
            match read_token(b, rest, after, offset, line, &table) {
                Err(fault) => return Err(fault),
                Ok((sort, left)) => {
                    if let Err(_) = spots.push(Spot::new(sort, offset, line)) {
                        return Err(LexFault::Memory);
                    }
                    rest = left;
                }
            }
        }
    }
    Ok(Tokens::of(text, spots))
}
