use plex_num::Name;

/// A word of a text, as contracts see it: what it is, its line (1 plus the number of LF bytes
/// before it) and its offset (the number of bytes before it).
#[derive(Drop)]
pub struct Token {
    pub kind: TokenKind,
    pub line: u32,
    pub offset: u32,
}

/// What a word is: the number of a keyword, a name, a value, or the number of a mark, where
/// keywords and marks are numbered from 0.
#[derive(Drop)]
pub enum TokenKind {
    Keyword(u32),
    Name(Name),
    Number(u32),
    Mark(u8),
}
