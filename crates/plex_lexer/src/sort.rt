/// What sort of word a token is: a name, a number, the keyword of this number, or the mark of this
/// number.
#[derive(Clone, Copy)]
pub enum Sort {
    Name,
    Number,
    Keyword(u8),
    Mark(u8),
}
