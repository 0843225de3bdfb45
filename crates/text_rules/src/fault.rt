/// Why a text is refused by a set of rules.
#[derive(Drop)]
pub enum Fault<R> {
    /// The first fault of the text and its lowest rule, with the line, counted from 1.
    Rule { rule: R, line: u32 },
    /// Memory was refused.
    Memory,
}
