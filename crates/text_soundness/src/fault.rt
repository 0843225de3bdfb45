use text_rules::Rule;

/// Why a tree means no exchange.
#[derive(Drop)]
pub enum TextFault {
    /// The first rule that the text breaks, and the line, from 1.
    Rule { rule: Rule, line: u32 },
    /// Memory was refused.
    Memory,
}
