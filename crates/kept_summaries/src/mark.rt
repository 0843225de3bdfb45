// The marks of summaries.
use entry_summary::{Access, Summary};
use flow_points::Value;
use plex_num::Level;

/// A number that a summary has in common with few others.
pub(crate) fn mark_of(summary: &Summary) -> u64 {
    let mut mark = mixed(number_of(summary.level), u64::from(summary.fault));
    for level in summary.levels.as_slice() {
        mark = mixed(mark, number_of(*level));
    }
    for access in summary.accesses.as_slice() {
        mark = mixed(mark, code_of(*access));
    }
    mark
}

/// A number made of all of two numbers.
fn mixed(mark: u64, code: u64) -> u64 {
    let mixed = (mark ^ code).wrapping_mul(0x9e37_79b9_7f4a_7c15);
    mixed ^ (mixed >> 32)
}

fn number_of(level: Level) -> u64 {
    match level {
        Level::A => 1,
        Level::B => 2,
        Level::C => 3,
        Level::D => 4,
    }
}

fn code_of(access: Access) -> u64 {
    match access {
        Access::Variable { write, number } => coded(0, write, number),
        Access::Field {
            write,
            number,
            selector,
        } => mixed(coded(1, write, number), selected(selector)),
        Access::Own { write, number } => coded(2, write, number),
        Access::Seizes { file } => coded(3, false, file),
        Access::Frees { file } => coded(3, true, file),
    }
}

/// A number for a kind of access, of which there are four, and what it is to.
fn coded(kind: u64, flag: bool, number: u32) -> u64 {
    (kind << 33) | (u64::from(flag) << 32) | u64::from(number)
}

fn selected(selector: Value) -> u64 {
    match selector {
        Value::Arg(place) => 1 << 32 | u64::from(place),
        Value::Const(number) => u64::from(number),
        Value::Any => 2 << 32,
    }
}
