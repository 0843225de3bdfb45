use crate::kept_name::KeptName;
use plex_num::Level;

/// A name of a text, with its line, counted from 1.
#[derive(Drop)]
pub struct Named {
    pub line: u32,
    pub name: KeptName,
}

/// A number of a text, with its line, counted from 1.
#[derive(Drop)]
pub struct Numbered {
    pub line: u32,
    pub value: u32,
}

/// The name of a job buffer, with its line.
#[derive(Drop)]
pub struct Leveled {
    pub line: u32,
    pub level: Level,
}
