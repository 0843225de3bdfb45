// What counts of the lines before a line.
ghost use Rattle.std.specs.Prelude.{◌≡◌, ◌<◌, ◌^◌, OnOk, length};
ghost use Rattle.signal_file.specs.Rules.{behind_line, behind_skipped, gives, has_origin};
ghost use Rattle.signal_file.specs.Rules.{next_number};

use crate::line::{Line, LineKind};
use plex_num::{Memory, Seq};

/// What counts of the lines before a line: the count of the last signal line, 0 where there is
/// none; and of each line, whether a later one may take its forlopp.
pub struct Before {
    pub last: u32,
    pub origins: Seq<bool>,
}

impl Drop for Before {
    fn drop(self) {
        let Before {
            last: _,
            origins: _,
        } = self;
    }
}

impl Before {
    /// The number of the line, from 1.
    pub fn next_number(&self) -> u32
        requires { length self.now.origins < 2 ^ 24 }
        ensures { result ≡ next_number self.now }
    {
        self.origins.len() as u32 + 1
    }

    /// Whether there is the line that a forlopp is to come from, if any.
    pub fn has_origin(&self, kind: LineKind) -> bool
        ensures { result ≡ has_origin self.now kind }
    {
        match kind {
            LineKind::Fresh | LineKind::Bare => true,
            LineKind::Same { line } => self.is_origin(line),
        }
    }

    /// Whether a later line may take its forlopp from this one.
    fn is_origin(&self, line: u32) -> bool
        ensures { result ≡ has_origin self.now (LineKind.Same line) }
    {
        if line == 0 {
            return false;
        }
        match self.origins.get(line as usize - 1) {
            Some(origin) => *origin,
            None => false,
        }
    }

    /// Adds a line that is skipped.
    pub fn skip(&mut self) -> Result<(), Memory>
        ensures { OnOk result (self.new ≡ behind_skipped self.old) }
    {
        self.origins.push(false)
    }

    /// Adds a signal line.
    pub fn note(&mut self, line: &Line) -> Result<(), Memory>
        ensures { OnOk result (self.new ≡ behind_line self.old line.now) }
    {
        self.last = line.after;
        self.origins.push(gives_forlopp(line.kind))
    }
}

/// Whether a line of this kind has a forlopp to give.
fn gives_forlopp(kind: LineKind) -> bool
    ensures { result ≡ gives kind }
{
    kind != LineKind::Bare
}
