ghost use Rattle.std.specs.Prelude.{◌≡◌};
ghost use Rattle.exchange_model.specs.Kept.{is_outside, signal_count, signal_name};

use plex_num::{Level, Name};

/// A signal, by what may be done with it. `count` is the number of values that it carries.
#[derive(Drop)]
pub enum SignalKind {
    /// A job waits for it in the buffer of its level.
    Buffered { name: Name, level: Level, count: u8 },
    /// The job goes on in the receiver, and its sender has ended.
    Direct { name: Name, count: u8 },
    /// The job goes on in the receiver, and its sender waits for the answer, which is a signal by
    /// its number.
    Combined { name: Name, count: u8, answer: u32 },
    /// It goes back to the sender that waits; `of` is the number of its combined signal.
    Answer { name: Name, count: u8, of: u32 },
    /// It leaves the exchange.
    Outside { name: Name, count: u8 },
}

impl SignalKind {
    /// Its name.
    pub fn name(&self) -> &Name
        ensures { result.now ≡ signal_name self.now }
    {
        match self {
            SignalKind::Buffered { name, .. }
            | SignalKind::Direct { name, .. }
            | SignalKind::Combined { name, .. }
            | SignalKind::Answer { name, .. }
            | SignalKind::Outside { name, .. } => name,
        }
    }

    /// The number of values that it carries.
    pub fn count(&self) -> u8
        ensures { result ≡ signal_count self.now }
    {
        match self {
            SignalKind::Buffered { count, .. }
            | SignalKind::Direct { count, .. }
            | SignalKind::Combined { count, .. }
            | SignalKind::Answer { count, .. }
            | SignalKind::Outside { count, .. } => *count,
        }
    }

    /// Whether it leaves the exchange.
    pub fn is_outside(&self) -> bool
        ensures { result ≡ is_outside self.now }
    {
        matches!(self, SignalKind::Outside { .. })
    }
}
