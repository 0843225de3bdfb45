// The outside: files, output, and what a job's thread calls.
//
// Words and files come in through a `Shelf`, text goes out through a `Sink`, and a thread tells a
// `Gate` where it is. Shelf and sink have each two devices in memory, whose contracts are exact:
// one that fails where it is told to, and a steady one, which fails only where it is full; and one
// over the system, which tells nothing of what it holds. Two gates hold jobs until others have
// begun, which shows whether jobs run side by side. The crates above use the clauses of the traits
// and of `write_all`: what was read or written, and that a failed call raised its device's count of
// faults. It knows nothing of signals, of the language or of what the text says.
#![tactic(auto)]

mod gate;
mod meet_gate;
mod memory_shelf;
mod memory_sink;
mod shelf;
mod sink;
mod slide_gate;
mod steady_shelf;
mod steady_sink;
mod system;
mod turns;

pub use gate::{Gate, Moment, NoGate};
pub use meet_gate::MeetGate;
pub use memory_shelf::{MemoryShelf, StoredFile};
pub use memory_sink::MemorySink;
pub use shelf::{Shelf, ShelfFault, Word};
pub use sink::{Sink, SinkFailed, write_all};
pub use slide_gate::SlideGate;
pub use steady_shelf::SteadyShelf;
pub use steady_sink::SteadySink;
pub use system::{FileShelf, OutSink};
