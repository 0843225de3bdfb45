// The seed of the tables of a text.
use plex_num::{Seed, Seq};
use text_events::{Event, EventKind};

/// The seed that hangs, too, on what a table may keep of this place.
fn with_kind(seed: Seed, kind: EventKind<'_>) -> Seed {
    match kind {
        EventKind::Signal { name } => seed.with(name.as_slice()),
        EventKind::BlockName { name } => seed.with(name.as_slice()),
        EventKind::Declares { name, .. } => seed.with(name.as_slice()),
        EventKind::Names { signal, .. } => seed.with(signal.as_slice()),
        EventKind::Chooses { owner, number } => seed.with_number(owner).with_number(number),
        _ => seed,
    }
}

/// The seed of the tables of a text in which these events stand. It hangs on all names and numbers
/// by which something is looked up, so that nobody can choose them to meet in a table.
pub(crate) fn seed_of(parts: &[Seq<Event<'_>>]) -> Seed {
    let mut seed = Seed::new();
    for part in parts {
        for event in part.as_slice() {
            seed = with_kind(seed, event.kind());
        }
    }
    seed
}
