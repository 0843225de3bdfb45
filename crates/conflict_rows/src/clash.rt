// How a conflict is listed.
ghost use Rattle.std.specs.Prelude.{◌≡◌};
ghost use Rattle.std.specs.Option.{option_map};
ghost use Rattle.pair_tests.specs.Clashes.{clash_of};
ghost use Rattle.conflicts_meaning.specs.Rows.{listed as listed_as};

use conflicts_meaning::Clash;
use entry_summary::Access;
use pair_tests::{Conflict, conflict_of, number_of};

/// How a conflict is listed.
pub(crate) fn listed(conflict: Conflict) -> Clash
    ensures { result ≡ listed_as conflict }
{
    match conflict {
        Conflict::Variable { number } => Clash::Variable { number },
        Conflict::Field {
            number,
            first,
            later,
        } => Clash::Field {
            number,
            first,
            later,
        },
        Conflict::Seizing { file } => Clash::Seizing { file },
        Conflict::Above { level } => Clash::Above {
            level: number_of(level),
        },
    }
}

/// How the conflict of an access of the first with one of the later is listed, if they conflict.
pub(crate) fn clash(one: Access, other: Access) -> Option<Clash>
    ensures { result ≡ option_map listed_as (clash_of one other) }
{
    match conflict_of(one, other) {
        Some(conflict) => Some(listed(conflict)),
        None => None,
    }
}
