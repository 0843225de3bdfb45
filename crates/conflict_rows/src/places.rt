// Where accesses stand in lists.
ghost use Rattle.std.specs.Prelude.{◌≡◌, ◌<◌, Some, length, slice_get};
ghost use Rattle.std.specs.List.Sorted.{IsStrictlySortedBy};
ghost use Rattle.entry_summary.specs.Orders.{access_order};
ghost use Rattle.conflict_rows.specs.Items.{StandsThere};

use entry_summary::Access;
use plex_num::Level;

/// Where an access stands in a list in order; `None` exactly where it does not.
pub(crate) fn place_of(accesses: &[Access], access: Access) -> Option<usize>
    requires { IsStrictlySortedBy access_order accesses.now }
    ensures { StandsThere accesses.now access result }
{
    match accesses.binary_search(&access) {
        Ok(place) => Some(place),
        Err(_) => None,
    }
}

/// The access at a place.
pub(crate) fn at(accesses: &[Access], place: usize) -> Access
    requires { place < length accesses.now }
    ensures { slice_get accesses.now place ≡ Some result }
{
    accesses[place]
}

/// The level at a place.
pub(crate) fn level_at(levels: &[Level], place: usize) -> Level
    requires { place < length levels.now }
    ensures { slice_get levels.now place ≡ Some result }
{
    levels[place]
}
