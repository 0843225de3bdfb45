// The selector of an access.
ghost use Rattle.std.specs.Prelude.{◌≡◌};
ghost use Rattle.conflict_rows.specs.Near.{selector_of as selector_of_access};

use entry_summary::Access;
use flow_points::Value;

/// The selector of an access of a field; any of another one.
pub(crate) fn selector_of(one: Access) -> Value
    ensures { result ≡ selector_of_access one }
{
    match one {
        Access::Field { selector, .. } => selector,
        _ => Value::Any,
    }
}
