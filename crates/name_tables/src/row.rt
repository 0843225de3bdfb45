ghost use Rattle.std.specs.Prelude.{◌≡◌, ◌<◌, ◌≤◌, length, map, position, slice_get, IfSome};
ghost use Rattle.std.specs.Prelude.{MatchOption, Some};
ghost use Rattle.name_tables.specs.Rows.{place_of, same_bytes};

/// A row of a table: a name and its code.
#[derive(Clone, Copy)]
pub struct Row {
    pub name: &'static [u8],
    pub code: u32,
}

/// What has a name.
pub trait Named {
    ghost use Rattle.std.specs.Prelude.{List, ℕ};

    ghost text: { Self → List ℕ };

    fn name(&self) -> &[u8]
        ensures { result.now ≡ text self.now };
}

impl Named for Row {
    ghost text = { λ r. r.name.now };

    fn name(&self) -> &[u8] {
        self.name
    }
}

/// The place of the first row of that name, counted from 0; `None` exactly where no row has it.
#[tactic(auto, using(crate::proofs::Places::place_of_rows))]
pub fn find<const N: usize, R: Named>(table: &[R; N], name: &[u8]) -> Option<usize>
    ensures first { result ≡ place_of (map R.text table.now) name.now }
    ensures inside { IfSome result (λ i. i < N) }
{
    first_row(table, name)
}

// The same in a slice.
fn first_row<R: Named>(table: &[R], name: &[u8]) -> Option<usize>
    ensures first { result ≡ position (λ r. same_bytes (R.text r) name.now) table.now }
    ensures inside { IfSome result (λ i. i < length table.now) }
{
    table.iter().position(|row| row.name() == name)
}

/// The name of the row at a place, counted from 0; `None` exactly past the end.
pub fn name_of<const N: usize, R: Named>(table: &[R; N], i: usize) -> Option<&[u8]>
    ensures { MatchOption result (N ≤ i) (λ name. (i < N) ×
        (slice_get (map R.text table.now) i ≡ Some name.now)) }
{
    match table.get(i) {
        Some(row) => Some(row.name()),
        None => None,
    }
}
