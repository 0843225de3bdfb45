// The words of records, and the width of a value.
ghost use Rattle.std.specs.Prelude.{◌≡◌, ◌+◌, ◌*◌, ◌^◌, true, nat_lt, slice_index, slice_set};
ghost use Rattle.machine_code.specs.Told.{told_more};
ghost use Rattle.job_types.specs.declared.touch.Touch.TheVariants.{Load, Store};

use machine_code::Words;
use plex_num::fits;

/// The value of the word w + n * i.
pub fn read_at<W: Words>(words: &mut W, w: u32, n: u32, i: u32) -> u32
    requires { W.may_read words.old (w + n * i) ≡ true }
    ensures value { result ≡ slice_index (W.values words.old) (w + n * i) }
    ensures values { W.values words.new ≡ W.values words.old }
    ensures allowed { (W.may_read words.new ≡ W.may_read words.old)
        × (W.may_write words.new ≡ W.may_write words.old) }
    ensures told { W.told words.new ≡ told_more (W.told words.old) (Load (w + n * i) result) }
    ensures like { W.like words.old words.new }
{
    let place = place_to_read(words, w, n, i);
    words.read(place)
}

/// The number of the word w + n * i, which may be read.
pub fn place_to_read<W: Words>(words: &W, w: u32, n: u32, i: u32) -> u32
    requires { W.may_read words.now (w + n * i) ≡ true }
    ensures { result ≡ w + n * i }
{
    let _ = words;
    place_of(w, n, i) as u32
}

/// Gives the word w + n * i its value.
pub fn write_at<W: Words>(words: &mut W, w: u32, n: u32, i: u32, value: u32)
    requires { W.may_write words.old (w + n * i) ≡ true }
    ensures values { W.values words.new ≡ slice_set (W.values words.old) (w + n * i) value }
    ensures allowed { (W.may_read words.new ≡ W.may_read words.old)
        × (W.may_write words.new ≡ W.may_write words.old) }
    ensures told { W.told words.new ≡ told_more (W.told words.old) (Store (w + n * i) value) }
    ensures like { W.like words.old words.new }
{
    words.write(place_of(w, n, i) as u32, value);
}

/// The number w + n * i.
fn place_of(w: u32, n: u32, i: u32) -> u64
    ensures { result ≡ w + n * i }
{
    u64::from(w) + u64::from(n) * u64::from(i)
}

/// Whether the value is below 2^width.
pub fn fits_width(value: u32, width: u8) -> bool
    ensures { result ≡ nat_lt value (2 ^ width) }
{
    fits(value, width)
}
