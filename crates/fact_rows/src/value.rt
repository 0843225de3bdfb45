// The number of a value in its plane.
ghost use Rattle.std.specs.Prelude.{◌≡◌, ◌<◌};
ghost use Rattle.fact_rows.specs.Values.{HasNumber, IsAwaited, IsNumbered};
ghost use Rattle.fact_rows.specs.Values.{awaited_number as awaited_number_of};
ghost use Rattle.fact_rows.specs.Values.{is_awaits as is_awaits_of, number_in as number_in_of};
ghost use Rattle.fact_rows.specs.Values.{numbered_value as numbered_value_of, numbers_of};
ghost use Rattle.fact_rows.specs.Values.{value_in as value_in_of, value_number as value_number_of};

use flow_points::{SMALL_NUMBERS, Slot, Value};
use plex_limits::MOST_VALUES;

// The values that a job started with come before the small numbers.
const ARGS: u32 = MOST_VALUES as u32;

/// The number of any number in a plane, which is the last one: values that a job started with and
/// small numbers come before it.
pub const ANY_NUMBER: u32 = ARGS + SMALL_NUMBERS;
/// How many numbers a plane of AWAITS has.
pub const AWAITED_NUMBERS: u32 = 1_024;

/// How many words of 64 bits the numbers of a plane take, and those of one of AWAITS.
pub const PLANE_WORDS: u32 = 5;

pub const AWAITED_WORDS: u32 = 16;

fn is_awaits(slot: Slot) -> bool
    ensures { result ≡ is_awaits_of slot }
{
    match slot {
        Slot::Temp(_) => false,
        Slot::Given(_) => false,
        Slot::Answered(_) => false,
        Slot::Depth => false,
        Slot::Awaits => true,
    }
}

/// The number of a value in the plane of a slot.
pub(crate) fn number_in(slot: Slot, value: Value) -> u32
    requires { HasNumber slot value }
    ensures number { result ≡ number_in_of slot value }
    ensures within { result < numbers_of slot }
{
    if is_awaits(slot) {
        awaited_number(value)
    } else {
        value_number(value)
    }
}

fn awaited_number(value: Value) -> u32
    ensures { result ≡ awaited_number_of value }
{
    match value {
        Value::Arg(_) => 0,
        Value::Const(number) => number,
        Value::Any => 0,
    }
}

fn value_number(value: Value) -> u32
    requires { IsNumbered value }
    ensures { result ≡ value_number_of value }
{
    match value {
        Value::Arg(place) => place as u32,
        Value::Const(number) => ARGS + number,
        Value::Any => ANY_NUMBER,
    }
}

/// The value of a number in the plane of a slot.
pub(crate) fn value_in(slot: Slot, number: u32) -> Value
    ensures { result ≡ value_in_of slot number }
{
    if is_awaits(slot) {
        Value::Const(number)
    } else {
        numbered_value(number)
    }
}

fn numbered_value(number: u32) -> Value
    ensures { result ≡ numbered_value_of number }
{
    if number < ARGS {
        Value::Arg(number as u8)
    } else if number < ANY_NUMBER {
        Value::Const(number - ARGS)
    } else {
        Value::Any
    }
}
