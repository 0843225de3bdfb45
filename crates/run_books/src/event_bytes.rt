// Events in few bytes: they are put behind one another, and read from the last byte of a list that
// is turned round.
ghost use Rattle.std.specs.Prelude.{◌≡◌, ℕ, ◌+◌, ◌*◌, ◌%◌, ◌<◌, ◌≤◌, ◌^◌, ◌++◌, flat_map, length};
ghost use Rattle.std.specs.Prelude.{reverse, option_to_list, vec_capacity, vec_len};
ghost use Rattle.std.specs.List.{AllByRecursion};
ghost use Rattle.plex_limits.specs.declared.limits.TheConstants.{MOST_VALUES};
ghost use Rattle.run_books.specs.Events.{event_of};
ghost use Rattle.run_books.specs.Bytes.{IsNarrow, TakesFirst, after_event, after_kind};
ghost use Rattle.run_books.specs.Bytes.{after_number, after_words, event_bytes, event_of_kind};
ghost use Rattle.run_books.specs.Bytes.{fault_number, fault_of, first_event, long_at, number_bytes};
ghost use Rattle.run_books.specs.Bytes.{word_at, words_at};

use crate::event::{Faulty, ReportEvent};
use job_types::Fault;
use plex_limits::MOST_VALUES;
use plex_num::Values;

/// How many bytes a number takes at most, and an event, which has twelve numbers at most.
const MOST_NUMBER_BYTES: usize = 10;

pub const MOST_EVENT_BYTES: usize = 12 * MOST_NUMBER_BYTES;

/// Puts an event behind the others; there must be room for it.
#[tactic(auto, using(crate::proofs::Told::row_put))]
pub fn put_event(bytes: &mut Vec<u8>, event: &ReportEvent)
    requires room { vec_len bytes.old + 120 ≤ vec_capacity bytes.old }
    ensures items { bytes.new.items ≡ bytes.old.items ++ event_bytes (event_of event.now) }
    ensures room { vec_len bytes.new ≤ vec_len bytes.old + 120 }
    ensures capacity { vec_capacity bytes.new ≡ vec_capacity bytes.old }
    ensures narrow { IsNarrow (event_of event.now) }
{
    match event {
        ReportEvent::Out {
            job,
            signal,
            values,
            forlopp,
        } => {
            let values = values.as_slice();
            let many = 4 * values.len() as u64;
            put_all(bytes, &[many, *job, u64::from(*signal), *forlopp]);
            put_words(bytes, values);
        }
        ReportEvent::Release {
            forlopp,
            fault,
            jobs,
            records,
        } => {
            are_in_range(*fault);
            let kind = 4 * number_of(fault.fault) + 1;
            let (point, records) = (u64::from(fault.point), u64::from(*records));
            put_all(bytes, &[kind, *forlopp, fault.job, point, *jobs, records]);
        }
        ReportEvent::Lost { line } => put_all(bytes, &[2, u64::from(*line)]),
        ReportEvent::Restart {
            fault,
            jobs,
            records,
        } => {
            are_in_range(*fault);
            let kind = 4 * number_of(fault.fault) + 3;
            let (point, records) = (u64::from(fault.point), u64::from(*records));
            put_all(bytes, &[kind, fault.job, point, *jobs, records]);
        }
    }
}

/// The job and the point of a fault are numbers of 64 and of 32 bits.
fn are_in_range(fault: Faulty)
    ensures job { fault.job < 2 ^ 64 }
    ensures point { fault.point < 2 ^ 32 }
{
    let _ = fault;
}

/// Puts these numbers behind; there must be room for them.
#[tactic(auto, using(crate::proofs::Numbered::number_few, crate::proofs::Numbered::put_begin))]
fn put_all(bytes: &mut Vec<u8>, numbers: &[u64])
    requires room { vec_len bytes.old + 10 * length numbers.now ≤ vec_capacity bytes.old }
    ensures items { bytes.new.items ≡ bytes.old.items ++ flat_map number_bytes numbers.now }
    ensures room { vec_len bytes.new ≤ vec_len bytes.old + 10 * length numbers.now }
    ensures capacity { vec_capacity bytes.new ≡ vec_capacity bytes.old }
{
    for number in numbers {
        put_number(bytes, *number);
    }
}

/// Puts these numbers of 32 bits behind; there must be room for them.
#[tactic(auto, using(crate::proofs::Numbered::number_few, crate::proofs::Numbered::put_begin))]
fn put_words(bytes: &mut Vec<u8>, words: &[u32])
    requires room { vec_len bytes.old + 10 * length words.now ≤ vec_capacity bytes.old }
    ensures items { bytes.new.items ≡ bytes.old.items ++ flat_map number_bytes words.now }
    ensures room { vec_len bytes.new ≤ vec_len bytes.old + 10 * length words.now }
    ensures capacity { vec_capacity bytes.new ≡ vec_capacity bytes.old }
    ensures narrow { AllByRecursion (λ (v : ℕ). v < 2 ^ 32) words.now }
{
    for word in words {
        put_word(bytes, *word);
    }
}

/// Puts a number of 32 bits behind; there must be room for its bytes.
fn put_word(bytes: &mut Vec<u8>, word: u32)
    requires room { vec_len bytes.old + length (number_bytes word) ≤ vec_capacity bytes.old }
    ensures items { bytes.new.items ≡ bytes.old.items ++ number_bytes word }
    ensures len { vec_len bytes.new ≡ vec_len bytes.old + length (number_bytes word) }
    ensures capacity { vec_capacity bytes.new ≡ vec_capacity bytes.old }
    ensures few { length (number_bytes word) ≤ 10 }
    ensures narrow { word < 2 ^ 32 }
{
    put_number(bytes, u64::from(word));
}

/// Puts a number behind; there must be room for its bytes.
#[tactic(auto, using(crate::proofs::Numbered::number_few))]
fn put_number(bytes: &mut Vec<u8>, number: u64)
    requires room { vec_len bytes.old + length (number_bytes number) ≤ vec_capacity bytes.old }
    ensures items { bytes.new.items ≡ bytes.old.items ++ number_bytes number }
    ensures len { vec_len bytes.new ≡ vec_len bytes.old + length (number_bytes number) }
    ensures capacity { vec_capacity bytes.new ≡ vec_capacity bytes.old }
    ensures few { length (number_bytes number) ≤ 10 }
{
    if number < 128 {
        bytes.push_reserved(number as u8);
        return;
    }
    bytes.push_reserved((number % 128 + 128) as u8);
    put_number(bytes, number / 128);
}

/// The number of a fault.
fn number_of(fault: Fault) -> u64
    ensures number { result ≡ fault_number fault }
    ensures few { result < 10 }
{
    match fault {
        Fault::Pointer => 0,
        Fault::Range => 1,
        Fault::Divide => 2,
        Fault::NotOwn => 3,
        Fault::NoForlopp => 4,
        Fault::Chain => 5,
        Fault::BadEnd => 6,
        Fault::Depth => 7,
        Fault::Sends => 8,
        Fault::Budget => 9,
    }
}

/// Takes the event that stands last, whose bytes stand in turned order.
#[tactic(auto, using(crate::proofs::Told::first_by, crate::proofs::Told::after_by, crate::proofs::Told::last_kind))]
pub fn read_event(bytes: &mut Vec<u8>) -> ReportEvent
    ensures event { event_of result ≡ first_event (reverse bytes.old.items) }
    ensures left { reverse bytes.new.items ≡ after_event (reverse bytes.old.items) }
{
    let kind = read_number(bytes);
    let more = kind / 4;
    match kind % 4 {
        0 => read_out(bytes, more),
        1 => read_release(bytes, more),
        2 => ReportEvent::Lost {
            line: read_word(bytes),
        },
        _ => read_restart(bytes, more),
    }
}

/// What follows the first number of a signal that left the exchange.
fn read_out(bytes: &mut Vec<u8>, more: u64) -> ReportEvent
    ensures event { event_of result ≡ event_of_kind 0 more (reverse bytes.old.items) }
    ensures left { reverse bytes.new.items ≡ after_kind 0 more (reverse bytes.old.items) }
{
    let job = read_number(bytes);
    let signal = read_word(bytes);
    let forlopp = read_number(bytes);
    let values = read_values(bytes, more.min(MOST_VALUES as u64));
    ReportEvent::Out {
        job,
        signal,
        values,
        forlopp,
    }
}

/// What follows the first number of a release.
fn read_release(bytes: &mut Vec<u8>, more: u64) -> ReportEvent
    ensures event { event_of result ≡ event_of_kind 1 more (reverse bytes.old.items) }
    ensures left { reverse bytes.new.items ≡ after_kind 1 more (reverse bytes.old.items) }
{
    let forlopp = read_number(bytes);
    let job = read_number(bytes);
    let point = read_word(bytes);
    let jobs = read_number(bytes);
    let records = read_word(bytes);
    ReportEvent::Release {
        forlopp,
        fault: Faulty {
            job,
            fault: fault_of(more),
            point,
        },
        jobs,
        records,
    }
}

/// What follows the first number of a restart.
fn read_restart(bytes: &mut Vec<u8>, more: u64) -> ReportEvent
    ensures event { event_of result ≡ event_of_kind 3 more (reverse bytes.old.items) }
    ensures left { reverse bytes.new.items ≡ after_kind 3 more (reverse bytes.old.items) }
{
    let job = read_number(bytes);
    let point = read_word(bytes);
    let jobs = read_number(bytes);
    let records = read_word(bytes);
    ReportEvent::Restart {
        fault: Faulty {
            job,
            fault: fault_of(more),
            point,
        },
        jobs,
        records,
    }
}

/// The fault of a number.
fn fault_of(number: u64) -> Fault
    ensures { result ≡ fault_of number }
{
    let all = [
        Fault::Pointer,
        Fault::Range,
        Fault::Divide,
        Fault::NotOwn,
        Fault::NoForlopp,
        Fault::Chain,
        Fault::BadEnd,
        Fault::Depth,
        Fault::Sends,
        Fault::Budget,
    ];
    all.as_slice()
        .get(number as usize)
        .copied()
        .unwrap_or(Fault::Budget)
}

/// Takes so many values.
#[tactic(auto, using(crate::proofs::Numbered::valued_begin))]
fn read_values(bytes: &mut Vec<u8>, many: u64) -> Values
    requires { many ≤ MOST_VALUES }
    ensures values { result ≡ words_at many (reverse bytes.old.items) }
    ensures left { reverse bytes.new.items ≡ after_words many (reverse bytes.old.items) }
{
    let mut values = Values::new();
    for _ in 0..many {
        values.push(read_word(bytes));
    }
    values
}

/// Takes the number that stands last, as one of 32 bits.
#[tactic(auto, using(crate::proofs::Numbered::word_is))]
fn read_word(bytes: &mut Vec<u8>) -> u32
    ensures number { result ≡ word_at (reverse bytes.old.items) }
    ensures left { reverse bytes.new.items ≡ after_number (reverse bytes.old.items) }
{
    (read_number(bytes) % 4_294_967_296) as u32
}

/// Takes the number that stands last.
#[tactic(auto, using(crate::proofs::Numbered::read_none, crate::proofs::Numbered::left_none, crate::proofs::Numbered::read_last, crate::proofs::Numbered::left_last, crate::proofs::Numbered::read_more, crate::proofs::Numbered::left_more))]
fn read_number(bytes: &mut Vec<u8>) -> u64
    ensures number { result ≡ long_at (reverse bytes.old.items) }
    ensures left { reverse bytes.new.items ≡ after_number (reverse bytes.old.items) }
{
    let Some(byte) = read_byte(bytes) else {
        return 0;
    };
    if byte < 128 {
        return u64::from(byte);
    }
    let higher = read_number(bytes);
    higher.wrapping_mul(128).wrapping_add(u64::from(byte) - 128)
}

/// Takes the byte that stands last.
fn read_byte(bytes: &mut Vec<u8>) -> Option<u8>
    ensures items { TakesFirst result (reverse bytes.old.items) (reverse bytes.new.items) }
    ensures len { vec_len bytes.new + length (option_to_list result) ≡ vec_len bytes.old }
{
    bytes.pop()
}
