// The text of a job that a filter shows.
ghost use Rattle.std.specs.Prelude.{◌≡◌, ◌++◌, OnOk};
ghost use Rattle.report_text.specs.Report.{written};
ghost use Rattle.signal_trace.specs.Text.{forlopp_word, job_line, job_text, outcome_word};
ghost use Rattle.signal_trace.specs.Text.{place_words, send_text, sends_text};

use crate::tracer::TracedJob;
use exchange_model::Exchange;
use job_types::{Outcome, SendTo, Sent};
use plex_num::{Memory, Seq, add_number};
use report_text::{add_values, fault_word};

/// The lines of a job: its own, and then one for each signal that it sent. Memory is the only
/// reason for an error.
pub fn add_job(text: &mut Seq<u8>, exchange: &Exchange, job: &TracedJob) -> Result<(), Memory>
    ensures { OnOk result (text.new ≡ text.old ++ job_text exchange.now job.now) }
{
    add_start(text, exchange, job)?;
    add_sends(text, exchange, job)
}

/// `JOB j SIG BLOCK v1 v2 Fn ENDED`.
fn add_start(text: &mut Seq<u8>, exchange: &Exchange, job: &TracedJob) -> Result<(), Memory>
    ensures { OnOk result (text.new ≡ text.old ++ written (job_line exchange.now job.now)) }
{
    add_number(text, b"JOB ", job.number)?;
    text.append(b" ")?;
    exchange.add_entry(text, job.start.job.entry as usize)?;
    add_values(text, job.start.job.values.as_slice())?;
    add_number(text, b" F", job.start.job.forlopp)?;
    text.append(b" ")?;
    text.append(outcome_word(job.outcome))?;
    text.append(b"\n")?;
    Ok(())
}

/// The line of each signal that a job sent.
fn add_sends(text: &mut Seq<u8>, exchange: &Exchange, job: &TracedJob) -> Result<(), Memory>
    ensures { OnOk result (text.new ≡ text.old ++ sends_text exchange.now job.now) }
{
    for sent in job.sends.as_slice() {
        add_sent(text, exchange, job.number, job.start.job.forlopp, sent)?;
    }
    Ok(())
}

/// `SEND j SIG BLOCK v1 Fn`.
fn add_sent(
    text: &mut Seq<u8>,
    exchange: &Exchange,
    number: u64,
    forlopp: u64,
    sent: &Sent,
) -> Result<(), Memory>
    ensures { OnOk result
        (text.new ≡ text.old ++ send_text exchange.now number forlopp sent.now) }
{
    add_number(text, b"SEND ", number)?;
    text.append(b" ")?;
    add_place(text, exchange, sent.to)?;
    add_values(text, sent.values.as_slice())?;
    text.append(b" ")?;
    add_forlopp(text, forlopp, sent.to)?;
    text.append(b"\n")?;
    Ok(())
}

/// `SIG BLOCK`, or `SIG OUTSIDE`.
fn add_place(text: &mut Seq<u8>, exchange: &Exchange, to: SendTo) -> Result<(), Memory>
    ensures { OnOk result (text.new ≡ text.old ++ place_words exchange.now to) }
{
    match to {
        SendTo::Queue { entry, .. } => exchange.add_entry(text, entry as usize),
        SendTo::Outside { signal } => {
            text.append(exchange.signal_name(signal))?;
            text.append(b" OUTSIDE")
        }
    }
}

/// `Fn`, or `NEW`.
fn add_forlopp(text: &mut Seq<u8>, forlopp: u64, to: SendTo) -> Result<(), Memory>
    ensures { OnOk result (text.new ≡ text.old ++ forlopp_word forlopp to) }
{
    match to {
        SendTo::Queue { fresh: true, .. } => text.append(b"NEW"),
        _ => add_number(text, b"F", forlopp),
    }
}

/// `ENDED`, or the word of the fault.
fn outcome_word(outcome: Outcome) -> &'static [u8]
    ensures { result.now ≡ outcome_word outcome }
{
    match outcome {
        Outcome::Ended => b"ENDED",
        Outcome::Faulted { fault, .. } => fault_word(fault),
    }
}
