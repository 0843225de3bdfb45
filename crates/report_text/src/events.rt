// The lines of the events.
ghost use Rattle.std.specs.Prelude.{◌≡◌, ◌++◌, IfOk, OnOk};
ghost use Rattle.run_books.specs.Events.{event_of};
ghost use Rattle.report_text.specs.Report.{event_line, event_lines, out_line, text_of, value_words};
ghost use Rattle.report_text.specs.Report.{words_of_fault, written};

use crate::names::{add_point, fault_word};
use exchange_model::Exchange;
use plex_num::{Memory, Seq, add_number};
use run_books::{EventQueue, Faulty, ReportEvent};
use std::alloc::Global;
use text_parts::Text;

/// The lines of these events, in order: the part of a report that tells of the events. Memory is
/// the only reason for an error.
pub fn event_lines(alloc: Global, exchange: &Exchange, events: EventQueue) -> Result<Text, Memory>
    ensures { IfOk result (λ text. text ≡ text_of (event_lines exchange.now events)) }
{
    let mut text = Text::new(alloc);
    add_events(&mut text, exchange, events)?;
    Ok(text)
}

/// The line of each event, in order.
#[tactic(auto, using(crate::proofs::Lines::events_end))]
pub fn add_events(text: &mut Text, exchange: &Exchange, events: EventQueue) -> Result<(), Memory>
    ensures { OnOk result (text.new ≡ text.old ++ text_of (event_lines exchange.now events)) }
{
    let mut left = events;
    while let Some(event) = left.next() {
        add_line(text, exchange, &event)?;
    }
    Ok(())
}

/// The line of an event.
fn add_line(text: &mut Text, exchange: &Exchange, event: &ReportEvent) -> Result<(), Memory>
    ensures { OnOk result
        (text.new ≡ text.old ++ written (event_line exchange.now (event_of event.now))) }
{
    let mut end = text.take_end();
    add_event(&mut end, exchange, event)?;
    end.append(b"\n")?;
    text.put(end)?;
    Ok(())
}

/// The line of an event, without its end.
fn add_event(text: &mut Seq<u8>, exchange: &Exchange, event: &ReportEvent) -> Result<(), Memory>
    ensures { OnOk result (text.new ≡ text.old ++ event_line exchange.now (event_of event.now)) }
{
    match event {
        ReportEvent::Out {
            job,
            signal,
            values,
            forlopp,
        } => add_out(text, exchange, *job, *signal, values.as_slice(), *forlopp),
        ReportEvent::Release {
            forlopp,
            fault,
            jobs,
            records,
        } => {
            add_number(text, b"RELEASE F", *forlopp)?;
            add_fault(text, exchange, fault, *jobs, *records)
        }
        ReportEvent::Lost { line } => add_number(text, b"LOST line ", u64::from(*line)),
        ReportEvent::Restart {
            fault,
            jobs,
            records,
        } => {
            text.append(b"RESTART")?;
            add_fault(text, exchange, fault, *jobs, *records)
        }
    }
}

/// `OUT j SIG v1 v2 Fn`.
fn add_out(
    text: &mut Seq<u8>,
    exchange: &Exchange,
    job: u64,
    signal: u32,
    values: &[u32],
    forlopp: u64,
) -> Result<(), Memory>
    ensures { OnOk result
        (text.new ≡ text.old ++ out_line exchange.now job signal values.now forlopp) }
{
    add_number(text, b"OUT ", job)?;
    text.append(b" ")?;
    text.append(exchange.signal_name(signal))?;
    add_values(text, values)?;
    add_number(text, b" F", forlopp)
}

/// Appends ` v` for each value.
pub fn add_values(text: &mut Seq<u8>, values: &[u32]) -> Result<(), Memory>
    ensures { OnOk result (text.new ≡ text.old ++ value_words values.now) }
{
    for value in values {
        add_number(text, b" ", u64::from(*value))?;
    }
    Ok(())
}

/// ` job j FAULT at BLOCK:line jobs k records r`.
fn add_fault(
    text: &mut Seq<u8>,
    exchange: &Exchange,
    fault: &Faulty,
    jobs: u64,
    records: u32,
) -> Result<(), Memory>
    ensures { OnOk result
        (text.new ≡ text.old ++ words_of_fault exchange.now fault.now jobs records) }
{
    add_number(text, b" job ", fault.job)?;
    text.append(b" ")?;
    text.append(fault_word(fault.fault))?;
    text.append(b" at ")?;
    add_point(text, exchange, fault.point)?;
    add_number(text, b" jobs ", jobs)?;
    add_number(text, b" records ", u64::from(records))
}
