// What is asked at a statement.
ghost use Rattle.std.specs.Prelude.{◌≡◌, slice_get};
ghost use Rattle.exchange_model.specs.declared.stmt.StmtKind.{out-StmtKind};
ghost use Rattle.source_meaning.specs.Changes.{variable_width as width_of_variable};
ghost use Rattle.source_meaning.specs.Changes.{field_width as width_of_field};
ghost use Rattle.source_meaning.specs.Deeds.{receiver_in as receiver_layer};
ghost use Rattle.source_meaning.specs.Deeds.{signal_in as signal_layer};
ghost use Rattle.source_meaning.specs.Rests.{IsOfBlock};
ghost use Rattle.flow_table.specs.Alone.{IsExprIn};
ghost use Rattle.entry_summary.specs.Faults.{holder_source as source_of_holder};
ghost use Rattle.entry_faults.specs.Fields.{pointer_to as pointer_made};
ghost use Rattle.entry_faults.specs.Statements.{awaits_question as awaits_asked};
ghost use Rattle.entry_faults.specs.Statements.{call_question as call_asked};
ghost use Rattle.entry_faults.specs.Statements.{depth_question as depth_asked};
ghost use Rattle.entry_faults.specs.Statements.{end_question as end_asked};
ghost use Rattle.entry_faults.specs.Statements.{field_question as field_asked, file_at};
ghost use Rattle.entry_faults.specs.Statements.{held_question as held_asked};
ghost use Rattle.entry_faults.specs.Statements.{is_forlopp as is_forlopp_file};
ghost use Rattle.entry_faults.specs.Statements.{is_seize as is_seize_layer};
ghost use Rattle.entry_faults.specs.Statements.{own_pointer as own_pointer_layer, placed_as};
ghost use Rattle.entry_faults.specs.Statements.{pointer_question as pointer_asked};
ghost use Rattle.entry_faults.specs.Statements.{receiver_question as receiver_asked};
ghost use Rattle.entry_faults.specs.Statements.{wide_question as wide_asked};
ghost use Rattle.entry_faults.specs.Statements.{width_question as width_asked};

use crate::fields::Pointer;
use crate::question::{Asked, Question};
use exchange_model::{Exchange, Expr, FilePlace, Holder, Receiver, SignalKind, StmtKind};
use flow_points::{Slot, Source, Value};
use flow_table::source_of;
use plex_limits::MOST_CALLERS;

/// The record that a statement itself writes or frees.
pub fn own_pointer(kind: &StmtKind) -> Option<Pointer>
    ensures { result ≡ own_pointer_layer (out-StmtKind kind.now) }
{
    match kind {
        StmtKind::SetField { file, pointer, .. } => Some(pointer_to(*file, *pointer)),
        StmtKind::Free { temp, file } => Some(pointer_to(*file, *temp)),
        _ => None,
    }
}

fn pointer_to(file: u32, temp: u8) -> Pointer
    ensures { result ≡ pointer_made file temp }
{
    Pointer { file, temp }
}

/// The file of a number, if there is one.
#[tactic(auto, using(crate::proofs::Faulting::file_found))]
fn place_of(exchange: &Exchange, file: u32) -> Option<FilePlace<'_>>
    ensures { placed_as result ≡ file_at exchange.now file }
{
    exchange.file(file)
}

/// Whether a file is a forlopp file.
#[tactic(auto, using(crate::proofs::Faulting::forlopp_none, crate::proofs::Faulting::forlopp_some))]
pub fn is_forlopp(exchange: &Exchange, file: u32) -> bool
    ensures { result ≡ is_forlopp_file (file_at exchange.now file) }
{
    match place_of(exchange, file) {
        Some(place) => place.file.forlopp,
        None => false,
    }
}

/// Whether a pointer leads to no record of its file.
#[tactic(auto, using(crate::proofs::Faulting::size_none, crate::proofs::Faulting::size_some))]
pub fn pointer_question(exchange: &Exchange, pointer: Pointer) -> Option<Question>
    ensures { result ≡ pointer_asked exchange.now pointer }
{
    match place_of(exchange, pointer.file) {
        Some(place) => Some(Question {
            source: Source::Of(Slot::Temp(pointer.temp)),
            asked: Asked::AtLeast(place.file.size),
        }),
        None => None,
    }
}

/// The width of a variable.
fn variable_width(exchange: &Exchange, block: u32, variable: u32) -> u8
    ensures { result ≡ width_of_variable exchange.now block variable }
{
    exchange
        .blocks
        .get(block as usize)
        .and_then(|block| block.variables.get(variable as usize))
        .map_or(0, |variable| variable.width)
}

/// The width of a field of a file.
fn field_width(place: &FilePlace<'_>, field: u32) -> u8
    ensures { result ≡ width_of_field (record {
      block = place.now.block;
      file = place.now.file.now;
      first = place.now.first;
    }) field }
{
    place
        .file
        .fields
        .get(field as usize)
        .map_or(0, |field| field.width)
}

/// Whether the value of an expression does not fit so many bits.
fn wide_question(value: &Expr, width: u8) -> Question
    requires { IsExprIn value.now }
    ensures { result ≡ wide_asked value.now width }
{
    Question {
        source: source_of(value),
        asked: Asked::TooWide(width),
    }
}

#[tactic(auto, using(crate::proofs::Faulting::field_none, crate::proofs::Faulting::field_some))]
fn field_question(exchange: &Exchange, file: u32, field: u32, value: &Expr) -> Option<Question>
    requires { IsExprIn value.now }
    ensures { result ≡ field_asked (file_at exchange.now file) field value.now }
{
    match place_of(exchange, file) {
        Some(place) => Some(wide_question(value, field_width(&place, field))),
        None => None,
    }
}

/// Whether the value that a statement gives a variable or a field of a block is too wide.
pub fn width_question(exchange: &Exchange, block: u32, kind: &StmtKind) -> Option<Question>
    requires { IsOfBlock exchange.now block (out-StmtKind kind.now) }
    ensures { result ≡ width_asked exchange.now block (out-StmtKind kind.now) }
{
    exchange.kept();
    match kind {
        StmtKind::SetVariable { variable, value } => {
            let width = variable_width(exchange, block, *variable);
            Some(wide_question(value, width))
        }
        StmtKind::SetField {
            file,
            field,
            value,
            ..
        } => field_question(exchange, *file, *field, value),
        _ => None,
    }
}

/// Where the values of a holder come from.
fn holder_source(holder: Holder) -> Source
    ensures { result ≡ source_of_holder holder }
{
    match holder {
        Holder::Temporary(temp) => Source::Of(Slot::Temp(temp)),
        Holder::Variable(_) => Source::Is(Value::Any),
    }
}

fn receiver_in(kind: &StmtKind) -> Option<Receiver>
    ensures { result ≡ receiver_layer (out-StmtKind kind.now) }
{
    match kind {
        StmtKind::Send { to, .. } => *to,
        StmtKind::Transfer { to, .. } => *to,
        _ => None,
    }
}

fn signal_in(kind: &StmtKind) -> u32
    ensures { result ≡ signal_layer (out-StmtKind kind.now) }
{
    match kind {
        StmtKind::Send { signal, .. } => *signal,
        StmtKind::Transfer { signal, .. } => *signal,
        _ => 0,
    }
}

fn held_question(to: Option<Receiver>, signal: u32) -> Option<Question>
    ensures { result ≡ held_asked to signal }
{
    match to {
        Some(Receiver::Held(holder)) => Some(Question {
            source: holder_source(holder),
            asked: Asked::NoReceiver(signal),
        }),
        Some(Receiver::Block(_)) => None,
        None => None,
    }
}

/// Whether the reference of a statement is not that of a receiver.
pub fn receiver_question(kind: &StmtKind) -> Option<Question>
    ensures { result ≡ receiver_asked (out-StmtKind kind.now) }
{
    held_question(receiver_in(kind), signal_in(kind))
}

fn call_question(exchange: &Exchange, signal: u32) -> Option<Question>
    ensures { result ≡ call_asked (slice_get exchange.now.signals signal) }
{
    exchange.kept();
    match exchange.signals.get(signal as usize) {
        Some(SignalKind::Combined { .. }) => Some(Question {
            source: Source::Of(Slot::Depth),
            asked: Asked::Equal(MOST_CALLERS as u32),
        }),
        Some(SignalKind::Buffered { .. }) => None,
        Some(SignalKind::Direct { .. }) => None,
        Some(SignalKind::Answer { .. }) => None,
        Some(SignalKind::Outside { .. }) => None,
        None => None,
    }
}

/// Whether so many callers may wait at a combined SEND that no more may.
pub fn depth_question(exchange: &Exchange, kind: &StmtKind) -> Option<Question>
    ensures { result ≡ depth_asked exchange.now (out-StmtKind kind.now) }
{
    match kind {
        StmtKind::Send { signal, .. } => call_question(exchange, *signal),
        _ => None,
    }
}

/// Whether a caller waits at an end, or none waits for an answer.
pub fn end_question(kind: &StmtKind) -> Option<Question>
    ensures { result ≡ end_asked (out-StmtKind kind.now) }
{
    let source = Source::Of(Slot::Depth);
    match kind {
        StmtKind::Exit => Some(Question {
            source,
            asked: Asked::AtLeast(1),
        }),
        StmtKind::Finish => Some(Question {
            source,
            asked: Asked::AtLeast(1),
        }),
        StmtKind::Return { .. } => Some(Question {
            source,
            asked: Asked::Equal(0),
        }),
        _ => None,
    }
}

/// Whether the last caller waits for another answer.
pub fn awaits_question(kind: &StmtKind) -> Option<Question>
    ensures { result ≡ awaits_asked (out-StmtKind kind.now) }
{
    match kind {
        StmtKind::Return { answer, .. } => Some(Question {
            source: Source::Of(Slot::Awaits),
            asked: Asked::OtherAnswer(*answer),
        }),
        _ => None,
    }
}

/// Whether a statement seizes a record.
pub fn is_seize(kind: &StmtKind) -> bool
    ensures { result ≡ is_seize_layer (out-StmtKind kind.now) }
{
    matches!(kind, StmtKind::Seize { .. })
}
