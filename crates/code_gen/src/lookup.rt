// Where labels and ENTERs stand in the texts, which blocks receive a signal, and how wide a
// variable is.
ghost use Rattle.std.specs.Prelude.{◌≡◌, drop, slice_get, Some, None, MatchOption, false};
ghost use Rattle.std.specs.Option.{option_map_or};
ghost use Rattle.exchange_model.specs.declared.stmt.StmtKind.{out-StmtKind};
ghost use Rattle.source_meaning.specs.Config.{label_of, body_of, enter_place, is_receiver};
ghost use Rattle.exchange_model.specs.Kept.{is_enter as is_enter_layer};
ghost use Rattle.source_meaning.specs.Changes.{field_width, variable_width};
ghost use Rattle.code_gen.specs.Addresses.{opens_with_enter};
ghost use Rattle.code_gen.specs.Settings.{placed_of};

use exchange_model::{Exchange, FilePlace, SignalKind, StmtKind};

/// The place of a label of a block; 0 where there is none.
#[tactic(auto, using(source_meaning::proofs::Lookups::found_none, source_meaning::proofs::Lookups::label_none, source_meaning::proofs::Lookups::label_some))]
pub fn label_place(exchange: &Exchange, block: u32, label: u32) -> u32
    ensures { result ≡ label_of exchange.now block label }
{
    let Some(found) = exchange.blocks.get(block as usize) else {
        return 0;
    };
    match found.labels.get(label as usize) {
        Some(label) => label.place,
        None => 0,
    }
}

/// The width of a variable of a block; 0 where there is none.
#[tactic(auto, using(crate::proofs::Lookups::width_no_block, crate::proofs::Lookups::width_none, crate::proofs::Lookups::width_some))]
pub fn width_of(exchange: &Exchange, block: u32, variable: u32) -> u8
    ensures { result ≡ variable_width exchange.now block variable }
{
    let Some(found) = exchange.blocks.get(block as usize) else {
        return 0;
    };
    match found.variables.get(variable as usize) {
        Some(variable) => variable.width,
        None => 0,
    }
}

/// The place of the ENTER of a signal in a block; 0 where there is none.
#[tactic(auto, using(source_meaning::proofs::Entering::enter_found))]
pub fn place_of_enter(exchange: &Exchange, block: u32, signal: u32) -> u32
    ensures { result ≡ enter_place exchange.now block signal }
{
    exchange.enter_of(block, signal).unwrap_or(0)
}

/// Whether a block receives a signal.
#[tactic(auto, using(source_meaning::proofs::Entering::receives_is))]
pub fn receives(exchange: &Exchange, block: u32, signal: u32) -> bool
    ensures { result ≡ option_map_or (is_receiver signal)
        (slice_get exchange.now.blocks block) false }
{
    exchange.enter_of(block, signal).is_some()
}

/// The signal of this number; `None` exactly where there is none.
#[tactic(auto, using(crate::proofs::Files::signal_past))]
pub fn signal_of(exchange: &Exchange, number: u32) -> Option<&SignalKind>
    ensures { MatchOption result (slice_get exchange.now.signals number ≡ None)
        (λ s. slice_get exchange.now.signals number ≡ Some s.now) }
{
    exchange.signals.get(number as usize)
}

/// Whether an ENTER stands at a place of a block's text.
#[tactic(auto, using(crate::proofs::Lookups::opens_no_block, crate::proofs::Lookups::opens_no_place, crate::proofs::Lookups::opens_at))]
pub fn enters_at(exchange: &Exchange, block: u32, place: u32) -> bool
    ensures { result ≡ opens_with_enter (drop place (body_of exchange.now block)) }
{
    let Some(found) = exchange.blocks.get(block as usize) else {
        return false;
    };
    match found.body.get(place as usize) {
        Some(statement) => is_enter(&statement.kind),
        None => false,
    }
}

/// The width of a field of a file; 0 where there is none.
#[tactic(auto, using(crate::proofs::Lookups::field_none, crate::proofs::Lookups::field_some))]
pub fn width_of_field(place: &FilePlace<'_>, field: u32) -> u8
    ensures { result ≡ field_width (placed_of place.now) field }
{
    match place.file.fields.get(field as usize) {
        Some(field) => field.width,
        None => 0,
    }
}

/// Whether a statement is an ENTER.
pub fn is_enter(kind: &StmtKind) -> bool
    ensures { result ≡ is_enter_layer (out-StmtKind kind.now) }
{
    matches!(kind, StmtKind::Enter { .. })
}
