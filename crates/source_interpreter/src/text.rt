// What the exchange says of its blocks, signals and entries. Past their last each answer is that of
// the definitions.
ghost use Rattle.std.specs.Prelude.{◌≡◌, false, drop, slice_get};
ghost use Rattle.std.specs.Option.{option_map_or};
ghost use Rattle.source_meaning.specs.Config.{base_of, body_of, label_of, is_receiver, receiver_of};
ghost use Rattle.source_meaning.specs.Config.{enter_place as place_of_enter};
ghost use Rattle.source_meaning.specs.Config.{entry_number as number_of_entry};
ghost use Rattle.source_meaning.specs.Changes.{variable_width as width_of_variable};
ghost use Rattle.source_meaning.specs.Changes.{value_count as count_of_values};
ghost use Rattle.source_interpreter.specs.declared.cases.Cases.{Cases};
ghost use Rattle.source_interpreter.specs.Cases.{AreTablesOf};
ghost use Rattle.source_interpreter.specs.Kept.{AreOfText};

use exchange_model::{Exchange, Stmt};

/// The statements of a block, and none of a block that is not there.
#[tactic(auto, using(crate::proofs::Texts::text_of, crate::proofs::Texts::no_text))]
pub fn body(exchange: &Exchange, block: u32) -> &[Stmt]
    ensures body { result.now ≡ body_of exchange.now block }
    ensures of_text { (cases : Cases) → AreTablesOf cases exchange.now.blocks
        → AreOfText cases result.now }
{
    exchange.kept();
    match exchange.blocks.get(block as usize) {
        Some(block) => block.body.as_slice(),
        None => &[],
    }
}

/// The statements from a place on.
pub fn from(statements: &[Stmt], place: u32) -> &[Stmt]
    ensures rest { result.now ≡ drop place statements.now }
    ensures of_text { (cases : Cases) → AreOfText cases statements.now
        → AreOfText cases result.now }
{
    let place = place as usize;
    if place < statements.len() {
        &statements[place..]
    } else {
        &[]
    }
}

/// The cell of a block's first variable.
#[tactic(auto, unfolding(source_meaning::specs::Config::base_of))]
pub fn first_cell(exchange: &Exchange, block: u32) -> u32
    ensures { result ≡ base_of exchange.now block }
{
    exchange.first_cell(block)
}

/// The place of a label.
pub fn label_place(exchange: &Exchange, block: u32, label: u32) -> u32
    ensures { result ≡ label_of exchange.now block label }
{
    exchange
        .blocks
        .get(block as usize)
        .and_then(|block| block.labels.get(label as usize))
        .map_or(0, |label| label.place)
}

/// The place of the ENTER of a signal.
#[tactic(auto, using(crate::proofs::Texts::enter_is))]
pub fn enter_place(exchange: &Exchange, block: u32, signal: u32) -> u32
    ensures { result ≡ place_of_enter exchange.now block signal }
{
    exchange.enter_of(block, signal).unwrap_or(0)
}

/// The width of a variable.
pub fn variable_width(exchange: &Exchange, block: u32, variable: u32) -> u8
    ensures { result ≡ width_of_variable exchange.now block variable }
{
    exchange
        .blocks
        .get(block as usize)
        .and_then(|block| block.variables.get(variable as usize))
        .map_or(0, |variable| variable.width)
}

/// The entry of a signal at a block, by its place in the list of entries.
pub fn entry_number(exchange: &Exchange, block: u32, signal: u32) -> u32
    ensures { result ≡ number_of_entry exchange.now block signal }
{
    exchange.entry_of(block, signal).unwrap_or(0)
}

/// The block that a reference names, where it receives the signal. A reference is 1 plus a block's
/// number.
pub fn receiver_of(exchange: &Exchange, signal: u32, reference: u32) -> Option<u32>
    ensures { result ≡ receiver_of exchange.now signal reference }
{
    let block = reference.checked_sub(1)?;
    if receives(exchange, block, signal) {
        Some(block)
    } else {
        None
    }
}

// Whether a block receives a signal.
#[tactic(auto, using(crate::proofs::Texts::receives_is))]
fn receives(exchange: &Exchange, block: u32, signal: u32) -> bool
    ensures { result ≡ option_map_or (is_receiver signal)
        (slice_get exchange.now.blocks block) false }
{
    exchange.enter_of(block, signal).is_some()
}

/// How many values a signal has.
pub fn value_count(exchange: &Exchange, signal: u32) -> u8
    ensures { result ≡ count_of_values exchange.now signal }
{
    exchange
        .signals
        .get(signal as usize)
        .map_or(0, |signal| signal.count())
}
