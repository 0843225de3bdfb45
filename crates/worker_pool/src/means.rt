// What jobs are run with.
use exchange_model::Exchange;
use machine_code::Code;
use shared_store::SharedStore;

/// What the jobs of one dispatch are run with: their exchange, its code, and the store of which
/// they are lent words.
#[derive(Clone, Copy)]
pub struct Means<'e> {
    pub exchange: &'e Exchange,
    pub code: &'e Code,
    pub store: &'e SharedStore,
}
