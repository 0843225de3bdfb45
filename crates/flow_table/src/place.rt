use exchange_model::StmtKind;

/// A statement of an exchange where it stands: its block, its point, what it does, and the point of
/// what follows it when nothing jumps.
#[derive(Clone, Copy)]
pub struct PlaceAt<'a> {
    pub block: u32,
    pub point: u32,
    pub kind: &'a StmtKind,
    pub next: Option<u32>,
}
