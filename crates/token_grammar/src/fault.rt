/// Why a reading stopped.
#[derive(Drop)]
pub enum Fault {
    /// A token may not stand here, or the tokens are at their end. So many tokens were left, the
    /// one at fault among them; `deep` where it would be allowed if nesting had no limit.
    Stuck { left: usize, deep: bool },
    /// Memory was refused.
    Memory,
}
