// Instructions at the end of a list.
ghost use Rattle.std.specs.Prelude.{◌≡◌, ◌++◌, OnOk, OnErr};
ghost use Rattle.expr_code.specs.Sites.{Begins};

use machine_code::Op;
use plex_num::{Memory, Seq};

/// Appends these instructions; after `Memory` the list begins as before.
#[tactic(auto, using(crate::proofs::Emits::begins_is))]
pub fn push_all(ops: &mut Seq<Op>, more: &[Op]) -> Result<(), Memory>
    ensures code { OnOk result (ops.new ≡ ops.old ++ more.now) }
    ensures begins { OnErr result (Begins ops.old ops.new) }
{
    for op in more {
        ops.push(*op)?;
    }
    Ok(())
}
