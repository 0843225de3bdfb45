// One step of the machine: an instruction, and the word that it touches.
ghost use Rattle.std.specs.Prelude.{◌≡◌, ◌<◌, ◌^◌, None, length};
ghost use Rattle.machine_code.specs.Operands.{OpFits};
ghost use Rattle.machine_code.specs.Told.{told_all};
ghost use Rattle.machine_meaning.specs.Machine.{op_at, stepped, reach, HasRoom, MayTouch};

use crate::table::make_any;
use job_run::{JobRun, spot_at};
use machine_code::{Code, Op, Words};

/// Makes one instruction. The job must not have ended, the address of its next instruction must be
/// in the code, the operands of that instruction in their ranges, fewer than eight values outgoing
/// at an ARG, and the word that it reads or writes one that `words` lets it.
#[inline(always)]
pub fn step<W: Words>(run: &mut JobRun, code: &Code, words: &mut W)
    requires runs { run.old.over ≡ None }
    requires within { run.old.pc < length code.now.ops }
    requires operands { OpFits (op_at code.now.ops run.old.pc) }
    requires room { HasRoom (op_at code.now.ops run.old.pc) run.old }
    requires words { MayTouch (W.may_read words.old) (W.may_write words.old)
        (reach (op_at code.now.ops run.old.pc) run.old) }
    ensures run { run.new ≡ (stepped code.now.ops run.old (W.values words.old)).run }
    ensures values { W.values words.new ≡ (stepped code.now.ops run.old
        (W.values words.old)).world.store }
    ensures told { W.told words.new ≡ told_all (W.told words.old)
        (stepped code.now.ops run.old (W.values words.old)).world.trace }
    ensures allowed { (W.may_read words.new ≡ W.may_read words.old)
        × (W.may_write words.new ≡ W.may_write words.old) }
    ensures like { W.like words.old words.new }
{
    let ops = code.ops();
    let at = run.address();
    let from = spot_at(ops, at, run.steps());
    let way = make_any(run, instruction(ops, at), from, words);
    let next = from.stand().after(way, run.address());
    run.put(next);
}

/// The instruction at an address, which must be in the code.
fn instruction(ops: &[Op], at: usize) -> &Op
    requires { at < length ops.now }
    ensures op { result.now ≡ op_at ops.now at }
    ensures address { at < 2 ^ 63 }
{
    &ops[at]
}
