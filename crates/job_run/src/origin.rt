// That a run ends, known where it begins, and told to all that is made of it.
ghost use Rattle.machine_meaning.specs.Steps.{Stops, Stops-prop};

use std::marker::{Brand, PhantomData};

/// Where a run begins. A call at `Brand` picks it from its arguments.
pub trait Origin {
    ghost use Rattle.std.specs.Prelude.{ℕ, List};
    ghost use Rattle.machine_code.specs.declared.op.Op.{Op};
    ghost use Rattle.machine_meaning.specs.Private.{Private};

    ghost ops: { List Op };

    ghost run: { Private };

    ghost words: { List ℕ };
}

impl Origin for Brand {
    ghost use Rattle.std.specs.Prelude.{[]};
    ghost use Rattle.machine_meaning.specs.Private.{idle};

    ghost ops = { [] };

    ghost run = { idle };

    ghost words = { [] };
}

/// That a run from there ends. It has no bytes.
#[derive(Drop)]
pub struct Ending<O: Origin> {
    of: PhantomData<O>,
    ghost stops: { Stops O.ops O.run O.words } by { Stops-prop O.ops O.run O.words },
}

impl<O: Origin> Ending<O> {
    /// That a run from there ends, which must be so.
    pub fn new() -> Ending<O>
        requires { Stops O.ops O.run O.words }
    {
        Ending { of: PhantomData }
    }
}
