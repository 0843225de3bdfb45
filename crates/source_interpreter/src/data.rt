// Statements that give a temporary or a stored word a value.
ghost use Rattle.std.specs.Prelude.{◌≡◌};
ghost use Rattle.exchange_model.specs.declared.stmt.StmtKind.TheOpen as stmt;
ghost use Rattle.source_interpreter.specs.Checks.{range_check};
ghost use Rattle.source_interpreter.specs.Kept.{IsExprOfText};
ghost use Rattle.source_interpreter.specs.Leaves.{Does};

use crate::place::place_of;
use crate::run::Run;
use crate::stop::Stop;
use crate::words::put_cell;
use exchange_model::Expr;
use job_types::Fault;
use plex_num::{Seq, fits};

impl<'a> Run<'a> {
    /// The temporary gets the value.
    #[tactic(auto, using(crate::proofs::Puts::set_temp_goes, crate::proofs::Puts::set_temp_stops))]
    pub fn assign_temp(&mut self, store: &Seq<u32>, temp: u8, value: &Expr) -> Result<(), Stop>
        requires { IsExprOfText value.now }
        ensures { Does (stmt.SetTemp temp value.now) self.old store.now result self.new store.now }
    {
        let value = self.value(value, store)?;
        self.set_temp(temp, value);
        Ok(())
    }

    /// The variable gets the value, unless that is too wide.
    #[tactic(auto, using(crate::proofs::Puts::set_variable_goes, crate::proofs::Puts::set_variable_stops, crate::proofs::Puts::set_variable_wide))]
    pub fn assign_variable(
        &mut self,
        store: &mut Seq<u32>,
        variable: u32,
        value: &Expr,
    ) -> Result<(), Stop>
        requires { IsExprOfText value.now }
        ensures { Does (stmt.SetVariable variable value.now)
            self.old store.old result self.new store.new }
    {
        let value = self.value(value, store)?;
        check_width(value, self.variable_width(variable))?;
        put_cell(store, self.variable_cell(variable), value);
        Ok(())
    }

    /// The field of a record gets the value, unless the pointer is wrong or the value too wide.
    #[tactic(auto, using(crate::proofs::Puts::set_fields))]
    pub fn assign_field(
        &mut self,
        store: &mut Seq<u32>,
        file: u32,
        field: u32,
        pointer: u8,
        value: &Expr,
    ) -> Result<(), Stop>
        requires { IsExprOfText value.now }
        ensures { Does (stmt.SetField file field pointer value.now)
            self.old store.old result self.new store.new }
    {
        let value = self.value(value, store)?;
        let Some(place) = place_of(self.exchange(), file) else {
            return Ok(());
        };
        let number = self.temp(pointer);
        self.check_record(file, &place, number)?;
        check_width(value, place.width(field))?;
        put_cell(store, place.field_cell(number, field), value);
        Ok(())
    }
}

// Looks whether a value fits so many bits.
fn check_width(value: u32, width: u8) -> Result<(), Fault>
    ensures { result ≡ range_check value width }
{
    if fits(value, width) {
        Ok(())
    } else {
        Err(Fault::Range)
    }
}
