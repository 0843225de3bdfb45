// Statements on the records of files.
ghost use Rattle.std.specs.Prelude.{◌≡◌};
ghost use Rattle.exchange_model.specs.declared.stmt.StmtKind.TheOpen as stmt;
ghost use Rattle.source_interpreter.specs.Kept.{IsExprOfText};
ghost use Rattle.source_interpreter.specs.Leaves.{Does};

use crate::place::place_of;
use crate::run::Run;
use crate::stop::Stop;
use crate::words::put_cell;
use exchange_model::{Expr, Rel};
use job_types::Fault;
use plex_num::Seq;

impl<'a> Run<'a> {
    /// FOR FIRST: the temporary gets the least record whose field stands so to the value, and the
    /// job goes on at the label; where there is none, it goes on here.
    #[tactic(auto, using(crate::proofs::Searching::firsts))]
    pub fn go_to_first(
        &mut self,
        store: &Seq<u32>,
        temp: u8,
        file: u32,
        field: u32,
        rel: Rel,
        value: &Expr,
        label: u32,
    ) -> Result<(), Stop>
        requires { IsExprOfText value.now }
        ensures { Does (stmt.ForFirst temp file field rel value.now label)
            self.old store.now result self.new store.now }
    {
        let value = self.value(value, store)?;
        let Some(place) = place_of(self.exchange(), file) else {
            return Ok(());
        };
        match place.first_where(store.as_slice(), field, rel, value) {
            Some(number) => {
                self.set_temp(temp, number);
                self.go_to(label)?;
                Ok(())
            }
            None => Ok(()),
        }
    }

    /// SEIZE: the least free record joins the chain and is marked, and the temporary gets its
    /// number; where there is none, the job goes on at the label.
    #[tactic(auto, using(crate::proofs::Searching::seizures))]
    pub fn seize(
        &mut self,
        store: &mut Seq<u32>,
        temp: u8,
        file: u32,
        label: u32,
    ) -> Result<(), Stop>
        ensures { Does (stmt.Seize temp file label) self.old store.old result self.new store.new }
    {
        let Some(place) = place_of(self.exchange(), file) else {
            return Ok(());
        };
        if !self.has_forlopp() {
            return Err(Stop::Fault(Fault::NoForlopp));
        }
        match place.first_free(store.as_slice()) {
            Some(number) => {
                self.hold(file, number)?;
                put_cell(store, place.mark_cell(number), 1);
                self.set_temp(temp, number);
                Ok(())
            }
            None => {
                self.go_to(label)?;
                Ok(())
            }
        }
    }

    /// FREE: the fields of a record get their INIT values, and it is marked free and leaves the
    /// chain.
    #[tactic(auto, using(crate::proofs::Searching::free_goes, crate::proofs::Searching::free_wrong, crate::proofs::Searching::free_nowhere))]
    pub fn free(&mut self, store: &mut Seq<u32>, temp: u8, file: u32) -> Result<(), Stop>
        ensures { Does (stmt.Free temp file) self.old store.old result self.new store.new }
    {
        let Some(place) = place_of(self.exchange(), file) else {
            return Ok(());
        };
        let number = self.temp(temp);
        self.check_record(file, &place, number)?;
        place.open(store, number);
        self.let_go(file, number);
        Ok(())
    }
}
