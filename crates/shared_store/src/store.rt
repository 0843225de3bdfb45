ghost use Rattle.std.specs.Prelude.{◌≡◌, ◌<◌, true, false, length, slice_index, IfOk};
ghost use Rattle.machine_code.specs.Permits.{may_read, may_write};
ghost use Rattle.job_types.specs.declared.touch.Touch.TheVariants.{Load, Store};
ghost use Rattle.shared_store.specs.Places.{place};
ghost use Rattle.shared_store.specs.Loans.{current, touched, lender, borrower, taken_back};
ghost use Rattle.shared_store.specs.Loans.{lent_out, seen_by, FitsBeside, unlent, with_value};

use crate::row::{free_words, table_row};
use crate::rule::{Cut, Look, Put, Rejoin, RootLook, RootPut, Rule, Terms};
use crate::seat::{JobSeat, RootSeat};
use crate::view::View;
use atomic_table::Table;
use job_types::JobStart;
use machine_code::Permit;
use plex_num::{Memory, Seq};
use std::alloc::{AllocError, Global};
use std::marker::{Brand, Model};

/// The words that jobs share. Contracts see which store it is; what its words are is seen through
/// the seats.
#[derive(Drop)]
pub struct SharedStore {
    table: Table<(), View, Seq<u32>, Rule, Global>,
    /// How many words of the table there are from one cell to the next.
    stride: usize,
}

impl Model for SharedStore {
    ghost use Rattle.atomic_table.specs.Seated.{TableId, table_id_coded};

    ghost Value = { TableId };

    ghost coded = { table_id_coded };

    ghost view = { λ s. s.table.shared.table_id };

    ghost use Rattle.shared_store.specs.Seats.{IsStride};

    ghost invariant = { λ s. IsStride s.stride s.table.shared.table_id };
}

impl SharedStore {
    /// A store of these words, one for each cell, and its root, which has lent nothing.
    pub fn new(alloc: Global, words: &Seq<u32>) -> Result<(SharedStore, RootSeat), Memory>
        ensures { IfOk result (λ made. made.1 ≡ (made.0, unlent words.now)) }
    {
        match table_of(alloc, words) {
            Ok(made) => Ok(made),
            Err(_) => Err(Memory),
        }
    }

    /// Lends the words of a permit to a job: its seat has touched nothing, and its base values are
    /// the root's. The root lists one loan more. No live loan may write a word of the permit, and
    /// the permit lets no word of a live loan be written.
    pub fn lend(&self, root: &mut RootSeat, start: &JobStart, permit: Permit) -> JobSeat
        requires store { root.old.0 ≡ self.now }
        requires permit { FitsBeside root.old.1.loans permit }
        ensures seat { result ≡ (root.old.0, borrower start.now permit root.old.1) }
        ensures root { root.new ≡ (root.old.0, lender start.now permit root.old.1) }
    {
        self.lend_of::<Brand>(root, start, &permit)
    }

    /// The loan of the start and permit that the terms name: the caller holds no permit, and picks
    /// one in its proof.
    pub fn lend_as<T: Terms>(&self, root: &mut RootSeat, start: &JobStart) -> JobSeat
        requires terms { T.start ≡ start.now }
        requires store { root.old.0 ≡ self.now }
        requires permit { FitsBeside root.old.1.loans T.permit }
        ensures seat { result ≡ (root.old.0, borrower start.now T.permit root.old.1) }
        ensures root { root.new ≡ (root.old.0, lender start.now T.permit root.old.1) }
    {
        let _ = start;
        let seat = self.table.shared.split_seat::<Cut<T>>(&mut root.seat);
        JobSeat { seat }
    }

    /// The same where the terms name a permit that is at hand.
    fn lend_of<T: Terms>(&self, root: &mut RootSeat, start: &JobStart, permit: &Permit) -> JobSeat
        requires terms { (T.start ≡ start.now) × (T.permit ≡ permit.now) }
        requires store { root.old.0 ≡ self.now }
        requires permit { FitsBeside root.old.1.loans permit.now }
        ensures seat { result ≡ (root.old.0, borrower start.now permit.now root.old.1) }
        ensures root { root.new ≡ (root.old.0, lender start.now permit.now root.old.1) }
    {
        let _ = permit;
        self.lend_as::<T>(root, start)
    }

    /// Ends a loan: the root has the seat's last stored values, and lists that loan no more.
    pub fn take_back(&self, root: &mut RootSeat, seat: JobSeat)
        requires root { root.old.0 ≡ self.now }
        requires seat { seat.0 ≡ self.now }
        ensures { root.new ≡ (root.old.0, taken_back root.old.1 seat.1) }
    {
        let JobSeat { seat: other } = seat;
        self.table.shared.join_seat::<Rejoin>(&mut root.seat, other);
    }

    /// The value of a word of the seat's permit: the seat's own last store to it, or else its base
    /// value.
    pub fn load(&self, seat: &mut JobSeat, word: u32) -> u32
        requires store { seat.old.0 ≡ self.now }
        requires cell { word < length seat.old.1.lent.base }
        requires permit { may_read seat.old.1.lent.permit word ≡ true }
        ensures value { result ≡ slice_index (current seat.old.1) word }
        ensures seat { seat.new ≡ (seat.old.0, touched seat.old.1 (Load word result)) }
    {
        let place = self.place_of(word);
        let found = self.table.shared.load::<Look>(&mut seat.seat, place);
        found as u32
    }

    /// Gives a word that the seat's permit lets be written its value.
    pub fn store(&self, seat: &mut JobSeat, word: u32, value: u32)
        requires store { seat.old.0 ≡ self.now }
        requires cell { word < length seat.old.1.lent.base }
        requires permit { may_write seat.old.1.lent.permit word ≡ true }
        ensures { seat.new ≡ (seat.old.0, touched seat.old.1 (Store word value)) }
    {
        let place = self.place_of(word);
        self.table
            .shared
            .store::<Put>(&mut seat.seat, place, value as u64);
    }

    /// The root's value of a word that no live loan may write.
    pub fn root_load(&self, root: &mut RootSeat, word: u32) -> u32
        requires store { root.old.0 ≡ self.now }
        requires cell { word < length root.old.1.values }
        requires free { lent_out root.old.1.loans word ≡ false }
        ensures value { result ≡ slice_index root.old.1.values word }
        ensures same { root.new ≡ root.old }
    {
        let place = self.place_of(word);
        let found = self.table.shared.load::<RootLook>(&mut root.seat, place);
        found as u32
    }

    /// Gives a word that no live loan may read or write its value.
    pub fn root_store(&self, root: &mut RootSeat, word: u32, value: u32)
        requires store { root.old.0 ≡ self.now }
        requires cell { word < length root.old.1.values }
        requires free { seen_by root.old.1.loans word ≡ false }
        ensures { root.new ≡ (root.old.0, with_value root.old.1 word value) }
    {
        let place = self.place_of(word);
        self.table
            .shared
            .store::<RootPut>(&mut root.seat, place, value as u64);
    }

    /// The table's word of a cell.
    fn place_of(&self, word: u32) -> usize
        ensures { result ≡ place self.now.slots word }
    {
        (word as usize + 1) * self.stride
    }
}

/// The table of these words, and the root's seat.
fn table_of(alloc: Global, words: &Seq<u32>) -> Result<(SharedStore, RootSeat), AllocError>
    ensures { IfOk result (λ made. made.1 ≡ (made.0, unlent words.now)) }
{
    let values = words.as_slice();
    let free = free_words(values.len());
    let row = table_row(alloc, values, free)?;
    let slots = Vec::from_elem(alloc, (), free)?;
    match Table::new(alloc, row.as_slice(), slots, words) {
        Ok((table, seat)) => Ok((
            SharedStore {
                table,
                stride: free + 1,
            },
            RootSeat { seat },
        )),
        Err(_) => Err(AllocError),
    }
}
