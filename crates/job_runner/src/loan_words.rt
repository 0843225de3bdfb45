// The shared words as the seat of a loan sees them.
ghost use Rattle.std.specs.Prelude.{◌≡◌};

use machine_code::Words;
use shared_store::{JobSeat, SharedStore};

/// The words of a store by the seat of a loan of it. The job may read and write the words of the
/// loan's permit, and the touches are those of the seat.
pub(crate) struct LoanWords<'a> {
    pub(crate) store: &'a SharedStore,
    pub(crate) seat: JobSeat,
    ghost home: { seat.0 ≡ store.now },
}

impl<'a> Words for LoanWords<'a> {
    ghost use Rattle.std.specs.Prelude.{◌≡◌, Some};
    ghost use Rattle.std.proofs.Common.{refl, ◌∙◌};
    ghost use Rattle.shared_store.specs.Loans.{current};
    ghost use Rattle.job_runner.specs.Seen.{readable, writable, readable_fits, writable_fits};

    ghost values = { λ a. current a.seat.1 };

    ghost may_read = { λ a. readable a.seat.1.lent };

    ghost may_write = { λ a. writable a.seat.1.lent };

    ghost told = { λ a. Some a.seat.1.touches };

    ghost like = { λ a b. (a.seat.0 ≡ b.seat.0) × (a.seat.1.lent ≡ b.seat.1.lent) };

    fn read(&mut self, word: u32) -> u32 {
        self.store.load(&mut self.seat, word)
    }

    fn write(&mut self, word: u32, value: u32) {
        self.store.store(&mut self.seat, word, value);
    }

    ghost read_fits = { λ a. readable_fits a.seat.1.lent };

    ghost write_fits = { λ a. writable_fits a.seat.1.lent };

    ghost like_refl = { λ a. (refl, refl) };

    ghost like_trans = { λ a b c p q. (p.0 ∙ q.0, p.1 ∙ q.1) };
}
