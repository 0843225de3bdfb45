// The shared words as the root's seat sees them.
ghost use Rattle.std.specs.Prelude.{◌≡◌};

use machine_code::Words;
use shared_store::{RootSeat, SharedStore};

/// The words of a store by its root's seat: those that no live loan may write may be read, and
/// those that none may read may be written. They tell no touches.
pub struct RootWords<'a> {
    store: &'a SharedStore,
    root: RootSeat,
    ghost home: { root.0 ≡ store.now },
}

impl<'a> RootWords<'a> {
    /// The words of this store, of which this is the root's seat.
    pub fn new(store: &'a SharedStore, root: RootSeat) -> RootWords<'a>
        requires { root.0 ≡ store.now }
        ensures store { result.store.now ≡ store.now }
        ensures root { result.root ≡ root }
    {
        RootWords { store, root }
    }

    /// The root's seat back.
    pub fn into_root(self) -> RootSeat
        ensures { result ≡ self.entry.root }
    {
        let RootWords { store: _, root } = self;
        root
    }
}

impl<'a> Words for RootWords<'a> {
    ghost use Rattle.std.specs.Prelude.{◌≡◌, None};
    ghost use Rattle.std.proofs.Common.{refl, ◌∙◌};
    ghost use Rattle.job_runner.specs.Seen.{free_to_read, free_to_write, free_to_read_fits};
    ghost use Rattle.job_runner.specs.Seen.{free_to_write_fits};

    ghost values = { λ a. a.root.1.values };

    ghost may_read = { λ a. free_to_read a.root.1 };

    ghost may_write = { λ a. free_to_write a.root.1 };

    ghost told = { λ _. None };

    ghost like = { λ a b. (a.root.0 ≡ b.root.0) × (a.root.1.loans ≡ b.root.1.loans) };

    fn read(&mut self, word: u32) -> u32 {
        self.store.root_load(&mut self.root, word)
    }

    fn write(&mut self, word: u32, value: u32) {
        self.store.root_store(&mut self.root, word, value);
    }

    ghost read_fits = { λ a. free_to_read_fits a.root.1 };

    ghost write_fits = { λ a. free_to_write_fits a.root.1 };

    ghost like_refl = { λ a. (refl, refl) };

    ghost like_trans = { λ a b c p q. (p.0 ∙ q.0, p.1 ∙ q.1) };
}
