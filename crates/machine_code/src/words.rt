ghost use Rattle.std.specs.Prelude.{◌≡◌, ℕ, ◌<◌, ◌^◌, Bool, true, List, Option, slice_index};
ghost use Rattle.std.specs.Prelude.{slice_set};
ghost use Rattle.job_types.specs.declared.touch.Touch.{Touch};
ghost use Rattle.machine_code.specs.Told.{told_more};

use plex_num::Seq;

/// Words as the machine sees them: numbers of 32 bits, each of which may be read or written where
/// the object lets it.
pub trait Words {
    // The value of each word, in order.
    ghost values: { Self → List ℕ };

    // The words that may be read.
    ghost may_read: { Self → ℕ → Bool };

    // The words that may be written.
    ghost may_write: { Self → ℕ → Bool };

    // The touches so far, where the object tells them.
    ghost told: { Self → Option (List Touch) };

    // Whether the two differ in values and touches alone.
    ghost like: { Self → Self → Type 0 };

    /// The value of a word that may be read.
    fn read(&mut self, word: u32) -> u32
        requires { may_read self.old word ≡ true }
        ensures value { result ≡ slice_index (values self.old) word }
        ensures values { values self.new ≡ values self.old }
        ensures allowed { (may_read self.new ≡ may_read self.old)
            × (may_write self.new ≡ may_write self.old) }
        ensures told { told self.new ≡ told_more (told self.old) (Touch.Load word result) }
        ensures like { like self.old self.new };

    /// Gives a word that may be written its value; no other word changes.
    fn write(&mut self, word: u32, value: u32)
        requires { may_write self.old word ≡ true }
        ensures values { values self.new ≡ slice_set (values self.old) word value }
        ensures allowed { (may_read self.new ≡ may_read self.old)
            × (may_write self.new ≡ may_write self.old) }
        ensures told { told self.new ≡ told_more (told self.old) (Touch.Store word value) }
        ensures like { like self.old self.new };

    // Each word that may be read is below 2^32.
    ghost read_fits: { (a : Self) (w : ℕ) → may_read a w ≡ true → w < 2 ^ 32 };

    // Each word that may be written is below 2^32.
    ghost write_fits: { (a : Self) (w : ℕ) → may_write a w ≡ true → w < 2 ^ 32 };

    ghost like_refl: { (a : Self) → like a a };

    ghost like_trans: { (a b c : Self) → like a b → like b c → like a c };
}

/// A list is words that may all be read and written. It tells no touches, and keeps its length.
impl Words for Seq<u32> {
    ghost use Rattle.std.specs.Prelude.{◌≡◌, None, length};
    ghost use Rattle.std.proofs.Common.{refl, ◌∙◌};
    ghost use Rattle.machine_code.specs.Listed.{is_word_of, word_fits};

    ghost values = { λ s. s };

    ghost may_read = { is_word_of };

    ghost may_write = { is_word_of };

    ghost told = { λ _. None };

    ghost like = { λ a b. length a ≡ length b };

    fn read(&mut self, word: u32) -> u32 {
        self.as_slice()[word as usize]
    }

    fn write(&mut self, word: u32, value: u32) {
        self.set(word as usize, value);
    }

    ghost read_fits = { word_fits };

    ghost write_fits = { word_fits };

    ghost like_refl = { λ a. refl };

    ghost like_trans = { λ a b c p q. p ∙ q };
}
