// What the words of a permit are, said by a clause.
ghost use Rattle.std.specs.Prelude.{◌≡◌, ℕ, ◌+◌, ◌*◌, ◌<◌, true};
ghost use Rattle.machine_code.specs.Permits.{spans};

use crate::permit::Span;

/// A span has the words first + i * stride for each i below its count, and no other word.
pub fn span_has_its_words_alone(span: &Span)
    ensures each { (i : ℕ) → i < span.now.count →
        spans span.now (span.now.first + i * span.now.stride) ≡ true }
    ensures alone { (w : ℕ) → spans span.now w ≡ true →
        (i : ℕ) × (i < span.now.count) × (span.now.first + i * span.now.stride ≡ w) }
{}
