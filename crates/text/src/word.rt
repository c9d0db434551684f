//! Values that a text names by a word.
ghost use Rattle.std.specs.Prelude.{◌≡◌, ◌≢◌, ℕ, List, Contains, MatchResult};

use crate::number::FieldFault;

/// A value that a text names by a word.
pub trait Word: Copy + 'static {
    // the word of a value
    ghost word: { Self → List ℕ };

    /// The word.
    fn word(self) -> &'static [u8]
        ensures { result.now ≡ word self };

    /// All values.
    fn all() -> &'static [Self]
        ensures { (value : Self) → Contains result.now value };
}

/// The value that a word names.
pub fn word_of<W: Word>(text: &[u8]) -> Result<W, FieldFault>
    ensures { MatchResult result (λ value. text.now ≡ W.word value) (λ _. ((value : W) → text.now ≢ W.word value)) }
{
    W::all()
        .iter()
        .find(|value| value.word() == text)
        .copied()
        .ok_or(FieldFault)
}
