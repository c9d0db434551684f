//! What an announcement means to code that knows only the trait.
ghost use Rattle.std.specs.Prelude.{◌≡◌, ℕ, List};
ghost use Rattle.detector.specs.Laws.{ExactlyOver};

use crate::detector::Detector;

/// Whether all is over. Of a detector in balance with what waits, the answer is yes exactly if no node is active and
/// nothing waits.
pub fn is_over<D: Detector>(d: &D) -> bool
    ensures value { result ≡ D.meaning.announced d.now }
    ensures exact { (marks items : List ℕ) → D.meaning.balance d.now marks items → ExactlyOver D.meaning d.now marks items result }
{
    d.has_announced()
}
