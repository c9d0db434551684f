//! Worked cases of the rules, as a theorem.
ghost use Rattle.std.specs.Prelude.{◌≡◌};
ghost use Rattle.credit.specs.Worked.{Worked};

// How many cases are worked.
const CASES: u8 = 7;

/// The worked cases of the rules hold. Answers how many there are.
pub fn worked_credit() -> u8
    ensures count { result ≡ 7 }
    ensures hold { Worked }
{
    CASES
}
