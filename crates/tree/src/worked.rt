//! Worked cases of the tree: the contract is a theorem.
ghost use Rattle.std.specs.Prelude.{◌≡◌};
ghost use Rattle.tree.specs.Worked.{Worked};

// How many cases are worked.
const WORKED: u8 = 2;

/// The worked cases of the greatest deficit hold. Answers how many there are.
pub fn worked_tree() -> u8
    ensures count { result ≡ 2 }
    ensures hold { Worked }
{
    WORKED
}
