//! The recovered credit, as a set of places.
ghost use Rattle.std.specs.Prelude.{◌≡◌, ℕ, ◌+◌, ◌<◌, ◌≤◌, ◌↔◌, true, false, length, replicate, IsTrue, MatchOption, All, slice_index_or};
ghost use Rattle.credit.specs.Places.{value, whole, credit_of, IsLastFree, Added, carried};

/// A set of the places 0 to 1,000, of which place e is worth the credit of exponent e, and all together at most one.
#[derive(Debug, PartialEq, Eq, Hash, Drop)]
pub struct Places {
    pub taken: [bool; 1001],
    ghost width: { length taken ≡ 1001 },
    ghost part: { value taken ≤ whole },
}

impl Places {
    // No place is taken.
    pub fn none() -> Places
        ensures all { result.taken ≡ replicate 1001 false }
        ensures free { (k : ℕ) → slice_index_or result.taken k false ≡ false }
    {
        Places {
            taken: [false; 1001],
        }
    }

    // Whether the sum with one more credit is at most one. A free place from 1 to e ends the carrying before it comes to
    // place 0. Where there is none it takes place 0, which is one already, so nothing else may be left.
    pub fn fits(&self, e: u16) -> bool
        requires { e ≤ 1000 }
        ensures { IsTrue result ↔ (value self.now.taken + credit_of e ≤ whole) }
    {
        let e = usize::from(e);
        !self.taken[0]
            && (last_free(&self.taken[1..=e]).is_some() || !self.taken[e + 1..].contains(&true))
    }

    // One more credit: the nearest free place towards place 0 is taken, and those passed on the way are freed. There is
    // one, since with all of them taken the sum would be more than one.
    pub fn add(&mut self, e: u16)
        requires small { e ≤ 1000 }
        requires room { value self.old.taken + credit_of e ≤ whole }
        ensures carries { self.new.taken ≡ carried self.old.taken e }
        ensures places { Added self.old.taken e self.new.taken }
        ensures sum { value self.new.taken ≡ value self.old.taken + credit_of e }
    {
        let e = usize::from(e);
        let place = last_free(&self.taken[..=e]).unwrap();
        carry(&mut self.taken, place, e);
    }
}

// Takes a place, and frees those behind it up to place e.
fn carry(taken: &mut [bool], place: usize, e: usize)
    requires order { place ≤ e }
    requires inside { e < length taken.old }
    ensures size { length taken.new ≡ length taken.old }
    ensures is_taken { slice_index_or taken.new place false ≡ true }
    ensures are_free { (k : ℕ) → place < k → k ≤ e → slice_index_or taken.new k false ≡ false }
    ensures same_before { (k : ℕ) → k < place → slice_index_or taken.new k false ≡ slice_index_or taken.old k false }
    ensures same_beyond { (k : ℕ) → e < k → slice_index_or taken.new k false ≡ slice_index_or taken.old k false }
{
    taken[place] = true;
    taken[place + 1..=e].fill(false);
}

// The last free one of these places.
fn last_free(places: &[bool]) -> Option<usize>
    ensures { MatchOption result (All IsTrue places.now) (IsLastFree places.now) }
{
    places.iter().rposition(|taken| !*taken)
}
