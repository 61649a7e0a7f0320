// A set of places among the items of a mask.
ghost use Rattle.std.specs.Prelude.{◌≡◌, ◌==◌, ◌↔◌, ◌⊎◌, ℕ, ◌<◌, ◌≤◌, IsTrue, MatchOption};
ghost use Rattle.std.specs.Int.{bit_at};

/// A set of places from 0 to 127, as the bits of a number.
#[derive(Clone, Copy)]
pub struct Places {
    pub bits: u128,
}

impl Places {
    /// Returns the set without places.
    pub fn none() -> Places
        ensures { result.bits ≡ 0 }
    {
        Places { bits: 0 }
    }

    /// Returns whether the set has no places.
    pub fn is_none(self) -> bool
        ensures { result ≡ (self.bits == 0) }
    {
        self.bits == 0
    }

    /// Returns the set with `place` added.
    pub fn with(self, place: usize) -> Places
        requires { place < 128 }
        ensures { (q : ℕ) → (bit_at result.bits q ≡ 1) ↔ ((bit_at self.bits q ≡ 1) ⊎ (q ≡ place)) }
    {
        Places {
            bits: self.bits | 1 << place,
        }
    }

    /// Returns the first place of the set that is at least `from`.
    pub fn first_from(self, from: usize) -> Option<usize>
        requires { from < 128 }
        ensures { MatchOption result ((q : ℕ) → from ≤ q → bit_at self.bits q ≡ 0)
            (λ at. (from ≤ at) × (at < 128) × (bit_at self.bits at ≡ 1) × ((q : ℕ) → from ≤ q → q < at → bit_at self.bits q ≡ 0)) }
    {
        let rest = self.bits >> from;
        if rest == 0 {
            return None;
        }
        Some(from + rest.trailing_zeros() as usize)
    }

    /// Returns whether `place` is in the set.
    pub fn has(self, place: usize) -> bool
        requires { place < 128 }
        ensures { IsTrue result ↔ (bit_at self.bits place ≡ 1) }
    {
        self.bits >> place & 1 == 1
    }
}
