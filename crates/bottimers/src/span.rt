// The numbers of one item of a cron field, and sets of numbers as bits.
ghost use Rattle.std.specs.Prelude.{◌≡◌, ◌+◌, ◌-◌, ◌%◌, ◌<◌, ◌==◌, ◌&&◌, ◌||◌, ℕ};
ghost use Rattle.bottimers.specs.CronSets.{has};

// The numbers `first`, `first + step` and so on, up to `last`.
#[derive(Clone, Copy)]
pub(crate) struct Span {
    pub(crate) first: u8,
    pub(crate) last: u8,
    pub(crate) step: u8,
}

impl Span {
    ghost use Rattle.bottimers.specs.CronText.{in_span};

    // Returns these numbers as bits.
    pub(crate) fn bits(&self) -> u64
        requires { (0 < self.now.step) × (self.now.last < 64) }
        ensures { (n : ℕ) → has result n ≡ in_span self.now n }
    {
        let mut set = 0;
        for n in self.first..self.last + 1 {
            if (n - self.first) % self.step == 0 {
                set |= 1 << n;
            }
        }
        set
    }
}

// Whether the set has the number `n`.
pub(crate) fn contains(set: u64, n: u8) -> bool
    ensures { result ≡ has set n }
{
    n < 64 && (set >> n) & 1 == 1
}

// Returns the numbers that are in either set.
pub(crate) fn union(a: u64, b: u64) -> u64
    ensures { (n : ℕ) → has result n ≡ (has a n || has b n) }
{
    a | b
}
