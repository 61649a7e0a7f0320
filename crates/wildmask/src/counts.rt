// The number of comparisons made, for contracts.
ghost use Rattle.std.specs.Prelude.{◌≡◌, ◌+◌, ℕ};

use std::marker::{Model, PhantomData};

/// A count of comparisons of an item with a byte. It holds nothing at run time: only contracts see it, as the number
/// `steps`.
#[derive(Drop)]
pub struct Count {
    marker: PhantomData<u8>,
    pub ghost steps: { ℕ },
}

impl Model for Count {
    ghost use Rattle.std.specs.Prelude.{ℕ};
    ghost use Rattle.std.specs.Borrow.{ftrue};

    ghost also_owns = { λ _. ftrue };
}

impl Count {
    /// Creates a count at zero.
    pub fn new() -> Count
        ensures { result.steps ≡ 0 }
    {
        Count {
            marker: PhantomData,
        }
    }

    /// Counts one more comparison.
    pub(crate) fn note(&mut self)
        ensures { self.new.steps ≡ self.old.steps + 1 }
    {}
}
