// Sets of letters and signs.
ghost use Rattle.std.specs.Prelude.{◌≡◌};
ghost use Rattle.chanstate.specs.Announced.{is_in, with_letter, with_letters, no_letters, letters_of};

/// A set of ASCII bytes, as a table that says for each byte whether it is in the set. Allocates nothing.
#[derive(Clone, Copy, Debug)]
pub struct Letters {
    table: [bool; 128],
}

impl Letters {
    /// Creates an empty set.
    #[tactic(auto, unfolding(crate::specs::Announced::no_letters))]
    pub fn none() -> Letters
        ensures { result ≡ no_letters }
    {
        Letters {
            table: [false; 128],
        }
    }

    /// Creates the set of the bytes of `text`. A byte that is not ASCII is left out.
    pub fn of(text: &[u8]) -> Letters
        ensures { result ≡ letters_of text.now }
    {
        let mut letters = Letters::none();
        letters.add_all(text);
        letters
    }

    // Adds one byte.
    fn add(&mut self, byte: u8)
        ensures { self.new ≡ with_letter byte self.old }
    {
        if byte < 128 {
            self.table[usize::from(byte)] = true;
        }
    }

    /// Adds the bytes of `text`.
    pub fn add_all(&mut self, text: &[u8])
        ensures { self.new ≡ with_letters text.now self.old }
    {
        for byte in text {
            self.add(*byte);
        }
    }

    /// Returns whether `byte` is in the set.
    pub fn holds(&self, byte: u8) -> bool
        ensures { result ≡ is_in byte self.now }
    {
        self.table.get(usize::from(byte)).copied().unwrap_or(false)
    }
}
