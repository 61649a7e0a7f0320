// Whom a bot never ignores.
ghost use Rattle.std.specs.Prelude.{◌≡◌, ℕ, Bool, List};

/// Says whom the bot never ignores.
pub trait Trusts {
    /// Whether a person is trusted, by the prefix `nick!user@host`.
    ghost trusted: { Self → List ℕ → Bool };

    /// Returns whether `person` is trusted. The [`Sieve`](crate::Sieve) asks only about a line of an ignored person,
    /// and about a line that would begin an ignore. `person` is the line's prefix, `nick!user@host`.
    fn is_trusted(&self, person: &[u8]) -> bool
        ensures { result ≡ trusted self.now person.now };
}
