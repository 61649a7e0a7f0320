// A stream without the lines of who is ignored.
ghost use Rattle.std.specs.Prelude.{◌≡◌, true, ◌+◌, ◌++◌, ◌<◌, ◌≤◌, ◌^◌, [], length, IfOk, OnOk, OnErr};
ghost use Rattle.std.specs.Vec.{vec_capacity};
ghost use Rattle.bytetext.specs.declared.moment.TheConstants.{MOMENTS_END};
ghost use Rattle.floods.specs.Sifting.{after_bytes, at_byte, begin_of, begins, begun, drop_of, dropped, drops, given, held, passed, sifted};
ghost use Rattle.ircline.specs.Classes.{is_end};
ghost use Rattle.floods.specs.Watching.{is_ignored, last_of, without};

use crate::floods::{Floods, Verdict};
use crate::ignores::Ignore;
use crate::limits::Limits;
use crate::trusts::Trusts;
use bytetext::{MOMENTS_END, NoMemory};
use ircline::first_end;
use std::alloc::Global;
use std::marker::Model;

/// The most bytes of a line that are kept: one more than a line may have (RFC 2812 section 2.3).
pub(crate) const MAX_LINE: usize = 511;

/// What a [`Sieve`] let pass of some bytes.
#[derive(Debug, Drop)]
pub struct Sifted {
    /// The lines that pass, in order, each with its CR or LF.
    pub bytes: Vec<u8>,
    /// How many lines do not pass.
    pub dropped: usize,
    /// How many ignores began: see [`Sieve::last_ignores`].
    pub begun: usize,
}

/// Lets the lines of a stream pass, without those of who floods the bot. It counts at most 256 persons, kinds and
/// channels, and ignores at most 100 persons; room for both is allocated at the beginning. Contracts see a
/// `Rattle.floods.specs.Sifting.Sieving`: what is watched, and the line that has begun.
#[derive(Drop)]
pub struct Sieve {
    floods: Floods,
    // At most 511 bytes, with room for its end.
    line: Vec<u8>,
}

impl Model for Sieve {
    ghost use Rattle.floods.specs.Sifting.{Sieving};

    ghost Value = { Sieving };

    ghost use Rattle.std.specs.Prelude.{length, ◌≤◌, ◌<◌};
    ghost use Rattle.std.specs.Vec.{vec_capacity};
    ghost use Rattle.floods.specs.declared.sieve.TheConstants.{MAX_LINE};

    ghost view = { λ s. record { watch = s.floods; line = s.line.items } };

    ghost invariant = { λ s. (length s.line.items ≤ MAX_LINE) × (MAX_LINE < vec_capacity s.line) };
}

impl Sieve {
    /// Creates a sieve that has counted nothing, at the beginning of a stream.
    ///
    /// # Errors
    /// `NoMemory` if the room for counts, ignores and a line cannot be allocated.
    pub fn new(alloc: Global, limits: Limits) -> Result<Sieve, NoMemory>
        ensures { IfOk result (λ sieve. sieve ≡ record { watch = record { limits = limits; counts = []; ignores = [] }; line = [] }) }
    {
        let floods = Floods::new(alloc, limits)?;
        let line = Vec::with_capacity(alloc, MAX_LINE + 1)?;
        Ok(Sieve { floods, line })
    }

    /// Takes the next `bytes` of the stream at second `now`, and returns the lines that pass, in order. CR and LF each
    /// end a line, and a line is kept until its end arrives. If it has more than 510 bytes, the bot takes it for too
    /// long whatever it holds, and only its first 511 bytes pass.
    ///
    /// A PRIVMSG or NOTICE passes if its person is trusted, or is not ignored and passes no limit. Every other line
    /// passes, and so does a line of a server, or of a person without a user or a host. A JOIN, NICK, KICK or MODE that
    /// passes a limit begins an ignore.
    ///
    /// # Errors
    /// `NoMemory` if room for the lines cannot be allocated. The sieve is then unchanged: the caller can give the same
    /// bytes again.
    pub fn sift<T: Trusts>(
        &mut self,
        alloc: Global,
        bytes: &[u8],
        now: u64,
        trusts: &T,
    ) -> Result<Sifted, NoMemory>
        requires moment { now < MOMENTS_END }
        ensures bytes { IfOk result (λ s. s.bytes.items ≡ sifted (T.trusted trusts.now) now self.old bytes.now) }
        ensures dropped { IfOk result (λ s. s.dropped ≡ dropped (T.trusted trusts.now) now self.old bytes.now) }
        ensures begun { IfOk result (λ s. s.begun ≡ begun (T.trusted trusts.now) now self.old bytes.now) }
        ensures after { OnOk result (self.new ≡ after_bytes (T.trusted trusts.now) now self.old bytes.now) }
        ensures err { OnErr result (self.new ≡ self.old) }
    {
        let mut sifted = Sifted {
            bytes: Vec::with_capacity(alloc, self.line.len() + bytes.len())?,
            dropped: 0,
            begun: 0,
        };
        let mut rest = bytes;
        while let Some(place) = first_end(rest) {
            self.hold(&rest[..place]);
            self.take_end(rest[place], now, trusts, &mut sifted);
            rest = &rest[place + 1..];
        }
        self.hold(rest);
        Ok(sifted)
    }

    /// Forgets the line that has begun, since a new connection begins. What is counted and who is ignored stays.
    pub fn restart(&mut self)
        ensures { self.new ≡ record self.old { line = [] } }
    {
        self.line.clear();
    }

    /// Takes other limits. What is counted stays, and so does each ignore until it ends.
    pub fn set_limits(&mut self, limits: Limits)
        ensures { self.new ≡ record self.old { watch = record self.old.watch { limits = limits } } }
    {
        self.floods.set_limits(limits);
    }

    /// Returns the ignores, the oldest first. Some may be over: see [`Ignore::is_in_force`].
    pub fn ignores(&self) -> &[Ignore]
        ensures { result.now ≡ self.now.watch.ignores }
    {
        self.floods.ignores()
    }

    /// Returns the last `count` of these ignores, or all if there are fewer. With the `begun` of [`Sieve::sift`] they are
    /// those that began, in their order; of more than 100 the last 100.
    pub fn last_ignores(&self, count: usize) -> &[Ignore]
        ensures { result.now ≡ last_of count self.now.watch.ignores }
    {
        let ignores = self.floods.ignores();
        &ignores[ignores.len().saturating_sub(count)..]
    }

    /// Returns whether `key` is ignored at `now`.
    pub fn is_ignored(&self, now: u64, key: &[u8]) -> bool
        ensures { result ≡ is_ignored now key.now self.now.watch.ignores }
    {
        self.floods.is_ignored(now, key)
    }

    /// Ends the ignores of `key`, `user@host` in the lower case of ASCII. That person's lines are counted from nothing.
    pub fn forgive(&mut self, key: &[u8])
        ensures { self.new ≡ record self.old { watch = record self.old.watch { ignores = without key.now self.old.watch.ignores } } }
    {
        self.floods.forgive(key);
    }
}

impl Sieve {
    // Takes bytes of a line, none of which ends it. No more of it is kept than shows that it is too long.
    fn hold(&mut self, run: &[u8])
        ensures { self.new ≡ held self.old run.now }
    {
        let most = MAX_LINE - self.line.len();
        let kept = if run.len() <= most { run } else { &run[..most] };
        let _fits = self.line.extend_from_slice(kept);
    }

    // Takes the CR or LF that ends a line, and appends the line to `sifted`, which has room for it, if it passes.
    fn take_end<T: Trusts>(&mut self, end: u8, now: u64, trusts: &T, sifted: &mut Sifted)
        requires moment { now < MOMENTS_END }
        requires end { is_end end ≡ true }
        requires room { length sifted.old.bytes.items + length self.old.line < vec_capacity sifted.old.bytes }
        requires few { sifted.old.dropped + 1 < 2 ^ 64 }
        requires fewer { sifted.old.begun + 1 < 2 ^ 64 }
        ensures after { self.new ≡ at_byte (T.trusted trusts.now) now self.old end }
        ensures bytes { sifted.new.bytes.items ≡ sifted.old.bytes.items ++ given (T.trusted trusts.now) now self.old end }
        ensures dropped { sifted.new.dropped ≡ sifted.old.dropped + drop_of (T.trusted trusts.now) now self.old end }
        ensures begun { sifted.new.begun ≡ sifted.old.begun + begin_of (T.trusted trusts.now) now self.old end }
        ensures line { length self.new.line ≡ 0 }
        ensures room { length sifted.new.bytes.items ≤ length sifted.old.bytes.items + length self.old.line + 1 }
        ensures capacity { vec_capacity sifted.old.bytes ≤ vec_capacity sifted.new.bytes }
        ensures few { sifted.new.dropped ≤ sifted.old.dropped + 1 }
        ensures fewer { sifted.new.begun ≤ sifted.old.begun + 1 }
    {
        let verdict = self.floods.judge(self.line.as_slice(), now, trusts);
        self.line.push_reserved(end);
        sifted.put(self.line.as_slice(), verdict);
        self.line.clear();
    }
}

impl Sifted {
    // Appends a line if it passes, and else counts it. Counts an ignore that it begins. There is room for it.
    fn put(&mut self, line: &[u8], verdict: Verdict)
        requires room { length self.old.bytes.items + length line.now ≤ vec_capacity self.old.bytes }
        requires few { self.old.dropped + 1 < 2 ^ 64 }
        requires fewer { self.old.begun + 1 < 2 ^ 64 }
        ensures bytes { self.new.bytes.items ≡ self.old.bytes.items ++ passed verdict line.now }
        ensures dropped { self.new.dropped ≡ self.old.dropped + drops verdict }
        ensures begun { self.new.begun ≡ self.old.begun + begins verdict }
        ensures capacity { vec_capacity self.old.bytes ≤ vec_capacity self.new.bytes }
        ensures fewer { self.new.begun ≤ self.old.begun + 1 }
        ensures bound { length self.new.bytes.items ≤ length self.old.bytes.items + length line.now }
        ensures few { self.new.dropped ≤ self.old.dropped + 1 }
    {
        match verdict {
            Verdict::Passes => {
                let _fits = self.bytes.extend_from_slice(line);
            }
            Verdict::Dropped => self.dropped += 1,
            Verdict::Ignores => {
                self.dropped += 1;
                self.begun += 1;
            }
            Verdict::PassesAndIgnores => {
                let _fits = self.bytes.extend_from_slice(line);
                self.begun += 1;
            }
        }
    }
}
