// What becomes of the lines of persons.
ghost use Rattle.std.specs.Prelude.{◌≡◌, ◌+◌, ◌<◌, ◌≤◌, [], Some, IfOk, nat_lt};
ghost use Rattle.bytetext.specs.declared.moment.TheConstants.{MOMENTS_END};
ghost use Rattle.floods.specs.Watching.{after, after_act, after_limit, by_limit, if_ignored, if_over, is_ignored, unless, verdict, verdict_of, with_flood, with_line, without};
ghost use Rattle.floods.specs.Windows.{window_at};

use crate::act::{Act, act_of, person_of};
use crate::counts::{Counts, Window};
use crate::ignores::{Ignore, Ignores};
use crate::kind::FloodKind;
use crate::limits::{Limit, Limits};
use crate::trusts::Trusts;
use bytetext::{MOMENTS_END, NoMemory};
use std::alloc::Global;
use std::marker::Model;

// What becomes of a line.
#[derive(Clone, Copy, Debug, PartialEq, Eq)]
pub(crate) enum Verdict {
    // It passes.
    Passes,
    // It is dropped, since its person is ignored.
    Dropped,
    // It is dropped, and passes a limit: its person is ignored from now on.
    Ignores,
    // It passes, and passes a limit: its person is ignored from now on.
    PassesAndIgnores,
}

// The limits, what is counted, and who is ignored. Contracts see a `Rattle.floods.specs.Watching.Watch`.
#[derive(Drop)]
pub(crate) struct Floods {
    limits: Limits,
    counts: Counts,
    ignores: Ignores,
}

impl Model for Floods {
    ghost use Rattle.floods.specs.Watching.{Watch};

    ghost Value = { Watch };

    ghost view = { λ f. record { limits = f.limits; counts = f.counts; ignores = f.ignores } };
}

impl Floods {
    // Counts nothing and ignores nobody yet.
    pub(crate) fn new(alloc: Global, limits: Limits) -> Result<Floods, NoMemory>
        ensures { IfOk result (λ floods. floods ≡ record { limits = limits; counts = []; ignores = [] }) }
    {
        Ok(Floods {
            limits,
            counts: Counts::new(alloc)?,
            ignores: Ignores::new(alloc)?,
        })
    }

    // Takes other limits. What is counted and who is ignored stays.
    pub(crate) fn set_limits(&mut self, limits: Limits)
        ensures { self.new ≡ record self.old { limits = limits } }
    {
        self.limits = limits;
    }

    // The ignores, the oldest first. Some may be over.
    pub(crate) fn ignores(&self) -> &[Ignore]
        ensures { result.now ≡ self.now.ignores }
    {
        self.ignores.as_slice()
    }

    // Whether `key` is ignored at `now`.
    pub(crate) fn is_ignored(&self, now: u64, key: &[u8]) -> bool
        ensures { result ≡ is_ignored now key.now self.now.ignores }
    {
        self.ignores.is_ignored(now, key)
    }

    // Ends the ignores of `key`.
    pub(crate) fn forgive(&mut self, key: &[u8])
        ensures { self.new ≡ record self.old { ignores = without key.now self.old.ignores } }
    {
        self.ignores.remove(key);
    }

    // Says what becomes of `line`, which lacks its end, and counts it. Does not allocate.
    #[tactic(auto, unfolding(crate::specs::Watching::verdict, crate::specs::Watching::after))]
    pub(crate) fn judge<T: Trusts>(&mut self, line: &[u8], now: u64, trusts: &T) -> Verdict
        requires moment { now < MOMENTS_END }
        ensures verdict { result ≡ verdict (T.trusted trusts.now) now self.old line.now }
        ensures after { self.new ≡ after (T.trusted trusts.now) now self.old line.now }
    {
        match act_of(line) {
            Some(act) => self.judge_act(act, person_of(line), now, trusts),
            None => Verdict::Passes,
        }
    }

    // The same of a line by which `person` does this.
    fn judge_act<T: Trusts>(&mut self, act: Act, person: &[u8], now: u64, trusts: &T) -> Verdict
        requires moment { now < MOMENTS_END }
        ensures verdict { result ≡ verdict_of (T.trusted trusts.now person.now) now self.old act }
        ensures after { self.new ≡ after_act (T.trusted trusts.now person.now) now self.old act }
    {
        if self.ignores.is_ignored(now, act.key.as_bytes()) {
            return unless(trusts.is_trusted(person), if_ignored(act.kind));
        }
        match self.limits.of(act.kind) {
            Some(limit) => self.judge_by(limit, act, person, now, trusts),
            None => Verdict::Passes,
        }
    }

    // The same if the person is not ignored, by a limit.
    fn judge_by<T: Trusts>(
        &mut self,
        limit: Limit,
        act: Act,
        person: &[u8],
        now: u64,
        trusts: &T,
    ) -> Verdict
        requires moment { now < MOMENTS_END }
        ensures verdict { result ≡ by_limit (T.trusted trusts.now person.now) now self.old act (Some limit) }
        ensures after { self.new ≡ after_limit (T.trusted trusts.now person.now) now self.old act (Some limit) }
    {
        let window = self.counts.window_at(limit, now, &act);
        if !exceeds(limit, window, act.weight) {
            self.count_line(limit, act, window, now);
            return Verdict::Passes;
        }
        if trusts.is_trusted(person) {
            return Verdict::Passes;
        }
        let verdict = if_over(act.kind);
        self.begin_ignore(limit, act, now);
        verdict
    }

    // Counts `act` in the window that it falls into, which has room for it.
    fn count_line(&mut self, limit: Limit, act: Act, window: Window, now: u64)
        requires window { window ≡ window_at limit now self.old.counts act }
        requires room { window.lines + act.weight ≤ limit.lines }
        ensures { self.new ≡ with_line now self.old act limit }
    {
        let window = Window {
            since: window.since,
            lines: window.lines + act.weight as u16,
        };
        self.counts.count(act, window);
    }

    // Ignores the person of `act` from now on, since a line of his passes this limit.
    fn begin_ignore(&mut self, limit: Limit, act: Act, now: u64)
        requires moment { now < MOMENTS_END }
        ensures { self.new ≡ with_flood now self.old act limit }
    {
        self.counts.forget(&act);
        let until = now + u64::from(self.limits.ignore);
        self.ignores.push(
            now,
            Ignore {
                key: act.key,
                until,
                limit,
                kind: act.kind,
                place: act.place,
            },
        );
    }
}

// Whether a line that counts for `weight` lines passes the limit.
fn exceeds(limit: Limit, window: Window, weight: usize) -> bool
    ensures { result ≡ nat_lt limit.lines (window.lines + weight) }
{
    u128::from(limit.lines) < u128::from(window.lines) + weight as u128
}

// The verdict of a line whose person is ignored, unless he is trusted.
fn if_ignored(kind: FloodKind) -> Verdict
    ensures { result ≡ if_ignored kind }
{
    if kind.is_speech() {
        return Verdict::Dropped;
    }
    Verdict::Passes
}

// The verdict of a line that passes a limit, unless its person is trusted.
fn if_over(kind: FloodKind) -> Verdict
    ensures { result ≡ if_over kind }
{
    if kind.is_speech() {
        return Verdict::Ignores;
    }
    Verdict::PassesAndIgnores
}

// The verdict of a line that would be dropped if its person were not trusted.
fn unless(is_trusted: bool, verdict: Verdict) -> Verdict
    ensures { result ≡ unless is_trusted verdict }
{
    if is_trusted {
        return Verdict::Passes;
    }
    verdict
}
