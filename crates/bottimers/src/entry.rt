// A timer with its countdown.
ghost use Rattle.std.specs.Prelude.{◌≡◌, ◌↔◌, ◌+◌, ◌-◌, ◌/◌, ◌%◌, ◌<◌, ◌≤◌, nat_lt, if◌then◌else◌, true, IsTrue};
ghost use Rattle.bottimers.specs.Occurrences.{unit_of, start_of, is_due, is_due_of, is_kept, units_left, used};

use crate::timer::{Timer, TimerKind};
use bytetext::{NoMemory, TryCopy};
use std::alloc::Global;

// `left` units remain until the next occurrence, and `repeats` occurrences are to come, or 0 for ever.
#[derive(Drop)]
pub(crate) struct Entry {
    pub(crate) timer: Timer,
    pub(crate) left: u32,
    pub(crate) repeats: u32,
}

impl Entry {
    ghost use Rattle.bottimers.specs.Countdown.{IsRunning, counted};

    // Creates the entry of a new timer, for which no time has passed yet.
    pub(crate) fn new(timer: Timer) -> Entry
        requires { 0 < timer.interval }
        ensures timer { result.timer ≡ timer }
        ensures running { IsRunning timer.made result }
    {
        let (left, repeats) = (timer.interval, timer.count);
        Entry {
            timer,
            left,
            repeats,
        }
    }

    // Counts the occurrences after `from`, up to `to`.
    fn fallen(&self, from: u64, to: u64) -> u64
        requires { IsRunning from self.now × (from ≤ to) }
        ensures { result + used self.now.timer from ≡ used self.now.timer to }
    {
        let kind = self.timer.kind;
        fallen(
            self.left,
            self.timer.interval,
            unit(kind, to) - unit(kind, from),
        )
    }

    // Whether the timer has an occurrence at the second `to`.
    pub(crate) fn is_due(&self, from: u64, to: u64) -> bool
        requires { IsRunning from self.now × (from < to) }
        ensures { result ≡ is_due to self.now.timer }
    {
        let fallen = self.fallen(from, to);
        fallen > 0
            && self.left_at(from, to) == self.timer.interval
            && starts_unit(self.timer.kind, to)
            && (self.repeats == 0 || fallen <= self.repeats as u64)
    }

    // Whether the timer is of this kind and has an occurrence at the second `to`.
    pub(crate) fn is_due_of(&self, kind: TimerKind, from: u64, to: u64) -> bool
        requires { IsRunning from self.now × (from < to) }
        ensures { result ≡ is_due_of kind to self.now.timer }
    {
        self.timer.kind.is_same(kind) && self.is_due(from, to)
    }

    // Whether the timer has an occurrence after the second `to`.
    pub(crate) fn is_kept(&self, from: u64, to: u64) -> bool
        requires { IsRunning from self.now × (from ≤ to) }
        ensures { result ≡ is_kept to self.now.timer }
    {
        self.repeats == 0 || self.fallen(from, to) < self.repeats as u64
    }

    // Returns the units left at the second `to`.
    fn left_at(&self, from: u64, to: u64) -> u32
        requires { IsRunning from self.now × (from ≤ to) }
        ensures { result ≡ units_left self.now.timer to }
    {
        let kind = self.timer.kind;
        left_after(
            self.left,
            self.timer.interval,
            unit(kind, to) - unit(kind, from),
        )
    }

    // Counts down from `from` to `to`.
    pub(crate) fn count_down(&mut self, from: u64, to: u64)
        requires { IsRunning from self.old × (from ≤ to) }
        ensures { self.new ≡ counted to self.old }
    {
        let left = self.left_at(from, to);
        let repeats = (self.repeats as u64).saturating_sub(self.fallen(from, to));
        self.left = left;
        self.repeats = repeats as u32;
    }
}

impl TryCopy for Entry {
    fn copy(&self, alloc: Global) -> Result<Entry, NoMemory> {
        Ok(Entry {
            timer: self.timer.copy(alloc)?,
            left: self.left,
            repeats: self.repeats,
        })
    }
}

// Returns the minute that a second lies in, or the second itself.
fn unit(kind: TimerKind, second: u64) -> u64
    ensures { result ≡ unit_of kind second }
{
    match kind {
        TimerKind::Minutes => second / 60,
        TimerKind::Seconds => second,
    }
}

// Whether a second is the first of its unit.
fn starts_unit(kind: TimerKind, second: u64) -> bool
    ensures { IsTrue result ↔ (start_of kind (unit_of kind second) ≡ second) }
{
    match kind {
        TimerKind::Minutes => second % 60 == 0,
        TimerKind::Seconds => true,
    }
}

// Counts the occurrences within `passed` units when the first is `left` units off.
fn fallen(left: u32, interval: u32, passed: u64) -> u64
    requires { (0 < interval) × (0 < left) }
    ensures { result ≡ (if nat_lt passed left then 0 else (passed - left) / interval + 1) }
{
    let (left, interval) = (left as u64, interval as u64);
    if passed < left {
        0
    } else {
        (passed - left) / interval + 1
    }
}

// Returns the units left to the first occurrence after those.
fn left_after(left: u32, interval: u32, passed: u64) -> u32
    requires { 0 < interval }
    ensures { result ≡ (if nat_lt passed left then left - passed else interval - (passed - left) % interval) }
{
    let (whole, interval) = (left as u64, interval as u64);
    if passed < whole {
        (whole - passed) as u32
    } else {
        (interval - (passed - whole) % interval) as u32
    }
}
