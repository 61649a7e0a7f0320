// The timers of one bot.
ghost use Rattle.std.specs.Prelude.{◌≡◌, ◌≢◌, ◌↔◌, ◌+◌, ◌<◌, ◌≤◌, IsTrue, Some, None, unwrap_or, IfOk, IfErr, IfNone, OnOk, OnErr, IsOk, Err, []};
ghost use Rattle.std.specs.List.{list_any};
ghost use Rattle.bottimers.specs.Faults.{RefusedFor};
ghost use Rattle.bottimers.specs.Occurrences.{is_due, FallsDue};
ghost use Rattle.bottimers.specs.declared.timer.Timer.{Timer};

use crate::call::TimerCall;
use crate::entries::{
    count_kept, due_of, has_id, is_any_due, pass, place_named, remove_id, statuses_of,
};
use crate::entry::Entry;
use crate::fault::{ClockError, ClockFault};
use crate::limits::{MAX_ID, MAX_INTERVAL, MAX_TIMERS};
use crate::status::TimerStatus;
use crate::timer::{Timer, TimerKind};
use bytetext::{Failure, NoMemory, Text, TryCopy, copies_of, refuse};
use std::alloc::Global;
use std::marker::Model;

/// The timers and utimers of one bot, at most 200 in all.
///
/// ```text
/// let mut timers = Timers::new(alloc);
/// timers.add(TimerKind::Minutes, 1, 0, greet, alice, Some(30))?     // id 1, first due at 60
/// timers.add(TimerKind::Minutes, 1, 0, greet, bob, Some(30))?       // id 2, first due at 60
/// timers.add(TimerKind::Seconds, 30, 1, part, channel, Some(30))?   // id 3, due at 60 alone
/// timers.due(alloc, 59)?                                            // nothing
/// timers.due(alloc, 60)?                                            // id 3, then 1 and 2: utimers come first
/// timers.list(alloc)?                                               // ids 1 and 2, each with one minute left
/// timers.kill_named(b"greet", b"bob")?                              // id 2 is gone
/// timers.kill(1)?
/// ```
///
/// A caller that must not fail half-way reserves room first:
///
/// ```text
/// timers.reserve(2)?;                                         // only this may allocate
/// timers.add(TimerKind::Minutes, 1, 0, greet, alice, last)    // no `NoMemory`
/// timers.add(TimerKind::Minutes, 1, 0, greet, bob, last)      // no `NoMemory`
/// ```
#[derive(Drop)]
pub struct Timers {
    entries: Vec<Entry>,
    last: Option<u64>,
    spent: u32,
    room: usize,
}

impl Model for Timers {
    ghost use Rattle.bottimers.specs.Held.{Held};

    ghost Value = { Held };

    ghost use Rattle.bottimers.specs.Countdown.{held, IsSound};

    ghost view = { held };

    ghost invariant = { IsSound };
}

impl Timers {
    ghost use Rattle.bottimers.specs.Held.{Held, IsAbove, IsNotBelow, add_fault, with_timer, holds, holds_named};
    ghost use Rattle.bottimers.specs.Held.{without, without_named, calls_at, passed, statuses};

    /// Creates an empty set of timers with no room reserved. Does not allocate.
    pub fn new(alloc: Global) -> Timers
        ensures { result ≡ record { timers = []; last = None; spent = 0; room = 0 } }
    {
        Timers {
            entries: Vec::new(alloc),
            last: None,
            spent: 0,
            room: 0,
        }
    }

    /// Reserves room for exactly `count` timers, so that the next `count` calls of [`add`](Timers::add) do not
    /// allocate. Nothing else that callers see changes. `reserve(0)` gives the room up.
    ///
    /// # Errors
    /// `NoMemory` if the allocation fails, never if the timers already had room for `count`. The timers are unchanged.
    pub fn reserve(&mut self, count: usize) -> Result<(), NoMemory>
        ensures ready { OnOk result (self.new ≡ record self.old { room = count }) }
        ensures unchanged { OnErr result (self.new ≡ self.old) }
        ensures needs_none { count ≤ self.old.room → IsOk result }
    {
        self.entries.reserve(count)?;
        self.room = count;
        Ok(())
    }

    /// Creates a timer that calls `proc` with `text` every `interval` minutes or seconds, as `kind` says, and returns
    /// its id. The timer counts from the minute or second `last` and is due `count` times, or for ever if `count` is
    /// 0. Ids rise from 1 and are never used again. `last` is the clock's last second and must not be below any second
    /// given before. The call drops timers whose last occurrence `last` has passed.
    ///
    /// # Errors
    /// `Refused(BadMoment)` if there was no reading yet, then `Refused(BadInterval)` if `interval` is not from 1 to
    /// 1,000,000, then `Refused(Full)` if 200 timers have an occurrence to come or 4,294,967,295 ids were used, then
    /// `NoMemory`, never if there was room. The timers are unchanged.
    pub fn add(
        &mut self,
        kind: TimerKind,
        interval: u32,
        count: u32,
        proc: Text,
        text: Text,
        last: Option<u64>,
    ) -> Result<u32, ClockError>
        requires { IsNotBelow self.old.last last }
        ensures refused { RefusedFor (add_fault self.old interval last) result }
        ensures id { IfOk result (λ id. id ≡ self.old.spent + 1) }
        ensures added { OnOk result (self.new ≡ with_timer self.old
            (record {
              id = self.old.spent + 1;
              kind = kind;
              made = unwrap_or last 0;
              interval = interval;
              count = count;
              proc = proc;
              text = text;
            })) }
        ensures unchanged { OnErr result (self.new ≡ self.old) }
        ensures needs_none { 0 < self.old.room → result ≢ Err Failure.NoMemory }
    {
        let Some(now) = last else {
            return Err(Failure::Refused(ClockFault::BadMoment));
        };
        refuse(self.refusal_of(interval, now))?;
        self.reserve(self.room.max(1))?;
        Ok(self.push(kind, interval, count, proc, text, now))
    }

    // Returns why a timer of this interval can't be made at the second `now`.
    fn refusal_of(&self, interval: u32, now: u64) -> Option<ClockFault>
        requires { IsNotBelow self.now.last (Some now) }
        ensures refusal { result ≡ add_fault self.now interval (Some now) }
        ensures free { IfNone result ((0 < interval) × (self.now.spent < MAX_ID)) }
    {
        if interval == 0 || interval > MAX_INTERVAL {
            return Some(ClockFault::BadInterval);
        }
        let kept = count_kept(self.entries.as_slice(), self.last.unwrap_or(0), now);
        if kept >= MAX_TIMERS || self.spent == MAX_ID {
            return Some(ClockFault::Full);
        }
        None
    }

    // Adds a timer that isn't refused, in reserved room, and returns its id.
    fn push(
        &mut self,
        kind: TimerKind,
        interval: u32,
        count: u32,
        proc: Text,
        text: Text,
        now: u64,
    ) -> u32
        requires reading { IsNotBelow self.old.last (Some now) }
        requires room { 0 < self.old.room }
        requires free { (0 < interval) × (self.old.spent < MAX_ID) }
        ensures id { result ≡ self.old.spent + 1 }
        ensures added { self.new ≡ with_timer self.old
            (record {
              id = self.old.spent + 1;
              kind = kind;
              made = now;
              interval = interval;
              count = count;
              proc = proc;
              text = text;
            }) }
    {
        let id = self.spent + 1;
        pass(&mut self.entries, self.last.unwrap_or(0), now);
        self.last = Some(now);
        self.spent = id;
        self.room -= 1;
        self.entries.push_reserved(Entry::new(Timer {
            id,
            kind,
            made: now,
            interval,
            count,
            proc,
            text,
        }));
        id
    }

    /// Removes the timer `id`. Does not allocate.
    ///
    /// # Errors
    /// `NoSuchTimer` if no timer has this id; the timers are unchanged.
    pub fn kill(&mut self, id: u32) -> Result<(), ClockFault>
        ensures held { IsOk result ↔ IsTrue (holds self.old id) }
        ensures killed { OnOk result (self.new ≡ without self.old id) }
        ensures fault { IfErr result (λ fault. fault ≡ ClockFault.NoSuchTimer) }
        ensures unchanged { OnErr result (self.new ≡ self.old) }
    {
        if !has_id(self.entries.as_slice(), id) {
            return Err(ClockFault::NoSuchTimer);
        }
        remove_id(&mut self.entries, id);
        Ok(())
    }

    /// Removes the oldest timer that calls `proc` with `text`, both equal byte for byte. Does not allocate.
    ///
    /// # Errors
    /// `NoSuchTimer` if there is none; the timers are unchanged.
    pub fn kill_named(&mut self, proc: &[u8], text: &[u8]) -> Result<(), ClockFault>
        ensures held { IsOk result ↔ IsTrue (holds_named self.old proc.now text.now) }
        ensures killed { OnOk result (self.new ≡ without_named self.old proc.now text.now) }
        ensures fault { IfErr result (λ fault. fault ≡ ClockFault.NoSuchTimer) }
        ensures unchanged { OnErr result (self.new ≡ self.old) }
    {
        let Some(place) = place_named(self.entries.as_slice(), proc, text) else {
            return Err(ClockFault::NoSuchTimer);
        };
        let _gone = self.entries.remove(place);
        Ok(())
    }

    /// Returns the status of each timer at the last second given, in the order of making.
    ///
    /// # Errors
    /// `NoMemory` if there are timers and the list can't be allocated.
    pub fn list(&self, alloc: Global) -> Result<Vec<TimerStatus>, NoMemory>
        ensures list { IfOk result (λ list. list.items ≡ statuses self.now) }
        ensures needs_none { self.now.timers ≡ [] → IsOk result }
    {
        statuses_of(alloc, self.entries.as_slice(), self.last.unwrap_or(0))
    }

    /// Returns whether a timer is due at `second`. Does not allocate.
    pub fn is_due(&self, second: u64) -> bool
        requires { IsAbove self.now.last second }
        ensures { result ≡ list_any (is_due second) self.now.timers }
    {
        is_any_due(self.entries.as_slice(), self.last.unwrap_or(0), second)
    }

    /// Lets `second` pass without its calls. Occurrences at it and at seconds that were skipped are used up, and a
    /// timer with no occurrence to come is dropped. Does not allocate.
    pub fn pass(&mut self, second: u64)
        requires { IsAbove self.old.last second }
        ensures { self.new ≡ passed second self.old }
    {
        pass(&mut self.entries, self.last.unwrap_or(0), second);
        self.last = Some(second);
    }

    /// Returns the calls of the timers that are due at `second`: the utimers in the order of making, and then, at the
    /// first second of a minute, the timers in the order of making. Occurrences at it and at seconds that were skipped
    /// are used up, and a timer with no occurrence to come is dropped.
    ///
    /// # Errors
    /// `NoMemory` if a timer is due and the list can't be allocated. The timers are unchanged, and the caller may
    /// retry the same second.
    pub fn due(&mut self, alloc: Global, second: u64) -> Result<Vec<TimerCall>, NoMemory>
        requires { IsAbove self.old.last second }
        ensures calls { IfOk result (λ calls. calls.items ≡ calls_at second self.old) }
        ensures passed { OnOk result (self.new ≡ passed second self.old) }
        ensures unchanged { OnErr result (self.new ≡ self.old) }
        ensures occurrences { (m : Timer) → 0 < m.interval → IsTrue (is_due second m) ↔ FallsDue m second }
        ensures needs_none { calls_at second self.old ≡ [] → IsOk result }
    {
        let since = self.last.unwrap_or(0);
        let calls = due_of(alloc, self.entries.as_slice(), since, second)?;
        self.pass(second);
        Ok(calls)
    }
}

impl TryCopy for Timers {
    fn copy(&self, alloc: Global) -> Result<Timers, NoMemory> {
        let mut entries = copies_of(alloc, self.entries.as_slice())?;
        entries.reserve(self.room)?;
        Ok(Timers {
            entries,
            last: self.last,
            spent: self.spent,
            room: self.room,
        })
    }
}
