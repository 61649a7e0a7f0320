// Readings of the clock that call nothing. A bot handles them without allocating.
ghost use Rattle.std.specs.Prelude.{◌≡◌, ◌<◌, false, Some, IfSome};
ghost use Rattle.std.specs.List.{list_all};
ghost use Rattle.bytetext.specs.declared.moment.TheConstants.{MOMENTS_END as end_of_moments};
ghost use Rattle.bottimers.specs.Held.{IsAbove};
ghost use Rattle.bottimers.specs.Seconds.{seconds_between, seconds_run};
ghost use Rattle.botcore.specs.Happenings.{passed_all};
ghost use Rattle.botcore.specs.Quiet.{is_still};
ghost use Rattle.botcore.specs.Rising.{IsReached};
ghost use Rattle.botcore.specs.Steps.{is_past};

use crate::bot::Bot;
use bottimers::{Clock, MAX_SECONDS, Timers};
use bytetext::{NoMemory, Texts};
use disks::Disk;
use std::alloc::Global;

impl<D: Disk> Bot<D> {
    ghost use Rattle.std.specs.Prelude.{◌≡◌, ◌<◌, [], false, IfOk, IsOk, OnOk, OnErr};
    ghost use Rattle.bytetext.specs.declared.moment.TheConstants.{MOMENTS_END as end_of_moments};
    ghost use Rattle.botcore.specs.Leaving.{leaving, most_of, staying};
    ghost use Rattle.botcore.specs.Quiet.{is_still_until};
    ghost use Rattle.botcore.specs.Steps.{is_past, run_to};

    // Whether at the seconds of a reading no timer is due and no minute begins. Does not allocate.
    pub(crate) fn is_still_until(&self, now: u64) -> bool
        requires moment { now < end_of_moments }
        requires above { is_past self.now.clock now ≡ false }
        ensures { result ≡ is_still_until self.now now }
    {
        are_still_until(&self.timers, self.clock.last(), now)
    }

    // Lets the seconds of a reading pass without their calls, and sends the lines that may go: all of it, or nothing.
    // It does not allocate if no line goes.
    pub(crate) fn pass_to(&mut self, alloc: Global, now: u64) -> Result<Texts, NoMemory>
        requires moment { now < end_of_moments }
        requires above { is_past self.old.clock now ≡ false }
        ensures lines { IfOk result (λ lines. lines ≡ leaving (most_of self.old) self.old.queues now) }
        ensures ok { OnOk result
            (self.new ≡ record (run_to self.old now) { queues = staying (most_of self.old) self.old.queues now }) }
        ensures err { OnErr result (self.new ≡ self.old) }
        ensures needs_none { leaving (most_of self.old) self.old.queues now ≡ [] → IsOk result }
    {
        let most = self.most();
        match self.queues.drain(alloc, now, most) {
            Ok(lines) => {
                self.run_on(now);
                Ok(lines)
            }
            Err(NoMemory) => Err(NoMemory),
        }
    }

    // Returns how many modes of one channel go together, or none if each goes alone. Does not allocate.
    pub(crate) fn most(&self) -> Option<usize>
        ensures { result ≡ most_of self.now }
    {
        if self.config.sends_at_once {
            Some(self.channels.current().support().mode_limit())
        } else {
            None
        }
    }

    // Advances the clock and the timers to a reading. Does not allocate.
    fn run_on(&mut self, now: u64)
        requires moment { now < end_of_moments }
        requires above { is_past self.old.clock now ≡ false }
        ensures { self.new ≡ run_to self.old now }
    {
        pass_until(&mut self.timers, self.clock.last(), now);
        self.clock = Clock::at(now);
    }
}

// Whether at the seconds of a reading no timer is due and no minute begins.
fn are_still_until(timers: &Timers, last: Option<u64>, now: u64) -> bool
    requires moment { now < end_of_moments }
    requires above { is_past last now ≡ false }
    requires reached { IsReached timers.now.last last }
    ensures { result ≡ list_all (is_still timers.now.timers) (seconds_run last now) }
{
    are_still(timers, first_second(last, now), now)
}

// Lets the seconds of a reading pass without their calls.
fn pass_until(timers: &mut Timers, last: Option<u64>, now: u64)
    requires moment { now < end_of_moments }
    requires above { is_past last now ≡ false }
    requires reached { IsReached timers.old.last last }
    ensures passed { timers.new ≡ passed_all timers.old (seconds_run last now) }
    ensures reached { IsReached timers.new.last (Some now) }
{
    pass_seconds(timers, first_second(last, now), now);
}

// Returns the first of the seconds that a reading runs, or the second after the reading if it runs none.
#[tactic(auto, using(crate::proofs::StillLemmas::above_fresh))]
fn first_second(last: Option<u64>, now: u64) -> u64
    requires moment { now < end_of_moments }
    requires above { is_past last now ≡ false }
    ensures seconds { seconds_run last now ≡ seconds_between result now }
    ensures above { IfSome last (λ last. last < result) }
{
    match last {
        Some(last) => (last + 1).max(now.saturating_sub(MAX_SECONDS - 1)),
        None => now + 1,
    }
}

// Whether at these seconds no timer is due and no minute begins.
fn are_still(timers: &Timers, first: u64, last: u64) -> bool
    requires above { IsAbove timers.now.last first }
    requires moment { last < end_of_moments }
    ensures { result ≡ list_all (is_still timers.now.timers) (seconds_between first last) }
{
    let mut second = first;
    while second <= last {
        if !is_still(timers, second) {
            return false;
        }
        second += 1;
    }
    true
}

// Whether at a second no timer is due and no minute begins.
fn is_still(timers: &Timers, second: u64) -> bool
    requires { IsAbove timers.now.last second }
    ensures { result ≡ is_still timers.now.timers second }
{
    second % 60 != 0 && !timers.is_due(second)
}

// Lets these seconds pass without their calls.
fn pass_seconds(timers: &mut Timers, first: u64, last: u64)
    requires above { IsAbove timers.old.last first }
    requires moment { last < end_of_moments }
    ensures { timers.new ≡ passed_all timers.old (seconds_between first last) }
{
    let mut second = first;
    while second <= last {
        timers.pass(second);
        second += 1;
    }
}
