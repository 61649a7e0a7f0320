// What a reading of the clock does to a bot.
ghost use Rattle.std.specs.Prelude.{◌≡◌, [], None, IfOk, OnErr, false};
ghost use Rattle.botcore.specs.Reports.{told, cut_short};
ghost use Rattle.botcore.specs.Steps.{is_past, is_stale};

use crate::bot::Bot;
use crate::calls::{Left, Told};
use crate::fault::Refusal;
use crate::report::{End, Report};
use crate::running::run_seconds;
use bottimers::{Clock, ClockFault, Timers};
use bytetext::{MOMENTS_END, NoMemory, Seq, Texts, TryCopy};
use disks::Disk;
use procs::{MadeCall, ProcStore, Promise, Run, Trigger, Unbound};
use std::alloc::Global;
use std::mem;

// What happens in the seconds of a reading, and the clock and the timers after them.
#[derive(Drop)]
struct Ran {
    clock: Clock,
    timers: Timers,
    occasions: Vec<Trigger>,
}

impl<D: Disk> Bot<D> {
    ghost use Rattle.std.specs.Prelude.{◌≡◌, ◌≢◌, ◌≤◌, ◌<◌, false, Some, length, IfOk, OnOk, OnErr};
    ghost use Rattle.bytetext.specs.declared.moment.TheConstants.{MOMENTS_END as end_of_moments};
    ghost use Rattle.botcore.specs.Rising.{IsReached};
    ghost use Rattle.bottimers.specs.Seconds.{reading_fault, seconds_run};
    ghost use Rattle.sharelink.specs.declared.TheConstants.{MAX_TEXTS};
    ghost use Rattle.botcore.specs.Acting.{faults_of};
    ghost use Rattle.botcore.specs.Happenings.{seconds_of};
    ghost use Rattle.botcore.specs.Lines.{acting_of, acting_after, finish_reading};
    ghost use Rattle.botcore.specs.Progress.{HasMore};
    ghost use Rattle.botcore.specs.Quiet.{PassesQuietly};
    ghost use Rattle.botcore.specs.Shown.{AreOccasions};
    ghost use Rattle.botcore.specs.Steps.{TakesReading, is_past, run_to};

    /// Makes the step of the reading `now` with the procs of `store`, as [`Bot::step`] does for [`BotEvent::Clock`]. It
    /// sends at most 64 packets.
    pub fn read_clock<P: Promise, B: Run>(
        &mut self,
        alloc: Global,
        store: &ProcStore<P, B>,
        now: u64,
    ) -> Report
        ensures takes { TakesReading (reading_fault now) P.promised store.now self.old now result self.new }
        ensures few { length result.packets ≤ MAX_TEXTS }
        ensures needs_none { PassesQuietly self.old now → result.end ≢ End.NoMemory }
    {
        if now >= MOMENTS_END {
            return Report::refused(alloc, Refusal::Clock(ClockFault::BadMoment));
        }
        if is_stale(self.config.sends_at_once, self.clock.last(), now) {
            return Report::done(alloc, None);
        }
        if self.is_still_until(now) {
            return quiet_report(alloc, self.pass_to(alloc, now));
        }
        let ran = match self.run(alloc, now) {
            Ok(ran) => ran,
            Err(NoMemory) => return Report::cut_short(alloc, Seq::empty(alloc)),
        };
        let made = match self.call_procs(alloc, store, Some(now), ran.occasions.as_slice()) {
            Ok(made) => made,
            Err(made) => return Report::cut_short(alloc, made.into_parts().0),
        };
        let (calls, unbound) = made.into_parts();
        match self.settle_at(alloc, calls.as_slice(), unbound, ran.clock, ran.timers, now) {
            Ok(told) => Report::told(None, calls, told.packets, told.lines, told.faults),
            Err(NoMemory) => Report::cut_short(alloc, calls),
        }
    }

    // Advances copies of the clock and the timers to a reading.
    fn run(&self, alloc: Global, now: u64) -> Result<Ran, NoMemory>
        requires moment { now < end_of_moments }
        requires above { is_past self.now.clock now ≡ false }
        ensures clock { IfOk result (λ ran. ran.clock ≡ (run_to self.now now).clock) }
        ensures timers { IfOk result (λ ran. ran.timers ≡ (run_to self.now now).timers) }
        ensures reading { IfOk result (λ ran. IsReached ran.timers.last ran.clock) }
        ensures occasions { IfOk result (λ ran. AreOccasions
            (seconds_of self.now.config.zone self.now.timers (seconds_run self.now.clock now)) ran.occasions.items) }
    {
        let mut clock = self.clock.copy(alloc)?;
        let mut timers = self.timers.copy(alloc)?;
        let seconds = match clock.advance(alloc, now) {
            Ok(seconds) => seconds,
            Err(_) => return Err(NoMemory),
        };
        let occasions = run_seconds(alloc, &mut timers, &self.config, seconds.as_slice())?;
        Ok(Ran {
            clock,
            timers,
            occasions,
        })
    }

    // Stores this clock and these timers, carries out all actions of calls and sends the lines that may go: all of it,
    // or nothing.
    fn settle_at(
        &mut self,
        alloc: Global,
        calls: &[MadeCall],
        unbound: Vec<Unbound>,
        clock: Clock,
        timers: Timers,
        now: u64,
    ) -> Result<Told, NoMemory>
        requires reading { IsReached timers.last clock }
        requires moment { now < end_of_moments }
        ensures faults { IfOk result (λ told. told.faults ≡
            faults_of (acting_of (record self.old { clock = clock; timers = timers })) calls.now unbound.items) }
        ensures packets { IfOk result (λ told. told.packets ≡
            (acting_after (record self.old { clock = clock; timers = timers }) calls.now).sent) }
        ensures lines { IfOk result (λ told. told.lines ≡
            (finish_reading (record self.old { clock = clock; timers = timers }) now calls.now).lines) }
        ensures few { IfOk result (λ told. length told.packets ≤ MAX_TEXTS) }
        ensures ok { OnOk result (self.new ≡
            (finish_reading (record self.old { clock = clock; timers = timers }) now calls.now).after) }
        ensures err { OnErr result (self.new ≡ self.old) }
    {
        let old = self.set_clock(clock, timers);
        match self.settle_reading(alloc, calls, unbound, now) {
            Ok(told) => Ok(told),
            Err(NoMemory) => {
                self.set_clock(old.0, old.1);
                Err(NoMemory)
            }
        }
    }

    // Carries out all actions of calls and sends the lines that may go, or does nothing.
    fn settle_reading(
        &mut self,
        alloc: Global,
        calls: &[MadeCall],
        unbound: Vec<Unbound>,
        now: u64,
    ) -> Result<Told, NoMemory>
        requires { now < end_of_moments }
        ensures faults { IfOk result (λ told. told.faults ≡ faults_of (acting_of self.old) calls.now unbound.items) }
        ensures packets { IfOk result (λ told. told.packets ≡ (acting_after self.old calls.now).sent) }
        ensures lines { IfOk result (λ told. told.lines ≡ (finish_reading self.old now calls.now).lines) }
        ensures few { IfOk result (λ told. length told.packets ≤ MAX_TEXTS) }
        ensures ok { OnOk result (self.new ≡ (finish_reading self.old now calls.now).after) }
        ensures err { OnErr result (self.new ≡ self.old) }
    {
        let marks = self.marks();
        match self.act_on_reading(alloc, calls, unbound, now) {
            Ok(told) => Ok(told),
            Err(NoMemory) => {
                self.take_back(marks);
                Err(NoMemory)
            }
        }
    }

    // Does the same, but out of memory some asks and lines may have been added. Lines are sent last.
    fn act_on_reading(
        &mut self,
        alloc: Global,
        calls: &[MadeCall],
        unbound: Vec<Unbound>,
        now: u64,
    ) -> Result<Told, NoMemory>
        requires { now < end_of_moments }
        ensures faults { IfOk result (λ told. told.faults ≡ faults_of (acting_of self.old) calls.now unbound.items) }
        ensures packets { IfOk result (λ told. told.packets ≡ (acting_after self.old calls.now).sent) }
        ensures lines { IfOk result (λ told. told.lines ≡ (finish_reading self.old now calls.now).lines) }
        ensures few { IfOk result (λ told. length told.packets ≤ MAX_TEXTS) }
        ensures ok { OnOk result (self.new ≡ (finish_reading self.old now calls.now).after) }
        ensures err { OnErr result (HasMore self.old self.new) }
    {
        let Left {
            timers,
            packets,
            faults,
        } = self.carry_out(alloc, calls, unbound)?;
        let most = self.most();
        let lines = self.queues.drain(alloc, now, most)?;
        self.put_timers(timers);
        Ok(Told {
            packets,
            lines,
            faults,
        })
    }

    // Stores this clock and these timers, and returns the previous ones. Does not allocate.
    fn set_clock(&mut self, clock: Clock, timers: Timers) -> (Clock, Timers)
        requires { IsReached timers.last clock }
        ensures new { self.new ≡ record self.old { clock = clock; timers = timers } }
        ensures clock { result.0 ≡ self.old.clock }
        ensures timers { result.1 ≡ self.old.timers }
        ensures reading { IsReached result.1.last result.0 }
    {
        let old_clock = mem::replace(&mut self.clock, clock);
        let old_timers = mem::replace(&mut self.timers, timers);
        (old_clock, old_timers)
    }
}

// Returns the report of a reading that calls nothing. Does not allocate.
fn quiet_report(alloc: Global, lines: Result<Texts, NoMemory>) -> Report
    ensures done { IfOk lines (λ lines. result ≡ told None [] [] lines []) }
    ensures lacks { OnErr lines (result ≡ cut_short []) }
{
    match lines {
        Ok(lines) => Report::told(
            None,
            Seq::empty(alloc),
            Seq::empty(alloc),
            lines,
            Seq::empty(alloc),
        ),
        Err(NoMemory) => Report::cut_short(alloc, Seq::empty(alloc)),
    }
}

// Whether a reading does nothing: it is not above the last one, or, if the bot sends at once, it is before the last one.
fn is_stale(at_once: bool, last: Option<u64>, now: u64) -> bool
    ensures stale { result ≡ is_stale at_once last now }
    ensures above { result ≡ false → is_past last now ≡ false }
{
    match last {
        Some(last) => now < last || (now == last && !at_once),
        None => false,
    }
}
