// Carries out the actions of calls.

use crate::fault::{ActionFault, StepFault};
use crate::manner::Manner;
use crate::putting::put_in;
use crate::report::Faults;
use bottimers::{TimerKind, Timers};
use bytetext::{Failure, NoMemory, Seq, TryCopy};
use disks::Disk;
use outqueue::Queues;
use procs::{Action, BotWish, MadeCall, PutWish, TimerName, TimerWish};
use sharelink::{BotLink, Outgoings};
use std::alloc::Global;
use std::marker::Model;
use userfile::Change;

// What actions have changed so far besides the link, and what went wrong.
#[derive(Drop)]
pub(crate) struct Doing {
    // The timers; new timers are made at the last second.
    pub(crate) timers: Timers,
    // The last second of the clock.
    pub(crate) last: Option<u64>,
    // The texts that go out.
    pub(crate) sent: Outgoings,
    // The lines for the server.
    pub(crate) queues: Queues,
    // How lines are queued.
    pub(crate) manner: Manner,
    // What went wrong.
    pub(crate) faults: Faults,
}

impl Model for Doing {
    ghost use Rattle.std.specs.Prelude.{◌≤◌, length};
    ghost use Rattle.bottimers.specs.Held.{IsNotBelow};
    ghost use Rattle.sharelink.specs.declared.TheConstants.{MAX_TEXTS};
    ghost use Rattle.botcore.specs.Progress.{Progress};

    ghost Value = { Progress };

    ghost view = { λ d. record {
      timers = d.timers;
      last = d.last;
      sent = d.sent;
      queues = d.queues;
      manner = d.manner;
      faults = d.faults;
    } };

    ghost invariant = { λ d. IsNotBelow d.timers.last d.last × (length d.sent ≤ MAX_TEXTS) };
}

impl Doing {
    ghost use Rattle.std.specs.Prelude.{◌≡◌, ◌++◌, ◌∷◌, [], length, OnOk};
    ghost use Rattle.bottimers.specs.Held.{IsNotBelow, holds_named};
    ghost use Rattle.botcore.specs.declared.fault.StepFault.TheVariants.{Action as action_fault};
    ghost use Rattle.sharelink.specs.BotLinks.{BotEnd, asked};
    ghost use Rattle.botcore.specs.Acting.{acted, actions_of, asked_to, killed_if, put_fault, put_unless, sent_if, timer_made};
    ghost use Rattle.botcore.specs.Links.{link_text};
    ghost use Rattle.botcore.specs.Putting.{HasMoreLines};
    ghost use Rattle.botcore.specs.Progress.{HasMoreAsks, Leaves, LeavesAll, acting_at};

    // Creates the state before the first action. Does not allocate.
    pub(crate) fn new(
        alloc: Global,
        timers: Timers,
        last: Option<u64>,
        queues: Queues,
        manner: Manner,
        faults: Faults,
    ) -> Doing
        requires { IsNotBelow timers.last last }
        ensures { result ≡ record {
          timers = timers;
          last = last;
          sent = [];
          queues = queues;
          manner = manner;
          faults = faults;
        } }
    {
        Doing {
            timers,
            last,
            sent: Seq::empty(alloc),
            queues,
            manner,
            faults,
        }
    }

    // Carries out the actions of all calls, in order, and records the refusals. Out of memory, some of them are
    // carried out; the caller can take back the asks and lines that they added.
    pub(crate) fn act_for<D: Disk>(
        &mut self,
        alloc: Global,
        link: &mut BotLink<D>,
        calls: &[MadeCall],
    ) -> Result<(), NoMemory>
        ensures done { OnOk result (LeavesAll link.old self.old (actions_of calls.now) link.new self.new) }
        ensures kept { HasMoreAsks link.old link.new }
        ensures lines { HasMoreLines self.old.queues self.new.queues }
    {
        for call in calls {
            self.act_all(alloc, link, call.reply.actions.as_slice())?;
        }
        Ok(())
    }

    // Carries out these actions, in order.
    fn act_all<D: Disk>(
        &mut self,
        alloc: Global,
        link: &mut BotLink<D>,
        actions: &[Action],
    ) -> Result<(), NoMemory>
        ensures done { OnOk result (LeavesAll link.old self.old actions.now link.new self.new) }
        ensures kept { HasMoreAsks link.old link.new }
        ensures lines { HasMoreLines self.old.queues self.new.queues }
    {
        for action in actions {
            self.act(alloc, link, action)?;
        }
        Ok(())
    }

    // Carries out an action, or records why not.
    #[tactic(auto, using(crate::proofs::AskLemmas::HasMoreAsks_refl, crate::proofs::PutLemmas::HasMoreLines_same))]
    fn act<D: Disk>(
        &mut self,
        alloc: Global,
        link: &mut BotLink<D>,
        action: &Action,
    ) -> Result<(), NoMemory>
        ensures done { OnOk result (Leaves self.old (acted (acting_at link.old self.old) action.now) link.new self.new) }
        ensures kept { HasMoreAsks link.old link.new }
        ensures lines { HasMoreLines self.old.queues self.new.queues }
    {
        match action {
            Action::Ask(change) => self.ask(alloc, link, change),
            Action::Timer(wish) => self.make_timer(alloc, TimerKind::Minutes, wish),
            Action::Utimer(wish) => self.make_timer(alloc, TimerKind::Seconds, wish),
            Action::KillTimer(name) => self.kill_timer(name),
            Action::SendBot(wish) => self.send_text(alloc, link, wish),
            Action::Put(wish) => self.put(alloc, wish),
        }
    }

    // Queues a change for a pump, or records why not.
    #[tactic(auto, using(crate::proofs::AskLemmas::HasMoreAsks_refl))]
    fn ask<D: Disk>(
        &mut self,
        alloc: Global,
        link: &mut BotLink<D>,
        change: &Change,
    ) -> Result<(), NoMemory>
        ensures done { OnOk result (Leaves self.old
            (asked_to (acting_at link.old self.old) (asked link.old change.now)) link.new self.new) }
        ensures kept { HasMoreAsks link.old link.new }
        ensures queues { self.new.queues ≡ self.old.queues }
    {
        let change = change.copy(alloc)?;
        match link.ask(alloc, change) {
            Ok(_) => Ok(()),
            Err(Failure::Refused(fault)) => self.tell(ActionFault::Link(fault)),
            Err(Failure::NoMemory) => Err(NoMemory),
        }
    }

    // Makes a timer, or records why not.
    fn make_timer(
        &mut self,
        alloc: Global,
        kind: TimerKind,
        wish: &TimerWish,
    ) -> Result<(), NoMemory>
        ensures done { OnOk result ((link : BotEnd) →
            Leaves self.old (timer_made kind (acting_at link self.old) wish.now) link self.new) }
        ensures queues { self.new.queues ≡ self.old.queues }
    {
        let proc = wish.proc.copy(alloc)?;
        let text = wish.text.copy(alloc)?;
        match self
            .timers
            .add(kind, wish.interval, wish.count, proc, text, self.last)
        {
            Ok(_) => Ok(()),
            Err(Failure::Refused(fault)) => self.tell(ActionFault::Clock(fault)),
            Err(Failure::NoMemory) => Err(NoMemory),
        }
    }

    // Removes a timer, or records why not.
    fn kill_timer(&mut self, name: &TimerName) -> Result<(), NoMemory>
        ensures done { OnOk result ((link : BotEnd) → Leaves self.old (killed_if
            (holds_named self.old.timers name.now.proc name.now.text) (acting_at link self.old) name.now) link self.new) }
        ensures queues { self.new.queues ≡ self.old.queues }
    {
        match self
            .timers
            .kill_named(name.proc.as_bytes(), name.text.as_bytes())
        {
            Ok(()) => Ok(()),
            Err(fault) => self.tell(ActionFault::Clock(fault)),
        }
    }

    // Sends a text, or records why not.
    fn send_text<D: Disk>(
        &mut self,
        alloc: Global,
        link: &BotLink<D>,
        wish: &BotWish,
    ) -> Result<(), NoMemory>
        ensures done { OnOk result (Leaves self.old (sent_if
            (link_text link.now wish.now.to wish.now.text (length self.old.sent)) (acting_at link.now self.old)) link.now self.new) }
        ensures queues { self.new.queues ≡ self.old.queues }
    {
        match link.send_text(alloc, wish.to, wish.text.as_bytes(), self.sent.len()) {
            Ok(outgoing) => self.sent.push(outgoing),
            Err(Failure::Refused(fault)) => self.tell(ActionFault::Link(fault)),
            Err(Failure::NoMemory) => Err(NoMemory),
        }
    }

    // Queues a line, or records why not.
    #[tactic(auto, using(crate::proofs::PutLemmas::HasMoreLines_same))]
    fn put(&mut self, alloc: Global, wish: &PutWish) -> Result<(), NoMemory>
        ensures done { OnOk result ((link : BotEnd) → Leaves self.old (put_unless
            (put_fault (acting_at link self.old) wish.now) (acting_at link self.old) wish.now) link self.new) }
        ensures lines { HasMoreLines self.old.queues self.new.queues }
    {
        let wish = wish.copy(alloc)?;
        match put_in(&mut self.queues, self.manner, wish) {
            Ok(()) => Ok(()),
            Err(Failure::Refused(fault)) => self.tell(ActionFault::Queue(fault)),
            Err(Failure::NoMemory) => Err(NoMemory),
        }
    }

    // Appends a refusal to the faults.
    fn tell(&mut self, fault: ActionFault) -> Result<(), NoMemory>
        ensures told { OnOk result (self.new ≡ record self.old { faults = self.old.faults ++ action_fault fault ∷ [] }) }
        ensures queues { self.new.queues ≡ self.old.queues }
    {
        self.faults.push(StepFault::Action(fault))
    }
}
