// What calls and their actions do to a bot.
ghost use Rattle.std.specs.Prelude.{◌≡◌, [], map, IfOk, IsFalse, IsOk};
ghost use Rattle.botcore.specs.declared.fault.StepFault.TheVariants.{Unbound as unbound_fault};
ghost use Rattle.botcore.specs.Acting.{actions_of};

use crate::acting::Doing;
use crate::bot::Bot;
use crate::fault::StepFault;
use crate::manner::Manner;
use crate::report::Faults;
use bottimers::Timers;
use bytetext::{NoMemory, Seq, Texts, TryCopy};
use disks::Disk;
use procs::{
    Dispatch, MadeCall, ProcStore, Promise, Run, Scene, Trigger, Unbound, View, call_procs,
};
use sharelink::Outgoings;
use std::alloc::Global;

// What actions leave, besides the link and the queues.
#[derive(Drop)]
pub(crate) struct Left {
    // The timers, if an action may have changed them.
    pub(crate) timers: Option<Timers>,
    // The texts to send.
    pub(crate) packets: Outgoings,
    // The binds and timers that were left out, and then the actions that were refused.
    pub(crate) faults: Faults,
}

// What a report says about the actions of an event.
#[derive(Drop)]
pub(crate) struct Told {
    // The texts to send to other bots.
    pub(crate) packets: Outgoings,
    // The lines to send to the server.
    pub(crate) lines: Texts,
    // What was left out or refused.
    pub(crate) faults: Faults,
}

impl<D: Disk> Bot<D> {
    ghost use Rattle.std.specs.Prelude.{◌≡◌, ◌≤◌, [], length, unwrap_or, IfOk, IfSome, IsOk, OnOk};
    ghost use Rattle.botcore.specs.Rising.{IsReached};
    ghost use Rattle.sharelink.specs.declared.TheConstants.{MAX_TEXTS};
    ghost use Rattle.botcore.specs.Acting.{faults_of};
    ghost use Rattle.botcore.specs.Bots.{bot_setting, seen_at};
    ghost use Rattle.procs.specs.Dispatched.{IsDispatched};
    ghost use Rattle.botcore.specs.Lines.{acting_of, acting_after};
    ghost use Rattle.botcore.specs.Progress.{HasMore};

    // Calls the procs of occasions, which see the bot at this second. Out of memory, only the first of them were
    // called.
    pub(crate) fn call_procs<P: Promise, B: Run>(
        &self,
        alloc: Global,
        store: &ProcStore<P, B>,
        second: Option<u64>,
        occasions: &[Trigger],
    ) -> Result<Dispatch, Dispatch>
        ensures { IsDispatched P.promised (seen_at self.now second) (bot_setting P.promised store.now self.now)
            occasions.now result }
    {
        let view = View::new(self.link.userfile(), self.channels.current(), second);
        let scene = Scene {
            store,
            binds: &self.binds,
            view: &view,
            exclusive: self.config.exclusive,
        };
        call_procs(alloc, &scene, occasions)
    }

    // Carries out the actions of calls on the link and the queues, and returns what else they change. Out of memory,
    // some asks and lines may have been added.
    pub(crate) fn carry_out(
        &mut self,
        alloc: Global,
        calls: &[MadeCall],
        unbound: Vec<Unbound>,
    ) -> Result<Left, NoMemory>
        ensures faults { IfOk result (λ left. left.faults ≡ faults_of (acting_of self.old) calls.now unbound.items) }
        ensures packets { IfOk result (λ left. left.packets ≡ (acting_after self.old calls.now).sent) }
        ensures few { IfOk result (λ left. length left.packets ≤ MAX_TEXTS) }
        ensures timers { IfOk result (λ left. unwrap_or left.timers self.old.timers ≡ (acting_after self.old calls.now).timers) }
        ensures reading { IfOk result (λ left. IfSome left.timers (λ timers. IsReached timers.last self.old.clock)) }
        ensures ok { OnOk result (self.new ≡ record self.old {
          link = (acting_after self.old calls.now).link;
          queues = (acting_after self.old calls.now).queues;
        }) }
        ensures kept { HasMore self.old self.new }
        ensures needs_none { calls.now ≡ [] → unbound.items ≡ [] → IsOk result }
    {
        let faults = left_out(alloc, unbound)?;
        if !asks_any(calls) {
            return Ok(Left {
                timers: None,
                packets: Seq::empty(alloc),
                faults,
            });
        }
        let timers = self.timers.copy(alloc)?;
        let queues = self.queues.take(alloc)?;
        let manner = Manner::usual(self.config.sends_at_once);
        let mut doing = Doing::new(alloc, timers, self.clock.last(), queues, manner, faults);
        let done = doing.act_for(alloc, &mut self.link, calls);
        self.queues.set(doing.queues);
        done?;
        Ok(Left {
            timers: Some(doing.timers),
            packets: doing.sent,
            faults: doing.faults,
        })
    }

    // Stores the timers that actions left, if they may have changed them. Does not allocate.
    pub(crate) fn put_timers(&mut self, timers: Option<Timers>)
        requires { IfSome timers (λ timers. IsReached timers.last self.old.clock) }
        ensures { self.new ≡ record self.old { timers = unwrap_or timers self.old.timers } }
    {
        if let Some(timers) = timers {
            self.timers = timers;
        }
    }
}

// Returns the binds that were left out, as faults.
fn left_out(alloc: Global, unbound: Vec<Unbound>) -> Result<Faults, NoMemory>
    ensures faults { IfOk result (λ faults. faults ≡ map (λ u. unbound_fault u) unbound.items) }
    ensures needs_none { unbound.items ≡ [] → IsOk result }
{
    if unbound.is_empty() {
        return Ok(Seq::empty(alloc));
    }
    let faults = unbound.into_iter().map(StepFault::Unbound).collect(alloc)?;
    Ok(Seq::new(faults))
}

// Whether a call has an action.
fn asks_any(calls: &[MadeCall]) -> bool
    ensures silent { IsFalse result → actions_of calls.now ≡ [] }
    ensures none { calls.now ≡ [] → IsFalse result }
{
    for call in calls {
        if !call.reply.actions.is_empty() {
            return true;
        }
    }
    false
}
