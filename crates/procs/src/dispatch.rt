// Calls the procs of occasions.
ghost use Rattle.std.specs.Prelude.{◌≡◌, ◌&&◌, true, OnErr};
ghost use Rattle.std.specs.List.{list_any};
ghost use Rattle.procs.specs.Calls.{seen};
ghost use Rattle.procs.specs.Dispatching.{is_word, takes_memory};
ghost use Rattle.procs.specs.Dispatched.{setting_in, IsDispatched};
ghost use Rattle.procs.specs.Occasions.{by_nobody};

use crate::bind_kind::BindKind;
use crate::call::Call;
use crate::call_kind::CallKind;
use crate::called::Called;
use crate::event::BindEvent as Occurrence;
use crate::heard::{call_by, kind_of};
use crate::made_call::{MadeCall, MadeCalls, Unbound};
use crate::next::{Next, is_word, next_of};
use crate::people::People;
use crate::proc_fault::CallFault;
use crate::promise::Promise;
use crate::run::Run;
use crate::scene::Scene;
use crate::trigger::{Trigger, cron_call, due_call, said_call, time_call};
use bottimers::{CivilMinute, time_text};
use bytetext::{Failure, NoMemory, Seq, Text, TryCopy, first_word};
use chanstate::IrcEvent;
use flagexpr::Flags;
use std::alloc::Global;
use std::marker::Model;

/// The calls that were made for a list of occasions, and the binds and timers that were left out because the store
/// lacks their procs. A bind appears once for each occasion that calls it. Contracts see the two lists, each in order.
#[derive(Drop)]
pub struct Dispatch {
    calls: Vec<MadeCall>,
    unbound: Vec<Unbound>,
}

impl Model for Dispatch {
    ghost use Rattle.procs.specs.Made.{Made};

    ghost Value = { Made };

    ghost view = { λ d. record { calls = d.calls.items; unbound = d.unbound.items } };
}

impl Dispatch {
    ghost use Rattle.std.specs.Prelude.{◌≡◌, ◌∷◌, [], OnOk, OnErr, drop, length, true};
    ghost use Rattle.procs.specs.Calls.{seen};
    ghost use Rattle.procs.specs.Promises.{code_at};
    ghost use Rattle.procs.specs.Tellings.{told_proc, told_all};
    ghost use Rattle.procs.specs.Occasions.{time_seen, cron_seen, said_seen, time_call, cron_call, said_call};
    ghost use Rattle.procs.specs.Made.{Adds, AddsFront};
    ghost use Rattle.procs.specs.declared.trigger.Trigger.TheVariants.{Heard};
    ghost use Rattle.procs.specs.Dispatching.{told, told_heard, told_seen, told_due, takes_memory};
    ghost use Rattle.procs.specs.Dispatched.{setting_in};
    ghost use Rattle.procs.specs.Heard.{people_in};

    /// Creates a dispatch without calls and without left-out binds. Does not allocate.
    pub fn new(alloc: Global) -> Dispatch
        ensures { result ≡ record { calls = []; unbound = [] } }
    {
        Dispatch {
            calls: Vec::new(alloc),
            unbound: Vec::new(alloc),
        }
    }

    /// Returns the calls and the left-out binds, each in order. Does not allocate.
    pub fn into_parts(self) -> (MadeCalls, Vec<Unbound>)
        ensures calls { result.0 ≡ self.calls }
        ensures unbound { result.1.items ≡ self.unbound }
    {
        (Seq::new(self.calls), self.unbound)
    }

    // Calls a proc for the bind `number`, or records that the store lacks it.
    fn call_proc<P: Promise, B: Run>(
        &mut self,
        alloc: Global,
        scene: &Scene<'_, P, B>,
        call: &Call,
        number: u32,
        name: &Text,
    ) -> Result<(), NoMemory>
        ensures ok { OnOk result (Adds P.promised scene.now.view.now self.old
            (told_proc (code_at P.promised scene.now.view.now.sight) scene.now.store.now call.now number name.now ∷ []) self.new) }
        ensures err { OnErr result (self.new ≡ self.old) }
    {
        // Reserves room first, so that every call that is made is recorded.
        self.calls.reserve(1)?;
        let proc = name.copy(alloc)?;
        let call_copy = call.copy(alloc)?;
        match scene.store.call(name.as_bytes(), call, scene.view) {
            Ok(reply) => self.calls.push_reserved(MadeCall {
                bind: number,
                proc,
                call: call_copy,
                reply,
            }),
            Err(Failure::Refused(CallFault::NoSuchProc)) => self
                .unbound
                .push(Unbound { bind: number, proc })?,
            Err(Failure::NoMemory) => return Err(NoMemory),
        }
        Ok(())
    }

    // Calls the proc of each of these binds, in order.
    fn call_each<P: Promise, B: Run>(
        &mut self,
        alloc: Global,
        scene: &Scene<'_, P, B>,
        call: &Call,
        mut binds: Called<'_, '_>,
    ) -> Result<(), NoMemory>
        ensures ok { OnOk result (Adds P.promised scene.now.view.now self.old
            (told_all (code_at P.promised scene.now.view.now.sight) scene.now.store.now call.now binds.entry) self.new) }
        ensures err { OnErr result (AddsFront P.promised scene.now.view.now self.old
            (told_all (code_at P.promised scene.now.view.now.sight) scene.now.store.now call.now binds.entry) self.new) }
    {
        while let Some(bind) = binds.next() {
            match self.call_proc(alloc, scene, call, bind.number, &bind.proc) {
                Ok(()) => {}
                Err(NoMemory) => return Err(NoMemory),
            }
        }
        Ok(())
    }

    // Calls the procs of the binds that this event calls.
    fn call_seen<P: Promise, B: Run>(
        &mut self,
        alloc: Global,
        scene: &Scene<'_, P, B>,
        seen_by: &Occurrence<'_>,
        call: &Call,
    ) -> Result<(), NoMemory>
        ensures ok { OnOk result (Adds P.promised scene.now.view.now self.old
            (told_seen (setting_in P.promised scene.now) (seen seen_by.now) call.now) self.new) }
        ensures err { OnErr result (AddsFront P.promised scene.now.view.now self.old
            (told_seen (setting_in P.promised scene.now) (seen seen_by.now) call.now) self.new) }
    {
        let found = scene.binds.called(seen_by);
        match self.call_each(alloc, scene, call, found) {
            Ok(()) => Ok(()),
            Err(NoMemory) => Err(NoMemory),
        }
    }

    // Calls the proc of a due timer.
    #[tactic(auto, using(crate::proofs::MakingLemmas::front_none))]
    fn call_due<P: Promise, B: Run>(
        &mut self,
        alloc: Global,
        scene: &Scene<'_, P, B>,
        proc: &Text,
        text: &Text,
    ) -> Result<(), NoMemory>
        ensures ok { OnOk result (Adds P.promised scene.now.view.now self.old
            (told_due (setting_in P.promised scene.now) proc.now text.now) self.new) }
        ensures err { OnErr result (AddsFront P.promised scene.now.view.now self.old
            (told_due (setting_in P.promised scene.now) proc.now text.now) self.new) }
    {
        let call = match due_call(alloc, text) {
            Ok(call) => call,
            Err(NoMemory) => return Err(NoMemory),
        };
        match self.call_proc(alloc, scene, &call, 0, proc) {
            Ok(()) => Ok(()),
            Err(NoMemory) => Err(NoMemory),
        }
    }

    // Calls the procs of time binds.
    #[tactic(auto, using(crate::proofs::MakingLemmas::front_none))]
    fn call_time<P: Promise, B: Run>(
        &mut self,
        alloc: Global,
        scene: &Scene<'_, P, B>,
        minute: &CivilMinute,
    ) -> Result<(), NoMemory>
        ensures ok { OnOk result (Adds P.promised scene.now.view.now self.old
            (told_seen (setting_in P.promised scene.now) (time_seen minute.now) (time_call minute.now)) self.new) }
        ensures err { OnErr result (AddsFront P.promised scene.now.view.now self.old
            (told_seen (setting_in P.promised scene.now) (time_seen minute.now) (time_call minute.now)) self.new) }
    {
        let text = match time_text(alloc, minute) {
            Ok(text) => text,
            Err(NoMemory) => return Err(NoMemory),
        };
        let call = match time_call(alloc, minute) {
            Ok(call) => call,
            Err(NoMemory) => return Err(NoMemory),
        };
        let seen = by_nobody(BindKind::Time, text.as_bytes(), None);
        self.call_seen(alloc, scene, &seen, &call)
    }

    // Calls the procs of cron binds.
    #[tactic(auto, using(crate::proofs::MakingLemmas::front_none))]
    fn call_cron<P: Promise, B: Run>(
        &mut self,
        alloc: Global,
        scene: &Scene<'_, P, B>,
        minute: &CivilMinute,
    ) -> Result<(), NoMemory>
        ensures ok { OnOk result (Adds P.promised scene.now.view.now self.old
            (told_seen (setting_in P.promised scene.now) (cron_seen minute.now) (cron_call minute.now)) self.new) }
        ensures err { OnErr result (AddsFront P.promised scene.now.view.now self.old
            (told_seen (setting_in P.promised scene.now) (cron_seen minute.now) (cron_call minute.now)) self.new) }
    {
        let call = match cron_call(alloc, minute) {
            Ok(call) => call,
            Err(NoMemory) => return Err(NoMemory),
        };
        let seen = by_nobody(BindKind::Cron, b"", Some(*minute));
        self.call_seen(alloc, scene, &seen, &call)
    }

    // Calls the procs of bot binds.
    #[tactic(auto, using(crate::proofs::MakingLemmas::front_none))]
    fn call_said<P: Promise, B: Run>(
        &mut self,
        alloc: Global,
        scene: &Scene<'_, P, B>,
        from: u16,
        text: &Text,
    ) -> Result<(), NoMemory>
        ensures ok { OnOk result (Adds P.promised scene.now.view.now self.old
            (told_seen (setting_in P.promised scene.now) (said_seen text.now) (said_call from text.now)) self.new) }
        ensures err { OnErr result (AddsFront P.promised scene.now.view.now self.old
            (told_seen (setting_in P.promised scene.now) (said_seen text.now) (said_call from text.now)) self.new) }
    {
        let call = match said_call(alloc, from, text.as_bytes()) {
            Ok(call) => call,
            Err(NoMemory) => return Err(NoMemory),
        };
        let seen = by_nobody(BindKind::Bot, first_word(text.as_bytes()), None);
        self.call_seen(alloc, scene, &seen, &call)
    }

    // Calls the procs of an event of a message.
    #[tactic(auto, using(crate::proofs::MakingLemmas::front_none))]
    fn call_heard<P: Promise, B: Run>(
        &mut self,
        alloc: Global,
        scene: &Scene<'_, P, B>,
        people: &mut People<'_>,
        event: &IrcEvent,
    ) -> Result<(), NoMemory>
        requires { people.old ≡ people_in scene.now.view.now.sight }
        ensures ok { OnOk result (Adds P.promised scene.now.view.now self.old
            (told_heard (setting_in P.promised scene.now) event.now) self.new) }
        ensures err { OnErr result (AddsFront P.promised scene.now.view.now self.old
            (told_heard (setting_in P.promised scene.now) event.now) self.new) }
        ensures people { people.new ≡ people.old }
        ensures memory { OnErr result (takes_memory (setting_in P.promised scene.now) (Heard event.now) ≡ true) }
    {
        let person = match people.person_of(alloc, event) {
            Ok(person) => person,
            Err(NoMemory) => return Err(NoMemory),
        };
        let seen = Occurrence {
            kind: kind_of(event.kind),
            subject: event.subject.as_bytes(),
            minute: None,
            global: person.flags.global,
            channel: person.flags.chan,
            bot: person.flags.bot,
        };
        let mut found = scene.binds.called(&seen);
        let Some(first) = found.next() else {
            return Ok(());
        };
        let call = match call_by(alloc, person.handle, event) {
            Ok(call) => call,
            Err(NoMemory) => return Err(NoMemory),
        };
        match self.call_proc(alloc, scene, &call, first.number, &first.proc) {
            Ok(()) => {}
            Err(NoMemory) => return Err(NoMemory),
        }
        match self.call_each(alloc, scene, &call, found) {
            Ok(()) => Ok(()),
            Err(NoMemory) => Err(NoMemory),
        }
    }

    // Calls the procs of an occasion, or none if its text is `taken` already.
    fn call_occasion<P: Promise, B: Run>(
        &mut self,
        alloc: Global,
        scene: &Scene<'_, P, B>,
        people: &mut People<'_>,
        occasion: &Trigger,
        taken: bool,
    ) -> Result<(), NoMemory>
        requires { people.old ≡ people_in scene.now.view.now.sight }
        ensures ok { OnOk result (Adds P.promised scene.now.view.now self.old
            (told (setting_in P.promised scene.now) taken occasion.now) self.new) }
        ensures err { OnErr result (AddsFront P.promised scene.now.view.now self.old
            (told (setting_in P.promised scene.now) taken occasion.now) self.new) }
        ensures people { people.new ≡ people.old }
        ensures memory { OnErr result (takes_memory (setting_in P.promised scene.now) occasion.now ≡ true) }
    {
        if is_silent(scene.exclusive, taken, occasion.kind()) {
            return Ok(());
        }
        match occasion {
            Trigger::Heard(event) => self.call_heard(alloc, scene, people, event),
            Trigger::Due { proc, text } => self.call_due(alloc, scene, proc, text),
            Trigger::Time(minute) => self.call_time(alloc, scene, minute),
            Trigger::Cron(minute) => self.call_cron(alloc, scene, minute),
            Trigger::Said { from, text } => self.call_said(alloc, scene, *from, text),
        }
    }

    // Returns the number of calls so far.
    fn call_count(&self) -> usize
        ensures { result ≡ length self.now.calls }
    {
        self.calls.len()
    }

    // Returns the calls after the first `count`.
    fn calls_since(&self, count: usize) -> &[MadeCall]
        ensures { result.now ≡ drop count self.now.calls }
    {
        match self.calls.as_slice().get(count..) {
            Some(calls) => calls,
            None => &[],
        }
    }
}

/// Calls the procs of `occasions`, in order, as `scene` shows them.
///
/// An occasion calls the binds of its kind whose mask and flags allow it, oldest first; a due timer calls its proc
/// with its text. Each proc sees the scene's view. If a raw proc answers 1, nothing follows the raw event. If the
/// scene is exclusive, the first word of a text calls nothing once a proc was called for the whole of that text. If
/// the store lacks the proc of a bind or timer, the dispatch lists it as left out.
///
/// # Errors
/// Out of memory, the error has the calls that were made before: the first of all calls that were due. There is no
/// error if all occasions are events by nobody that call no bind.
pub fn call_procs<P: Promise, B: Run>(
    alloc: Global,
    scene: &Scene<'_, P, B>,
    occasions: &[Trigger],
) -> Result<Dispatch, Dispatch>
    ensures made { IsDispatched P.promised scene.now.view.now (setting_in P.promised scene.now) occasions.now result }
    ensures memory { OnErr result (list_any (takes_memory (setting_in P.promised scene.now)) occasions.now ≡ true) }
{
    let mut made = Dispatch::new(alloc);
    let mut people = People::new(scene.view);
    let mut next = Next::Go { taken: false };
    let mut rest = occasions;
    while let Some((occasion, behind)) = rest.split_first() {
        match next {
            Next::Stop => return Ok(made),
            Next::Go { taken } => {
                let before = made.call_count();
                match made.call_occasion(alloc, scene, &mut people, occasion, taken) {
                    Ok(()) => next = next_of(occasion.kind(), made.calls_since(before)),
                    Err(NoMemory) => return Err(made),
                }
            }
        }
        rest = behind;
    }
    Ok(made)
}

// Whether an occasion of this kind calls nothing because a proc was called for the whole of its text.
fn is_silent(exclusive: bool, taken: bool, kind: CallKind) -> bool
    ensures { result ≡ (exclusive && (taken && is_word kind)) }
{
    exclusive && taken && is_word(kind)
}

// Returns what binds see of an occasion that is by nobody.
fn by_nobody<'a>(kind: BindKind, subject: &'a [u8], minute: Option<CivilMinute>) -> Occurrence<'a>
    ensures { seen result ≡ by_nobody kind subject.now minute }
{
    Occurrence {
        kind,
        subject,
        minute,
        global: Flags::empty(),
        channel: Flags::empty(),
        bot: Flags::empty(),
    }
}
