// What a line of the server and a text of another bot do to a bot.
ghost use Rattle.std.specs.Prelude.{◌≡◌, map, IfOk};
ghost use Rattle.chanstate.specs.Events.{events_of};
ghost use Rattle.procs.specs.declared.trigger.Trigger.TheVariants.{Heard};
ghost use Rattle.botcore.specs.Steps.{said_occasions};

use crate::automatic::is_welcome;
use crate::bot::Bot;
use crate::calls::{Left, Told};
use crate::event::BotEvent;
use crate::manner::Manner;
use crate::putting::put_all;
use crate::report::{End, Faults, Note, Report};
use bytetext::{NoMemory, Seq, Text, TryCopy};
use chanstate::{ChanState, events};
use disks::Disk;
use ircline::{Line, Message};
use procs::{
    Dispatch, MadeCall, ProcStore, Promise, PutWish, Run, Trigger, Unbound, has_raw_one,
    starts_with_word,
};
use std::alloc::Global;

impl<D: Disk> Bot<D> {
    ghost use Rattle.std.specs.Prelude.{◌≡◌, ◌≢◌, ◌≤◌, ◌++◌, ◌||◌, [], false, length, map, IfOk, IsOk, IsOkAnd, OnOk, OnErr};
    ghost use Rattle.procs.specs.Hearing.{hear_messages};
    ghost use Rattle.chanstate.specs.Events.{events_of};
    ghost use Rattle.chanstate.specs.Memory.{takes_memory};
    ghost use Rattle.chanstate.specs.Steps.{after};
    ghost use Rattle.chanstate.specs.Views.{connected};
    ghost use Rattle.sharelink.specs.declared.TheConstants.{MAX_TEXTS};
    ghost use Rattle.sharelink.specs.Shapes.{AreGood};
    ghost use Rattle.procs.specs.declared.trigger.Trigger.TheVariants.{Heard as heard_event};
    ghost use Rattle.botcore.specs.Acting.{faults_of};
    ghost use Rattle.botcore.specs.Bots.{bot_seen, bot_setting};
    ghost use Rattle.procs.specs.Dispatched.{IsDispatched};
    ghost use Rattle.botcore.specs.Lines.{acting_of, acting_after, after_calls, after_line, finish_line};
    ghost use Rattle.botcore.specs.Progress.{HasMore};
    ghost use Rattle.botcore.specs.Putting.{put_all, put_faults};
    ghost use Rattle.botcore.specs.Automatic.{is_welcome};
    ghost use Rattle.botcore.specs.Quiet.{BringsNothing, NeedsNone};
    ghost use Rattle.botcore.specs.Steps.{TakesStep, TakesText, said_occasions as occasions_of_text};

    /// Makes the step of `line`, which stays the caller's, with the procs of `store`, as [`Bot::step`] does for
    /// [`BotEvent::Line`]. It sends at most 64 packets.
    pub fn take_line<P: Promise, B: Run>(
        &mut self,
        alloc: Global,
        store: &ProcStore<P, B>,
        line: &Line,
    ) -> Report
        ensures takes { TakesStep P.promised store.now self.old (BotEvent.Line line.now) result self.new }
        ensures few { length result.packets ≤ MAX_TEXTS }
        ensures good_records { AreGood result.packets }
        ensures needs_none { NeedsNone self.old (BotEvent.Line line.now) → result.end ≢ End.NoMemory }
    {
        let message = match line {
            Line::Message(message) => message,
            Line::Bad(fault) => return Report::done(alloc, Some(Note::Bad(*fault))),
        };
        let made = match self.call_for_message(alloc, store, message) {
            Ok(made) => made,
            Err(made) => return Report::cut_short(alloc, made.into_parts().0),
        };
        let (calls, unbound) = made.into_parts();
        // Most messages are what somebody says, and call no proc. They do nothing more.
        if message.is_said() && calls.is_empty() && unbound.as_slice().is_empty() {
            return Report::done(alloc, None);
        }
        let marks = self.marks();
        match self.act_on_message(alloc, calls.as_slice(), unbound, message) {
            Ok(told) => Report::told(None, calls, told.packets, told.lines, told.faults),
            Err(NoMemory) => {
                self.take_back(marks);
                Report::cut_short(alloc, calls)
            }
        }
    }

    // Calls the procs of a message. Out of memory, only the first of them were called. If no bind waits for messages, or
    // a quick look shows that the message calls none, the events of the message are not built.
    fn call_for_message<P: Promise, B: Run>(
        &self,
        alloc: Global,
        store: &ProcStore<P, B>,
        message: &Message,
    ) -> Result<Dispatch, Dispatch>
        ensures dispatched { IsDispatched P.promised (bot_seen self.now) (bot_setting P.promised store.now self.now)
            (map (λ e. heard_event e) (events_of message.now self.now.channels)) result }
        ensures needs_none { hear_messages self.now.binds.binds ≡ false
            → IsOkAnd result (λ made. (made.calls ≡ []) × (made.unbound ≡ [])) }
    {
        if !self.binds.hears_messages() {
            return Ok(Dispatch::new(alloc));
        }
        match self.calls_none(alloc, message) {
            Ok(true) => return Ok(Dispatch::new(alloc)),
            Ok(false) => {}
            Err(NoMemory) => return Err(Dispatch::new(alloc)),
        }
        match heard_of(alloc, message, self.channels.current()) {
            Ok(occasions) => self.call_procs(alloc, store, self.clock.last(), occasions.as_slice()),
            Err(NoMemory) => Err(Dispatch::new(alloc)),
        }
    }

    // Carries out the actions of calls. Then, unless a raw proc has answered 1, queues the bot's own lines and takes the
    // message in. Out of memory, some asks and lines may have been added.
    fn act_on_message(
        &mut self,
        alloc: Global,
        calls: &[MadeCall],
        unbound: Vec<Unbound>,
        message: &Message,
    ) -> Result<Told, NoMemory>
        ensures faults { IfOk result (λ told. told.faults ≡
            faults_of (acting_of self.old) calls.now unbound.items ++ (finish_line self.old message.now calls.now).faults) }
        ensures packets { IfOk result (λ told. told.packets ≡ (acting_after self.old calls.now).sent) }
        ensures lines { IfOk result (λ told. told.lines ≡ []) }
        ensures few { IfOk result (λ told. length told.packets ≤ MAX_TEXTS) }
        ensures ok { OnOk result (self.new ≡ after_line self.old message.now calls.now) }
        ensures err { OnErr result (HasMore self.old self.new) }
        ensures needs_none { calls.now ≡ [] → unbound.items ≡ [] → BringsNothing self.old message.now → IsOk result }
    {
        if has_raw_one(calls) {
            return self.act_alone(alloc, calls, unbound);
        }
        let wishes = self.automatic_lines(alloc, self.welcomed, message)?;
        let manner = self.manner_of(message);
        let Left {
            timers,
            packets,
            mut faults,
        } = self.carry_out(alloc, calls, unbound)?;
        self.put_own(alloc, manner, wishes, &mut faults)?;
        self.take_in(alloc, message)?;
        self.put_timers(timers);
        let lines = Seq::empty(alloc);
        Ok(Told {
            packets,
            lines,
            faults,
        })
    }

    // Carries out the actions of calls, and nothing more. Out of memory, some asks and lines may have been added.
    fn act_alone(
        &mut self,
        alloc: Global,
        calls: &[MadeCall],
        unbound: Vec<Unbound>,
    ) -> Result<Told, NoMemory>
        ensures faults { IfOk result (λ told. told.faults ≡ faults_of (acting_of self.old) calls.now unbound.items) }
        ensures packets { IfOk result (λ told. told.packets ≡ (acting_after self.old calls.now).sent) }
        ensures lines { IfOk result (λ told. told.lines ≡ []) }
        ensures few { IfOk result (λ told. length told.packets ≤ MAX_TEXTS) }
        ensures ok { OnOk result (self.new ≡ after_calls self.old calls.now) }
        ensures err { OnErr result (HasMore self.old self.new) }
        ensures needs_none { calls.now ≡ [] → unbound.items ≡ [] → IsOk result }
    {
        let Left {
            timers,
            packets,
            faults,
        } = self.carry_out(alloc, calls, unbound)?;
        self.put_timers(timers);
        let lines = Seq::empty(alloc);
        Ok(Told {
            packets,
            lines,
            faults,
        })
    }

    // Queues lines of the bot's own in this manner, and appends the refusals to the faults.
    fn put_own(
        &mut self,
        alloc: Global,
        manner: Manner,
        wishes: Vec<PutWish>,
        faults: &mut Faults,
    ) -> Result<(), NoMemory>
        ensures queues { OnOk result (self.new ≡ record self.old { queues = put_all manner self.old.queues wishes.items }) }
        ensures faults { OnOk result (faults.new ≡ faults.old ++ put_faults manner self.old.queues wishes.items) }
        ensures kept { HasMore self.old self.new }
        ensures needs_none { wishes.items ≡ [] → IsOk result }
    {
        if wishes.is_empty() {
            return Ok(());
        }
        let mut queues = self.queues.take(alloc)?;
        let put = put_all(&mut queues, faults, manner, wishes);
        self.queues.set(queues);
        put
    }

    // Applies a message to the channel state.
    fn take_in(&mut self, alloc: Global, message: &Message) -> Result<(), NoMemory>
        ensures ok { OnOk result (self.new ≡ record self.old {
          channels = after message.now self.old.channels;
          welcomed = self.old.welcomed || is_welcome message.now;
        }) }
        ensures err { OnErr result (self.new ≡ self.old) }
        ensures needs_none { takes_memory message.now self.old.channels ≡ false
            → self.old.channels ≢ connected self.old.config.nick → IsOk result }
    {
        // Most messages are what somebody says, which changes no channel.
        if message.is_said() {
            return Ok(());
        }
        match self.channels.apply(alloc, message) {
            Ok(()) => {
                self.welcomed = self.welcomed || is_welcome(message);
                Ok(())
            }
            Err(NoMemory) => Err(NoMemory),
        }
    }

    // Handles a text of another bot: calls its procs, and then carries out all of their actions, or none.
    pub(crate) fn hear_text<P: Promise, B: Run>(
        &mut self,
        alloc: Global,
        store: &ProcStore<P, B>,
        from: u16,
        text: Text,
    ) -> Report
        ensures takes { TakesText P.promised store.now self.old (record { from = from; text = text }) result self.new }
        ensures few { length result.packets ≤ MAX_TEXTS }
    {
        let made = match self.call_for_text(alloc, store, from, &text) {
            Ok(made) => made,
            Err(made) => return Report::cut_short(alloc, made.into_parts().0),
        };
        let (calls, unbound) = made.into_parts();
        match self.settle(alloc, calls.as_slice(), unbound) {
            Ok(told) => {
                let note = Note::Link(sharelink::LinkNote::Text { from, text });
                Report::told(Some(note), calls, told.packets, told.lines, told.faults)
            }
            Err(NoMemory) => Report::cut_short(alloc, calls),
        }
    }

    // Carries out all actions of calls, or none.
    fn settle(
        &mut self,
        alloc: Global,
        calls: &[MadeCall],
        unbound: Vec<Unbound>,
    ) -> Result<Told, NoMemory>
        ensures faults { IfOk result (λ told. told.faults ≡ faults_of (acting_of self.old) calls.now unbound.items) }
        ensures packets { IfOk result (λ told. told.packets ≡ (acting_after self.old calls.now).sent) }
        ensures lines { IfOk result (λ told. told.lines ≡ []) }
        ensures few { IfOk result (λ told. length told.packets ≤ MAX_TEXTS) }
        ensures ok { OnOk result (self.new ≡ after_calls self.old calls.now) }
        ensures err { OnErr result (self.new ≡ self.old) }
    {
        let marks = self.marks();
        match self.act_alone(alloc, calls, unbound) {
            Ok(told) => Ok(told),
            Err(NoMemory) => {
                self.take_back(marks);
                Err(NoMemory)
            }
        }
    }

    // Calls the procs of a text. Out of memory, only the first of them were called.
    fn call_for_text<P: Promise, B: Run>(
        &self,
        alloc: Global,
        store: &ProcStore<P, B>,
        from: u16,
        text: &Text,
    ) -> Result<Dispatch, Dispatch>
        ensures { IsDispatched P.promised (bot_seen self.now) (bot_setting P.promised store.now self.now)
            (occasions_of_text (record { from = from; text = text.now })) result }
    {
        match said_of(alloc, from, text) {
            Ok(occasions) => self.call_procs(alloc, store, self.clock.last(), occasions.as_slice()),
            Err(NoMemory) => Err(Dispatch::new(alloc)),
        }
    }
}

// Returns the events of a message, as occasions.
fn heard_of(
    alloc: Global,
    message: &Message,
    channels: &ChanState,
) -> Result<Vec<Trigger>, NoMemory>
    ensures { IfOk result (λ occasions. occasions.items ≡ map (λ e. Heard e) (events_of message.now channels.now)) }
{
    let events = events(alloc, message, channels)?;
    Ok(events.into_iter().map(Trigger::Heard).collect(alloc)?)
}

// Returns the occasion of a bot's text, if the text begins with a word.
fn said_of(alloc: Global, from: u16, text: &Text) -> Result<Vec<Trigger>, NoMemory>
    ensures { IfOk result (λ occasions. occasions.items ≡ said_occasions (record { from = from; text = text.now })) }
{
    let mut occasions = Vec::new(alloc);
    if starts_with_word(text.as_bytes()) {
        occasions.push(Trigger::Said {
            from,
            text: text.copy(alloc)?,
        })?;
    }
    Ok(occasions)
}
