// One step of a bot.
use crate::bot::Bot;
use crate::event::{BotEvent, NewBind, OldBind};
use crate::report::{End, Report};
use bottimers::{Clock, Timers};
use disks::Disk;
use outqueue::Queues;
use procs::{ProcStore, Promise, Run};
use sharelink::{Answer, Packet};
use std::alloc::Global;

impl<D: Disk> Bot<D> {
    ghost use Rattle.std.specs.Prelude.{◌≡◌, ◌≢◌, ◌≤◌, ◌+◌, [], Some, None, Ok, length};
    ghost use Rattle.botcore.specs.Happenings.{Saying, saying_in};
    ghost use Rattle.botcore.specs.Reports.{answer_report};
    ghost use Rattle.sharelink.specs.declared.TheConstants.{MAX_LEAVES};
    ghost use Rattle.sharelink.specs.Calls.{note_of};
    ghost use Rattle.sharelink.specs.Shapes.{AreGood, HasGoodRecords};
    ghost use Rattle.botcore.specs.Bots.{restarted};
    ghost use Rattle.botcore.specs.Quiet.{NeedsNone};
    ghost use Rattle.botcore.specs.Steps.{TakesStep, TakesText, IsGoodEvent};
    ghost use Rattle.botcore.specs.Steps.{Gives, GivesRestart, GivesBind, GivesUnbind, connect_due, asked_of};

    /// Makes one step: handles `event` with the procs of `store` and reports what came of it.
    ///
    /// A message of the server calls the procs of the binds that its events call. A text of another bot calls the
    /// procs of its first word. A reading of the clock calls, second by second, the procs of due timers, each with its
    /// timer's text, and the procs of the minutes that begin. All of them see the bot's userfile and channels as they
    /// were before the event, and the second of its clock, which at a reading is the second of that reading. When all
    /// procs have answered, the bot carries out their actions in the order of the calls. A refused action is left out
    /// and reported. Then, unless a raw proc has answered 1, the bot applies a message to the channel state and queues
    /// its own lines for it. New timers are made at the last second that the clock has seen. A reading that is the
    /// first, or above the last, ends with the lines that may go then. Every other event is one call of the link or of
    /// the table of binds, or a connect, and calls no procs.
    ///
    /// A restart crashes the disks and opens the journal again. It loses the waiting asks, the channels, the clock,
    /// the timers and the lines for the server, and the next timer has the id 1. The binds stay, and their numbers
    /// continue. If the restart is refused or memory runs out, the bot's end of the link is down, and everything else
    /// stays. The link is also down after a disk failed while the journal was written (S5). While it is down, the bot
    /// refuses asks, pumps, packets and compactions (S2), and also the asks of procs and their texts to other bots.
    /// Everything else still works.
    ///
    /// The report ends with `NoMemory` if an allocation failed. The bot is then as it was, except after a restart, and
    /// the calls that were made are the first of those that were due. These events never end with `NoMemory`:
    ///
    /// - a connect, a line that is not a message, an ask, an unbind, a reading that is refused or does nothing, and each
    ///   call of the link that does not allocate;
    /// - a message, once the bot has taken one in since it connected, if no bind waits for messages, nobody has joined
    ///   a channel on which the bot is op, the bot queues no line, and the channels get no new text or member;
    /// - a reading, if at its seconds no timer is due and no minute begins, and no line may go.
    ///
    /// A step sends at most 1,001 packets.
    #[tactic(auto, using(crate::proofs::AskLemmas::answer_ends))]
    pub fn step<P: Promise, B: Run>(
        &mut self,
        alloc: Global,
        store: &ProcStore<P, B>,
        event: BotEvent,
    ) -> Report
        requires good { IsGoodEvent event }
        ensures takes { TakesStep P.promised store.now self.old event result self.new }
        ensures few { length result.packets ≤ MAX_LEAVES + 1 }
        ensures good_records { AreGood result.packets }
        // An ask does not allocate, nor does an event that calls nothing and brings nothing to keep.
        ensures needs_none { NeedsNone self.old event → result.end ≢ End.NoMemory }
    {
        match event {
            BotEvent::Connect => self.connect(alloc),
            BotEvent::Line(line) => self.take_line(alloc, store, &line),
            BotEvent::Ask(change) => Report::of_answer(alloc, self.link.ask(alloc, change)),
            BotEvent::Pump => Report::of_answer(alloc, self.link.pump(alloc)),
            BotEvent::Receive(packet) => self.receive(alloc, store, &packet),
            BotEvent::Clock(now) => self.read_clock(alloc, store, now),
            BotEvent::Bind(asked) => self.bind(alloc, &asked),
            BotEvent::Unbind(gone) => self.unbind(alloc, &gone),
            BotEvent::Compact => Report::of_answer(alloc, self.link.compact(alloc)),
            BotEvent::Restart => self.restart(alloc),
        }
    }

    // The bot has connected: it is on no channel, not welcomed yet, and queues its greeting alone. Does not allocate.
    fn connect(&mut self, alloc: Global) -> Report
        ensures takes { Gives result.end ⊥ self.old (connect_due self.old) result self.new }
        ensures few { result.packets ≡ [] }
    {
        self.queues.greet();
        self.channels.leave_all();
        self.welcomed = false;
        Report::done(alloc, None)
    }

    // Opens the journal again, and then the bot begins again.
    fn restart(&mut self, alloc: Global) -> Report
        ensures takes { GivesRestart self.old result self.new }
        ensures few { length result.packets ≤ MAX_LEAVES + 1 }
        ensures good_records { AreGood result.packets }
    {
        match self.link.restart(alloc) {
            Ok(answer) => {
                self.lose(alloc);
                Report::of_answer(alloc, Ok(answer))
            }
            Err(why) => Report::of_answer(alloc, Err(why)),
        }
    }

    // Drops everything but the binds and the end of the link. Does not allocate.
    fn lose(&mut self, alloc: Global)
        ensures { self.new ≡ restarted self.old self.old.link }
    {
        self.channels.leave_all();
        self.clock = Clock::new();
        self.timers = Timers::new(alloc);
        self.queues.set(Queues::new(alloc));
        self.welcomed = false;
    }

    // Handles a packet.
    fn receive<P: Promise, B: Run>(
        &mut self,
        alloc: Global,
        store: &ProcStore<P, B>,
        packet: &Packet,
    ) -> Report
        requires { HasGoodRecords packet.now }
        ensures takes { TakesStep P.promised store.now self.old (BotEvent.Receive packet.now) result self.new }
        ensures few { length result.packets ≤ MAX_LEAVES + 1 }
        ensures good_records { AreGood result.packets }
    {
        match self.link.receive(alloc, packet) {
            Ok(answer) => self.take_answer(alloc, store, answer),
            Err(why) => Report::of_answer(alloc, Err(why)),
        }
    }

    // Handles the link's answer to a packet, which may bring a text to this bot.
    fn take_answer<P: Promise, B: Run>(
        &mut self,
        alloc: Global,
        store: &ProcStore<P, B>,
        answer: Answer,
    ) -> Report
        requires { length answer.packets ≤ MAX_LEAVES + 1 }
        ensures text { (saying : Saying) → saying_in (note_of answer.note) ≡ Some saying
            → TakesText P.promised store.now self.old saying result self.new }
        ensures report { saying_in (note_of answer.note) ≡ None → result ≡ answer_report (Ok answer) }
        ensures same { saying_in (note_of answer.note) ≡ None → self.new ≡ self.old }
        ensures few { length result.packets ≤ MAX_LEAVES + 1 }
    {
        let Answer { note, packets } = answer;
        match note {
            sharelink::LinkNote::Text { from, text } => self.hear_text(alloc, store, from, text),
            note => Report::of_answer(alloc, Ok(Answer { note, packets })),
        }
    }

    // Makes a bind.
    fn bind(&mut self, alloc: Global, asked: &NewBind) -> Report
        ensures takes { GivesBind self.old (asked_of asked.now) result self.new }
        ensures few { result.packets ≡ [] }
    {
        let answer = self.binds.bind(
            alloc,
            asked.kind,
            asked.flags.as_bytes(),
            asked.mask.as_bytes(),
            asked.proc.as_bytes(),
        );
        Report::of_bind(alloc, answer)
    }

    // Removes a bind. Does not allocate.
    fn unbind(&mut self, alloc: Global, gone: &OldBind) -> Report
        ensures takes { GivesUnbind self.old gone.now result self.new }
        ensures few { result.packets ≡ [] }
    {
        let answer = self
            .binds
            .unbind(gone.kind, gone.mask.as_bytes(), gone.proc.as_bytes());
        Report::of_unbind(alloc, answer)
    }
}
