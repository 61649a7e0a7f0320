// The answers to PING, the three queues and the send timer.
ghost use Rattle.std.specs.Prelude.{true, ◌≡◌, ◌≢◌, ◌+◌, ◌*◌, ◌<◌, ◌≤◌, length, [], ◌++◌, IsOk, IfNone, IfOk, OnOk, OnErr, Err};
ghost use Rattle.outqueue.specs.Lanes.{first_of};
ghost use Rattle.outqueue.specs.Sending.{Sending, idle, lines_in, without, counts_of, with_first, waiting, gone, next_line, after_line, sent, after, IsGreatest};
ghost use Rattle.outqueue.specs.Sending.{room_in, with_room};
ghost use Rattle.outqueue.specs.Refusals.{refusal, prompt_refusal, refusal_after, Puts, PutsPrompt, PutsReserved};
ghost use Rattle.outqueue.specs.Shares.{waiting_for};
ghost use Rattle.outqueue.specs.Once.{PutsOnce, stands, is_share_full};
ghost use Rattle.outqueue.specs.Joining.{sent_joined, after_joined, next_group, after_group, first_group, without_group, line_of};

use crate::fault::{PutError, QueueFault};
use crate::lane::Lane;
use crate::limits::{AHEAD, COST, MAX_AT_ONCE, MAX_LINES, SHARE};
use crate::line::is_bad_line;
use crate::queue::{Queue, QueueSet};
use crate::target::target_of;
use bytetext::{Failure, MOMENTS_END, NoMemory, Text, Texts, TryCopy, refuse};
use std::alloc::Global;
use std::marker::Model;

/// How many answers to PING wait, and how many lines each queue holds.
#[derive(Clone, Copy, Debug)]
pub struct Counts {
    /// The answers to PING.
    pub prompt: usize,
    /// The mode queue.
    pub mode: usize,
    /// The server queue.
    pub server: usize,
    /// The help queue.
    pub help: usize,
}

/// Lines that wait to be sent, and the send timer.
///
/// Answers to PING go before all other lines: [`put_prompt`](Queues::put_prompt) puts them into a list of their own, which
/// no [`Queue`] names.
///
/// Contracts see this list and those of the three queues, each from the line that goes first, the timer in seconds since
/// 1970-01-01 UTC, and how many more lines each queue has room for.
///
/// ```text
/// let mut queues = Queues::new(alloc);
/// queues.put(Queue::Help, hello)?;
/// queues.put(Queue::Mode, op)?;
/// queues.put_prompt(pong)?;
/// queues.take(100)                                // Some(pong): an answer to PING goes first
/// queues.take(100)                                // Some(op): then the mode queue is served
/// queues.drain(alloc, 100)?                       // hello
/// queues.clear(QueueSet::All)                     // 0
/// ```
///
/// A caller that must not fail half-way reserves room first:
///
/// ```text
/// queues.reserve(Queue::Server, 2)?;              // only this may allocate
/// queues.put_reserved(Queue::Server, join)        // allocates nothing
/// queues.put_reserved(Queue::Server, part)        // allocates nothing
/// ```
pub struct Queues {
    prompt: Lane,
    mode: Lane,
    server: Lane,
    help: Lane,
    timer: u64,
}

// Written by hand, so that it is proved once and not in each function that drops a `Queues`.
impl Drop for Queues {
    fn drop(self) {
        let Queues {
            prompt: _,
            mode: _,
            server: _,
            help: _,
            timer: _,
        } = self;
    }
}

impl Model for Queues {
    ghost use Rattle.outqueue.specs.Sending.{Sending};

    ghost Value = { Sending };

    ghost view = { λ q. record {
      prompt = q.prompt.lines;
      mode = q.mode.lines;
      server = q.server.lines;
      help = q.help.lines;
      timer = q.timer;
      room = record { mode = q.mode.room; server = q.server.room; help = q.help.room };
    } };
}

impl Queues {
    /// Creates empty queues with no room, and a timer that is not ahead of any moment. Allocates nothing.
    pub fn new(alloc: Global) -> Queues
        ensures { result ≡ idle }
    {
        Queues {
            prompt: Lane::new(alloc),
            mode: Lane::new(alloc),
            server: Lane::new(alloc),
            help: Lane::new(alloc),
            timer: 0,
        }
    }

    /// Makes room in `queue` for exactly `count` lines, so that this many calls of [`put`](Queues::put) or
    /// [`put_reserved`](Queues::put_reserved) allocate nothing. Nothing else that is visible changes.
    /// `reserve(queue, 0)` gives the room up.
    ///
    /// # Errors
    /// Returns `NoMemory` if it can't allocate the room, never if there already was as much. The queues are unchanged.
    pub fn reserve(&mut self, queue: Queue, count: usize) -> Result<(), NoMemory>
        ensures ready { OnOk result (self.new ≡ with_room self.old queue count) }
        ensures unchanged { OnErr result (self.new ≡ self.old) }
        ensures needs_none { count ≤ room_in self.old queue → IsOk result }
    {
        match queue {
            Queue::Mode => self.mode.reserve(count),
            Queue::Server => self.server.reserve(count),
            Queue::Help => self.help.reserve(count),
        }
    }

    /// Puts `line`, without its CR LF, at the end of `queue`.
    ///
    /// # Errors
    /// In this order: `BadLine` if the line is empty, longer than 510 bytes, or holds a NUL, a CR or an LF; `QueueFull`
    /// if the queue holds 500 lines; `NoMemory` if it can't allocate room for the line, never if there was room. On any
    /// error the queues are unchanged. Only `NoMemory` comes after an attempt to allocate.
    pub fn put(&mut self, queue: Queue, line: Text) -> Result<(), PutError>
        ensures puts { Puts self.old queue line result self.new }
        ensures needs_none { 0 < room_in self.old queue → result ≢ Err Failure.NoMemory }
    {
        refuse(self.refusal_of(queue, &line))?;
        match queue {
            Queue::Mode => self.mode.put(line)?,
            Queue::Server => self.server.put(line)?,
            Queue::Help => self.help.put(line)?,
        }
        Ok(())
    }

    /// Puts `line`, without its CR LF, at the end of `queue`, unless it is for the mode queue and an equal line waits
    /// there: then nothing changes, and the answer is `Ok`.
    ///
    /// The target of a line is its command and first parameter, as `PRIVMSG ada`: its bytes before the second space,
    /// compared byte by byte. At most [`SHARE`] lines of the server queue and the help queue wait for one target.
    ///
    /// # Errors
    /// Only if no equal line waits in the mode queue, and then in this order: `BadLine` and `QueueFull` as
    /// [`put`](Queues::put) does; `ShareFull` if the line is for the server queue or the help queue and 20 lines of these
    /// queues wait for its target; `NoMemory` if it can't allocate room for the line, never if there was room. On any
    /// error the queues are unchanged. Only `NoMemory` comes after an attempt to allocate.
    #[tactic(auto, unfolding(crate::specs::Once::once_refusal, crate::specs::Once::put_once))]
    pub fn put_once(&mut self, queue: Queue, line: Text) -> Result<(), PutError>
        ensures puts { PutsOnce self.old queue line result self.new }
        ensures needs_none { 0 < room_in self.old queue → result ≢ Err Failure.NoMemory }
        ensures stands { stands self.old queue line ≡ true → IsOk result × (self.new ≡ self.old) }
    {
        if self.stands(queue, &line) {
            return Ok(());
        }
        if self.refusal_of(queue, &line).is_none() && self.is_share_full(queue, &line) {
            return Err(Failure::Refused(QueueFault::ShareFull));
        }
        self.put(queue, line)
    }

    // Returns whether `line` is for the mode queue and waits there already.
    #[tactic(auto, unfolding(crate::specs::Once::stands))]
    fn stands(&self, queue: Queue, line: &Text) -> bool
        ensures { result ≡ stands self.now queue line.now }
    {
        match queue {
            Queue::Mode => self.mode.has(line.as_bytes()),
            Queue::Server | Queue::Help => false,
        }
    }

    // Returns whether the target of `line` has all of its share.
    #[tactic(auto, unfolding(crate::specs::Once::is_share_full))]
    fn is_share_full(&self, queue: Queue, line: &Text) -> bool
        ensures { result ≡ is_share_full self.now queue line.now }
    {
        queue.has_shares() && self.count_for(target_of(line.as_bytes())) >= SHARE
    }

    // Returns how many lines of the server queue and the help queue wait for `target`.
    fn count_for(&self, target: &[u8]) -> usize
        ensures { result ≡ waiting_for self.now target.now }
    {
        self.server.count_for(target) + self.help.count_for(target)
    }

    /// Puts `line` at the end of `queue` as [`put`](Queues::put) does, but in room that was reserved, so it allocates
    /// nothing.
    ///
    /// # Errors
    /// Returns `BadLine` and `QueueFull` as [`put`](Queues::put) does. The queues and the room are unchanged.
    pub fn put_reserved(&mut self, queue: Queue, line: Text) -> Result<(), QueueFault>
        requires { 0 < room_in self.old queue }
        ensures { PutsReserved self.old queue line result self.new }
    {
        if let Some(fault) = self.refusal_of(queue, &line) {
            return Err(fault);
        }
        match queue {
            Queue::Mode => self.mode.put_reserved(line),
            Queue::Server => self.server.put_reserved(line),
            Queue::Help => self.help.put_reserved(line),
        }
        Ok(())
    }

    // Returns why `line` can't be put into `queue`, if it can't.
    #[tactic(auto, unfolding(crate::specs::Refusals::refusal))]
    fn refusal_of(&self, queue: Queue, line: &Text) -> Option<QueueFault>
        ensures refusal { result ≡ refusal self.now queue line.now }
        ensures room { IfNone result (length (lines_in self.now (QueueSet.One queue)) < MAX_LINES) }
    {
        refusal_after(self.len(QueueSet::One(queue)), line)
    }

    /// Puts `line`, without its CR LF, after the answers to PING that wait. No line of a queue goes before it.
    ///
    /// # Errors
    /// In this order: `BadLine` as [`put`](Queues::put) does; `QueueFull` if 500 answers to PING wait; `NoMemory` if it
    /// can't allocate room for the line. On any error nothing changes. Only `NoMemory` comes after an attempt to
    /// allocate.
    pub fn put_prompt(&mut self, line: Text) -> Result<(), PutError>
        ensures { PutsPrompt self.old line result self.new }
    {
        refuse(self.prompt_refusal_of(&line))?;
        self.prompt.put(line)?;
        Ok(())
    }

    // Returns why `line` can't be put after the answers to PING, if it can't.
    #[tactic(auto, unfolding(crate::specs::Refusals::prompt_refusal))]
    fn prompt_refusal_of(&self, line: &Text) -> Option<QueueFault>
        ensures refusal { result ≡ prompt_refusal self.now line.now }
        ensures room { IfNone result (length self.now.prompt < MAX_LINES) }
    {
        refusal_after(self.prompt.len(), line)
    }

    /// Returns how many lines wait in the queue that `which` names, or how many wait in all, the answers to PING
    /// included.
    pub fn len(&self, which: QueueSet) -> usize
        ensures lines { result ≡ length (lines_in self.now which) }
        ensures small { result ≤ 4 * MAX_LINES }
        ensures each { (queue : Queue) → length (lines_in self.now (QueueSet.One queue)) ≤ MAX_LINES }
    {
        let (mode, server, help) = (self.mode.len(), self.server.len(), self.help.len());
        match which {
            QueueSet::One(Queue::Mode) => mode,
            QueueSet::One(Queue::Server) => server,
            QueueSet::One(Queue::Help) => help,
            QueueSet::All => self.prompt.len() + (mode + server + help),
        }
    }

    /// Returns how many answers to PING wait and how many lines each queue holds, for [`keep`](Queues::keep).
    pub fn counts(&self) -> Counts
        ensures { result ≡ counts_of self.now }
    {
        Counts {
            prompt: self.prompt.len(),
            mode: self.mode.len(),
            server: self.server.len(),
            help: self.help.len(),
        }
    }

    /// Drops the last answers to PING and the last lines of each queue, so that at most as many stay as `counts` says. The
    /// timer and the room stay.
    /// Allocates nothing.
    ///
    /// If `counts` is an earlier answer of [`counts`](Queues::counts), this drops exactly the lines that were put
    /// since, provided that none has been sent or cleared.
    pub fn keep(&mut self, counts: Counts)
        ensures { self.new ≡ with_first self.old counts }
    {
        self.prompt.keep(counts.prompt);
        self.mode.keep(counts.mode);
        self.server.keep(counts.server);
        self.help.keep(counts.help);
    }

    /// Drops the lines of the queue that `which` names, or all lines, the answers to PING included. Returns how many they
    /// were. The timer and the room stay.
    pub fn clear(&mut self, which: QueueSet) -> usize
        ensures count { result ≡ length (lines_in self.old which) }
        ensures rest { self.new ≡ without self.old which }
    {
        let count = self.len(which);
        match which {
            QueueSet::One(Queue::Mode) => self.mode.clear(),
            QueueSet::One(Queue::Server) => self.server.clear(),
            QueueSet::One(Queue::Help) => self.help.clear(),
            QueueSet::All => {
                self.prompt.clear();
                self.mode.clear();
                self.server.clear();
                self.help.clear();
            }
        }
        count
    }

    /// Removes and returns the line that may go at `now`, in seconds since 1970-01-01 UTC, if one may. The time that
    /// this takes doesn't grow with the number of lines, and it allocates nothing.
    ///
    /// If the timer is earlier than `now`, it is set to `now`. While it is less than ten seconds ahead of `now`, the
    /// first answer to PING goes, or, if there is none, the first line of the first queue that has one. The timer then
    /// grows by two seconds (RFC 1459 section 8.10).
    #[tactic(auto, unfolding(crate::specs::Sending::next_line, crate::specs::Sending::after_line))]
    pub fn take(&mut self, now: u64) -> Option<Text>
        requires { now < MOMENTS_END }
        ensures line { result ≡ next_line self.old now }
        ensures after { self.new ≡ after_line self.old now }
    {
        self.timer = self.timer.max(now);
        if self.timer >= now + AHEAD {
            return None;
        }
        let line = self.first()?;
        self.timer += COST;
        Some(line)
    }

    // Removes and returns the first answer to PING, or the first line of the first queue that has one.
    fn first(&mut self) -> Option<Text>
        ensures line { result ≡ first_of (waiting self.old) }
        ensures rest { self.new ≡ gone 1 self.old self.old.timer }
    {
        if self.prompt.len() > 0 {
            return self.prompt.pop();
        }
        if self.mode.len() > 0 {
            return self.mode.pop();
        }
        if self.server.len() > 0 {
            return self.server.pop();
        }
        self.help.pop()
    }

    /// Removes and returns all lines that may go at `now`, in seconds since 1970-01-01 UTC: those that [`Queues::take`]
    /// returns until it returns none. They are five at most.
    ///
    /// # Errors
    /// Returns `NoMemory` if it can't allocate the list; the queues are then unchanged. It allocates nothing if no line
    /// goes, because none waits or the timer is ten seconds ahead.
    pub fn drain(&mut self, alloc: Global, now: u64) -> Result<Texts, NoMemory>
        requires { now < MOMENTS_END }
        ensures lines { IfOk result (λ lines. lines ≡ sent self.old now) }
        ensures after { OnOk result (self.new ≡ after self.old now) }
        // No longer list may go.
        ensures greatest { IfOk result (λ lines. IsGreatest self.old now lines) }
        // What stays is the rest, in order.
        ensures rest { IfOk result (λ lines. waiting self.old ≡ lines ++ waiting self.new) }
        ensures err { OnErr result (self.new ≡ self.old) }
        ensures room { self.new.room ≡ self.old.room }
        ensures few { IfOk result (λ lines. length lines ≤ MAX_AT_ONCE) }
        ensures nothing_goes { sent self.old now ≡ [] → IsOk result }
    {
        let mut lines = Vec::with_capacity(alloc, self.due(now))?;
        while let Some(line) = self.take(now) {
            lines.push_reserved(line);
        }
        Ok(Texts::new(lines))
    }

    /// Removes and returns all lines that may go at `now`, as [`drain`](Queues::drain) does, but modes of one channel go
    /// together. They are five lines at most, and each counts as one for the send timer.
    ///
    /// A line of the mode queue that sets or clears `b`, `o` or `v` with its argument, and does nothing else, is a mode of
    /// its channel. It takes along the next modes of that channel, at most `most` in all. The line that they make,
    /// `MODE #egg +o-b ada *!*@host`, has at most [`MAX_JOINED`](crate::MAX_JOINED) bytes. Lines of other channels keep
    /// their places. A line of the same channel that is no such mode, or has no room, ends them: no two lines of one
    /// channel change their order.
    ///
    /// # Errors
    /// Returns `NoMemory` if it can't allocate; the queues are then unchanged. It allocates nothing if no line goes.
    pub fn drain_joined(&mut self, alloc: Global, now: u64, most: usize) -> Result<Texts, NoMemory>
        requires { now < MOMENTS_END }
        ensures lines { IfOk result (λ lines. lines ≡ sent_joined most self.old now) }
        ensures after { OnOk result (self.new ≡ after_joined most self.old now) }
        ensures err { OnErr result (self.new ≡ self.old) }
        ensures room { self.new.room ≡ self.old.room }
        ensures few { IfOk result (λ lines. length lines ≤ MAX_AT_ONCE) }
        ensures nothing_goes { sent_joined most self.old now ≡ [] → IsOk result }
    {
        if self.due(now) == 0 {
            self.timer = self.timer.max(now);
            return Ok(Texts::empty(alloc));
        }
        let mut lines = Vec::with_capacity(alloc, MAX_AT_ONCE)?;
        let mut rest = self.copy(alloc)?;
        for _turn in 0..MAX_AT_ONCE {
            if let Some(line) = rest.take_joined(alloc, now, most)? {
                lines.push_reserved(line);
            }
        }
        *self = rest;
        Ok(Texts::new(lines))
    }

    // Removes the lines that go next at `now`, and returns the line that they make. Out of memory, some of them may be lost.
    #[tactic(auto, unfolding(crate::specs::Joining::next_group, crate::specs::Joining::after_group))]
    fn take_joined(
        &mut self,
        alloc: Global,
        now: u64,
        most: usize,
    ) -> Result<Option<Text>, NoMemory>
        requires { now < MOMENTS_END }
        ensures line { IfOk result (λ line. line ≡ line_of (next_group most self.old now)) }
        ensures after { OnOk result (self.new ≡ after_group most self.old now) }
    {
        self.timer = self.timer.max(now);
        if self.timer >= now + AHEAD {
            return Ok(None);
        }
        let Some(line) = self.first_joined(alloc, most)? else {
            return Ok(None);
        };
        self.timer += COST;
        Ok(Some(line))
    }

    // Removes the lines that go next, and returns the line that they make. Out of memory, some of them may be lost.
    fn first_joined(&mut self, alloc: Global, most: usize) -> Result<Option<Text>, NoMemory>
        ensures line { IfOk result
            (λ line. line ≡ line_of (first_group most self.old.prompt self.old.mode (self.old.server ++ self.old.help))) }
        ensures rest { OnOk result (self.new ≡ without_group most self.old self.old.timer self.old.prompt self.old.mode) }
    {
        if self.prompt.len() > 0 || self.mode.len() == 0 {
            return Ok(self.first());
        }
        self.mode.pop_joined(alloc, most)
    }

    // Returns how many lines go at `now`.
    fn due(&self, now: u64) -> usize
        requires { now < MOMENTS_END }
        ensures { result ≡ length (sent self.now now) }
    {
        let behind = (now + AHEAD).saturating_sub(self.timer.max(now));
        let allowed = (behind + (COST - 1)) / COST;
        self.len(QueueSet::All).min(allowed as usize)
    }
}

impl TryCopy for Queues {
    fn copy(&self, alloc: Global) -> Result<Queues, NoMemory> {
        Ok(Queues {
            prompt: self.prompt.copy(alloc)?,
            mode: self.mode.copy(alloc)?,
            server: self.server.copy(alloc)?,
            help: self.help.copy(alloc)?,
            timer: self.timer,
        })
    }
}

// Returns why `line` can't be put after `count` others, if it can't.
fn refusal_after(count: usize, line: &Text) -> Option<QueueFault>
    ensures refusal { result ≡ refusal_after count line.now }
    ensures room { IfNone result (count < MAX_LINES) }
{
    if is_bad_line(line.as_bytes()) {
        return Some(QueueFault::BadLine);
    }
    if count >= MAX_LINES {
        return Some(QueueFault::QueueFull);
    }
    None
}
