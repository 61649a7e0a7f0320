// The lines of a bot that wait for the server, and how it queues its greeting without allocating.
ghost use Rattle.std.specs.Prelude.{◌≡◌, ◌<◌, ◌&&◌, ◌==◌, [], min, IfOk, IsOk, OnOk, OnErr};
ghost use Rattle.bytetext.specs.declared.moment.TheConstants.{MOMENTS_END as end_of_moments};
ghost use Rattle.outqueue.specs.Sending.{no_room, waiting, with_first};
ghost use Rattle.botcore.specs.Leaving.{leaving, staying};

use crate::automatic::greeting;
use crate::config::Config;
use crate::manner::Manner;
use crate::putting::put_all;
use bytetext::{NoMemory, Seq, Texts, TryCopy};
use outqueue::{Counts, Queues};
use std::alloc::Global;
use std::marker::Model;
use std::mem;

// The lines of a bot that wait for the server.
//
// A bot that has connected queues its greeting, and that must not fail. So the greeting is created once and kept. The
// bot copies it when the first of its lines goes, or when another line follows it.
pub(crate) struct ServerLines {
    // The greeting, as it waits in a bot that has just connected.
    greeting: Queues,
    // How many lines of the greeting wait while `since` is none.
    left: Counts,
    // The lines that wait, unless they are the first of the greeting.
    since: Option<Queues>,
}

// Written by hand, so that it is proved once and not in each function that drops one.
impl Drop for ServerLines {
    fn drop(self) {
        let ServerLines {
            greeting: _,
            left: _,
            since: _,
        } = self;
    }
}

impl Model for ServerLines {
    ghost use Rattle.std.specs.Prelude.{◌≡◌, unwrap_or};
    ghost use Rattle.outqueue.specs.Sending.{no_room, with_first};
    ghost use Rattle.botcore.specs.ServerLines.{ServerLines};

    ghost Value = { ServerLines };

    ghost view = { λ l. record { greeting = l.greeting; current = unwrap_or l.since (with_first l.greeting l.left) } };

    // No line has gone from the greeting, and no room is reserved in it.
    ghost invariant = { λ l. (l.greeting.timer ≡ 0) × (l.greeting.room ≡ no_room) };
}

impl ServerLines {
    ghost use Rattle.std.specs.Prelude.{◌≡◌, ◌<◌, [], IfOk, IsOk, OnOk, OnErr};
    ghost use Rattle.bytetext.specs.declared.moment.TheConstants.{MOMENTS_END as end_of_moments};
    ghost use Rattle.outqueue.specs.Sending.{idle, counts_of, with_first};
    ghost use Rattle.botcore.specs.Leaving.{leaving, staying};
    ghost use Rattle.botcore.specs.ServerLines.{silent};

    // Creates the greeting of a bot with this configuration. Nothing waits.
    pub(crate) fn new(alloc: Global, config: &Config) -> Result<ServerLines, NoMemory>
        ensures { IfOk result (λ lines. lines ≡ silent config.now) }
    {
        let wishes = greeting(alloc, config)?;
        let mut queues = Queues::new(alloc);
        let mut faults = Seq::empty(alloc);
        put_all(&mut queues, &mut faults, Manner::InTurn, wishes)?;
        let left = queues.counts();
        Ok(ServerLines {
            greeting: queues,
            left,
            since: Some(Queues::new(alloc)),
        })
    }

    // Drops the lines that wait, and queues the greeting. Does not allocate.
    pub(crate) fn greet(&mut self)
        ensures { self.new ≡ record self.old { current = self.old.greeting } }
    {
        self.left = self.greeting.counts();
        self.since = None;
    }

    // Replaces the lines that wait. Does not allocate.
    pub(crate) fn set(&mut self, queues: Queues)
        ensures { self.new ≡ record self.old { current = queues } }
    {
        self.since = Some(queues);
    }

    // Removes all lines that wait, and returns them in their queues. Allocates only if they are of the greeting, to copy
    // them.
    pub(crate) fn take(&mut self, alloc: Global) -> Result<Queues, NoMemory>
        ensures taken { IfOk result (λ queues. queues ≡ self.old.current) }
        ensures ok { OnOk result (self.new ≡ record self.old { current = idle }) }
        ensures err { OnErr result (self.new ≡ self.old) }
    {
        match &mut self.since {
            Some(since) => Ok(mem::replace(since, Queues::new(alloc))),
            None => {
                let queues = first_of(alloc, &self.greeting, self.left)?;
                self.since = Some(Queues::new(alloc));
                Ok(queues)
            }
        }
    }

    // Removes and returns the lines that may go; at most `most` modes of one channel go together, or, if it is none, each
    // goes alone. Does not allocate if none goes.
    pub(crate) fn drain(
        &mut self,
        alloc: Global,
        now: u64,
        most: Option<usize>,
    ) -> Result<Texts, NoMemory>
        requires { now < end_of_moments }
        ensures lines { IfOk result (λ lines. lines ≡ leaving most self.old.current now) }
        ensures ok { OnOk result (self.new ≡ record self.old { current = staying most self.old.current now }) }
        ensures err { OnErr result (self.new ≡ self.old) }
        ensures room { self.new.current.room ≡ self.old.current.room }
        ensures needs_none { leaving most self.old.current now ≡ [] → IsOk result }
    {
        match &mut self.since {
            Some(since) => drained(since, alloc, now, most),
            None => {
                let mut since = first_of(alloc, &self.greeting, self.left)?;
                let lines = drained(&mut since, alloc, now, most)?;
                self.since = Some(since);
                Ok(lines)
            }
        }
    }

    // Returns how many lines wait in each queue.
    pub(crate) fn counts(&self) -> Counts
        ensures { result ≡ counts_of self.now.current }
    {
        match &self.since {
            Some(since) => since.counts(),
            None => fewer(self.left, self.greeting.counts()),
        }
    }

    // Drops the last lines of each queue, so that at most as many stay as `counts` says. Does not allocate.
    pub(crate) fn keep(&mut self, counts: Counts)
        ensures { self.new ≡ record self.old { current = with_first self.old.current counts } }
    {
        match &mut self.since {
            Some(since) => since.keep(counts),
            None => self.left = fewer(counts, self.left),
        }
    }
}

// Removes and returns the lines of `queues` that may go. Does not allocate if none goes.
fn drained(
    queues: &mut Queues,
    alloc: Global,
    now: u64,
    most: Option<usize>,
) -> Result<Texts, NoMemory>
    requires { now < end_of_moments }
    ensures lines { IfOk result (λ lines. lines ≡ leaving most queues.old now) }
    ensures ok { OnOk result (queues.new ≡ staying most queues.old now) }
    ensures err { OnErr result (queues.new ≡ queues.old) }
    ensures room { queues.new.room ≡ queues.old.room }
    ensures needs_none { leaving most queues.old now ≡ [] → IsOk result }
{
    match most {
        Some(most) => queues.drain_joined(alloc, now, most),
        None => queues.drain(alloc, now),
    }
}

// Copies the first lines of a greeting. Does not allocate if there are none.
fn first_of(alloc: Global, greeting: &Queues, left: Counts) -> Result<Queues, NoMemory>
    requires timer { greeting.now.timer ≡ 0 }
    requires room { greeting.now.room ≡ no_room }
    ensures copy { IfOk result (λ queues. queues ≡ with_first greeting.now left) }
    ensures needs_none { waiting (with_first greeting.now left) ≡ [] → IsOk result }
{
    if is_none(fewer(left, greeting.counts())) {
        return Ok(Queues::new(alloc));
    }
    let mut queues = greeting.copy(alloc)?;
    queues.keep(left);
    Ok(queues)
}

// Returns the smaller of each two numbers.
fn fewer(one: Counts, other: Counts) -> Counts
    ensures { result ≡ record {
      prompt = min one.prompt other.prompt;
      mode = min one.mode other.mode;
      server = min one.server other.server;
      help = min one.help other.help;
    } }
{
    Counts {
        prompt: one.prompt.min(other.prompt),
        mode: one.mode.min(other.mode),
        server: one.server.min(other.server),
        help: one.help.min(other.help),
    }
}

// Whether all of these numbers are 0.
fn is_none(counts: Counts) -> bool
    ensures { result ≡ (counts.prompt == 0 && (counts.mode == 0 && (counts.server == 0 && counts.help == 0))) }
{
    counts.prompt == 0 && counts.mode == 0 && counts.server == 0 && counts.help == 0
}
