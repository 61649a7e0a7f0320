// What is due on a connection even if its server says nothing.

use crate::entry::Entry;
use crate::irc_connection::{IrcConnection, joined};
use crate::questions::who_line;
use crate::session::Session;
use crate::vigil::Care;
use crate::why::Why;
use bytetext::{NoMemory, Text};
use net::Log;
use settings::Settings;
use std::alloc::Global;

impl IrcConnection {
    ghost use Rattle.std.specs.Prelude.{◌≡◌, ◌≢◌, ◌<◌, ◌++◌, ℕ, true, List, [], None, OnOk, OnErr, drop, take, is_some, option_map};
    ghost use Rattle.bytetext.specs.declared.moment.TheConstants.{MOMENTS_END};
    ghost use Rattle.serverlink.specs.Asking.{due_in, question_taken, question_told};
    ghost use Rattle.serverlink.specs.Talks.{TellsMore, pings, stays, talk_in, told, told_all};
    ghost use Rattle.serverlink.specs.Waiting.{AreLast, HasAsked, TellsWaiting, wants_in};
    ghost use Rattle.serverlink.specs.Wanting.{asks_in, nick_asked, questions, watches_in};

    /// Does what is due at second `now` even if the server says nothing. Pings a silent server, or disconnects it.
    /// Queues lines of the process's own, asks to join channels that the bot is not on, and asks for the members of those
    /// that it has joined, in this order and as its pace allows. `settings` say whether `log` shows the lines. Call this at
    /// least once a second, after [`wake`](IrcConnection::wake): silence is measured by the monotonic second of the turn,
    /// and the rest by `now`.
    ///
    /// # Errors
    /// `NoMemory` if an allocation fails: never without a connection. Lines that were queued before it stay queued. The line
    /// whose turn it was may be lost.
    pub fn keep<R: AllocGlobal>(
        &mut self,
        rt: &R,
        log: &mut Log,
        settings: &Settings,
        now: u64,
    ) -> Result<(), NoMemory>
        requires moment { now < MOMENTS_END }
        ensures memory { OnErr result (self.old.session ≢ None) }
        ensures stays { is_some self.new.session ≡ stays self.old.steady self.old.session }
        // A question about the nick that is due waits after the lines that waited before. Afterwards the last of all these
        // wait.
        ensures own { OnOk result
            (AreLast (self.old.own ++ questions self.old.session settings.now.nick now) self.new.own) }
        // Those before them are queued for the server in their order, after a PING that is due. Other lines may follow.
        ensures told { OnOk result ((after : List (List ℕ))
            × TellsWaiting (pings self.old.steady self.old.session)
            (self.old.own ++ questions self.old.session settings.now.nick now) after self.new.own
            (talk_in self.old.session) (talk_in self.new.session)) }
        ensures asked { OnOk result (HasAsked settings.now.nick now self.old.session self.new.session) }
    {
        let care = match &mut self.session {
            Some(session) => session.care(self.steady),
            None => return Ok(()),
        };
        match care {
            Care::Wait => {}
            Care::Ask => self.tell(log, settings, b"PING eggnet", now)?,
            Care::LetGo(loss) => {
                self.lose(log, Why::Care(loss), now);
                return Ok(());
            }
        }
        self.hold();
        self.tell_due(rt.alloc(), log, settings, now)
    }

    // Queues lines of the process's own, and asks for what is due, as many lines as may go.
    fn tell_due(
        &mut self,
        alloc: Global,
        log: &mut Log,
        settings: &Settings,
        now: u64,
    ) -> Result<(), NoMemory>
        ensures same { is_some self.new.session ≡ is_some self.old.session }
        ensures own { OnOk result
            (AreLast (self.old.own ++ questions self.old.session settings.now.nick now) self.new.own) }
        ensures told { OnOk result ((after : List (List ℕ))
            × TellsWaiting [] (self.old.own ++ questions self.old.session settings.now.nick now) after self.new.own
            (talk_in self.old.session) (talk_in self.new.session)) }
        ensures wants { OnOk result
            (wants_in self.new.session ≡ wants_in (nick_asked settings.now.nick now self.old.session)) }
    {
        self.ask_for_nick(alloc, settings, now)?;
        // These first: they come to an end, and the server may never let the bot onto a channel.
        self.tell_own(log, settings, now)?;
        self.join_again(alloc, log, settings, now)?;
        self.ask_for_members(alloc, log, settings, now)
    }

    // A connection that has held for long was a good one.
    fn hold(&mut self)
        ensures session { self.new.session ≡ self.old.session }
        ensures own { self.new.own ≡ self.old.own }
    {
        if let Some(session) = &self.session {
            if session.is_good(self.steady) {
                self.dialling.good();
            }
        }
    }

    // Queues the question whether somebody has the nick that the bot wants, if that is due; by MONITOR, too, if the server
    // has it.
    fn ask_for_nick(&mut self, alloc: Global, settings: &Settings, now: u64) -> Result<(), NoMemory>
        ensures own { OnOk result (self.new.own ≡ self.old.own ++ questions self.old.session settings.now.nick now) }
        ensures session { OnOk result (self.new.session ≡ nick_asked settings.now.nick now self.old.session) }
        ensures same { is_some self.new.session ≡ is_some self.old.session }
    {
        let wanted = settings.nick.as_bytes();
        let watches = self.watches();
        if !self.asks_for_nick(wanted, now) {
            return Ok(());
        }
        if watches {
            self.own
                .put(Text::new(joined(alloc, b"MONITOR + ", wanted)?))?;
        }
        self.own.put(Text::new(joined(alloc, b"ISON ", wanted)?))
    }

    // Whether the server has MONITOR.
    fn watches(&self) -> bool
        ensures { result ≡ watches_in self.now.session }
    {
        match &self.session {
            Some(session) => session.regain.monitors(),
            None => false,
        }
    }

    // Whether the process is due to ask whether somebody has the nick `wanted`. If it is, notes that it asks.
    fn asks_for_nick(&mut self, wanted: &[u8], now: u64) -> bool
        ensures asks { result ≡ asks_in self.old.session wanted.now now }
        ensures session { self.new.session ≡ nick_asked wanted.now now self.old.session }
        ensures own { self.new.own ≡ self.old.own }
    {
        match &mut self.session {
            Some(session) => session.ask_for_nick(wanted, now),
            None => false,
        }
    }

    // Asks to join the channels that are due, as many as may go.
    fn join_again(
        &mut self,
        alloc: Global,
        log: &mut Log,
        settings: &Settings,
        now: u64,
    ) -> Result<(), NoMemory>
        ensures told { OnOk result (TellsMore (talk_in self.old.session) (talk_in self.new.session)) }
        ensures same { is_some self.new.session ≡ is_some self.old.session }
        ensures wants { wants_in self.new.session ≡ wants_in self.old.session }
        ensures own { self.new.own ≡ self.old.own }
    {
        for _channel in 0..self.channels.len() {
            if !self.may_tell(now) || !self.join_next(alloc, log, settings, now)? {
                return Ok(());
            }
        }
        Ok(())
    }

    // Asks to join the channel that has been due the longest. Returns whether one is due.
    fn join_next(
        &mut self,
        alloc: Global,
        log: &mut Log,
        settings: &Settings,
        now: u64,
    ) -> Result<bool, NoMemory>
        ensures told { OnOk result (TellsMore (talk_in self.old.session) (talk_in self.new.session)) }
        ensures same { is_some self.new.session ≡ is_some self.old.session }
        ensures wants { wants_in self.new.session ≡ wants_in self.old.session }
        ensures own { self.new.own ≡ self.old.own }
    {
        let Some(seat) = self.channels.retry_next(now) else {
            return Ok(false);
        };
        let line = joined(alloc, b"JOIN ", seat.channel())?;
        let Some(key) = seat.key() else {
            self.tell(log, settings, line.as_slice(), now)?;
            return Ok(true);
        };
        let line = with_key(line, key)?;
        self.tell_unseen(log, settings, line.as_slice(), now)?;
        Ok(true)
    }

    // Asks for the members of the channels that the bot has joined, as many as may go.
    fn ask_for_members(
        &mut self,
        alloc: Global,
        log: &mut Log,
        settings: &Settings,
        now: u64,
    ) -> Result<(), NoMemory>
        ensures told { OnOk result (TellsMore (talk_in self.old.session) (talk_in self.new.session)) }
        ensures same { is_some self.new.session ≡ is_some self.old.session }
        ensures wants { wants_in self.new.session ≡ wants_in self.old.session }
        ensures own { self.new.own ≡ self.old.own }
    {
        for _channel in 0..self.unasked() {
            if !self.may_tell(now) {
                return Ok(());
            }
            self.ask_next(alloc, log, settings, now)?;
        }
        Ok(())
    }

    // How many channels the bot has joined that the process has not asked about.
    fn unasked(&self) -> usize {
        match &self.session {
            Some(session) => session.questions.len(),
            None => 0,
        }
    }

    // Asks for the members of the channel that the bot joined first of those, if the server has WHOX.
    fn ask_next(
        &mut self,
        alloc: Global,
        log: &mut Log,
        settings: &Settings,
        now: u64,
    ) -> Result<(), NoMemory>
        ensures told { OnOk result (talk_in self.new.session ≡ option_map question_told self.old.session) }
        ensures same { is_some self.new.session ≡ is_some self.old.session }
        ensures wants { wants_in self.new.session ≡ wants_in self.old.session }
        ensures own { self.new.own ≡ self.old.own }
    {
        match self.next_question() {
            Some(channel) => {
                let line = who_line(alloc, channel.as_bytes())?;
                self.tell(log, settings, line.as_slice(), now)
            }
            None => Ok(()),
        }
    }

    // Takes the channel to ask about next, if there is one.
    fn next_question(&mut self) -> Option<Text>
        ensures due { result ≡ due_in self.old.session }
        ensures taken { self.new.session ≡ question_taken self.old.session }
        ensures own { self.new.own ≡ self.old.own }
    {
        match &mut self.session {
            Some(session) => session.questions.next(),
            None => None,
        }
    }

    // Queues lines of the process's own, as many as may go.
    pub(crate) fn tell_own(
        &mut self,
        log: &mut Log,
        settings: &Settings,
        now: u64,
    ) -> Result<(), NoMemory>
        ensures told { OnOk result
            (TellsWaiting [] self.old.own [] self.new.own (talk_in self.old.session) (talk_in self.new.session)) }
        ensures same { is_some self.new.session ≡ is_some self.old.session }
        ensures wants { wants_in self.new.session ≡ wants_in self.old.session }
        ensures own { AreLast self.old.own self.new.own }
    {
        for _line in 0..self.own.len() {
            if !self.may_tell(now) {
                return Ok(());
            }
            self.tell_next(log, settings, now)?;
        }
        Ok(())
    }

    // Queues the oldest line of the process's own.
    fn tell_next(&mut self, log: &mut Log, settings: &Settings, now: u64) -> Result<(), NoMemory>
        ensures told { OnOk result
            (talk_in self.new.session ≡ option_map (told_all (take 1 self.old.own)) (talk_in self.old.session)) }
        ensures same { is_some self.new.session ≡ is_some self.old.session }
        ensures wants { wants_in self.new.session ≡ wants_in self.old.session }
        ensures own { self.new.own ≡ drop 1 self.old.own }
    {
        match self.own.next() {
            Some(line) => self.tell_unseen(log, settings, line.as_bytes(), now),
            None => Ok(()),
        }
    }

    // Queues a line for the server that may hold a password. The log shows that there was one.
    fn tell_unseen(
        &mut self,
        log: &mut Log,
        settings: &Settings,
        line: &[u8],
        now: u64,
    ) -> Result<(), NoMemory>
        ensures told { OnOk result (talk_in self.new.session ≡ option_map (told line.now) (talk_in self.old.session)) }
        ensures same { is_some self.new.session ≡ is_some self.old.session }
        ensures wants { wants_in self.new.session ≡ wants_in self.old.session }
        ensures own { self.new.own ≡ self.old.own }
    {
        let Some(Session { wire, .. }) = &mut self.session else {
            return Ok(());
        };
        wire.tell(line, now)?;
        if settings.log_lines {
            log.note(now, &Entry::ToldOwn);
        }
        Ok(())
    }

    // Whether the process may send a line of its own at second `now`.
    fn may_tell(&self, now: u64) -> bool
        ensures { result ≡ true → is_some self.now.session ≡ true }
    {
        match &self.session {
            Some(session) => session.may_tell(now),
            None => false,
        }
    }
}

// The JOIN in `line`, with the channel's key.
fn with_key(line: Vec<u8>, key: &[u8]) -> Result<Vec<u8>, NoMemory> {
    let mut line = line;
    line.push(b' ')?;
    line.extend_from_slice(key)?;
    Ok(line)
}
