// What a server says, for the registration and the channels.
ghost use Rattle.std.specs.Prelude.{◌≡◌};

use crate::casing::name_in;
use crate::cue::{Cue, cue_of, param};
use crate::entry::{Entry, Fact};
use crate::irc_connection::{IrcConnection, joined};
use crate::nicks::other_nick;
use crate::own_lines::OwnLines;
use crate::session::Session;
use bytetext::{NoMemory, Text, TryCopy};
use ircline::{Line, Message};
use net::Log;
use rfccase::{Casemapping, same};
use settings::Settings;
use std::alloc::Global;

impl IrcConnection {
    ghost use Rattle.std.specs.Prelude.{◌≡◌, ◌≢◌, ◌<◌, ◌++◌, None, Some, IfOk, IfSome, MatchOption, OnOk, OnErr, is_some, option_map};
    ghost use Rattle.bytetext.specs.declared.moment.TheConstants.{MOMENTS_END};
    ghost use Rattle.serverlink.specs.Asking.{questions_heard};
    ghost use Rattle.serverlink.specs.Casings.{mapping_in};
    ghost use Rattle.serverlink.specs.Cues.{cue_of, new_nick};
    ghost use Rattle.serverlink.specs.Waiting.{HasHeard, HasHeardMessage, casing_heard, wants_in};
    ghost use Rattle.serverlink.specs.Wanting.{nick_heard, nick_noted, regained, regains_in, with_nick};

    /// Processes `line`, which the server sent by second `now` and whose step the bot has made, for the registration,
    /// a login and the channels. `own` is the bot's nick before the line; returns its nick after the line, if the line gives it
    /// one. Asks for another nick if the server rejects it. Puts the lines `perform` of `settings` once after a welcome,
    /// and queues those that may go. Call this for each line once, in order, before the bot's lines for it are queued.
    ///
    /// `log` shows what the server said of the nick and the channels. If `settings` have lines logged, it shows the line
    /// too, but only if `logged`: the bot's step of the line says so.
    ///
    /// # Errors
    /// `NoMemory` if an allocation fails: never without a connection.
    pub fn look<'a, R: AllocGlobal>(
        &mut self,
        rt: &R,
        log: &mut Log,
        settings: &Settings,
        line: &'a Line,
        logged: bool,
        own: &[u8],
        now: u64,
    ) -> Result<Option<&'a [u8]>, NoMemory>
        requires moment { now < MOMENTS_END }
        ensures nick { IfOk result (λ found. MatchOption found (new_nick (mapping_in self.old.session) line.now own.now ≡ None)
            (λ nick. new_nick (mapping_in self.old.session) line.now own.now ≡ Some nick.now)) }
        ensures memory { OnErr result (self.old.session ≢ None) }
        ensures wants { OnOk result
            (HasHeard line.now own.now settings.now.nick now self.old.session self.new.session) }
    {
        let Line::Message(message) = line else {
            return Ok(None);
        };
        if settings.log_lines && logged {
            log_message(log, message, now);
        }
        match self.take_in(rt.alloc(), log, settings, line, message, own, now)? {
            Cue::Welcomed | Cue::Renamed => Ok(Some(param(message, 0))),
            Cue::Joined
            | Cue::Parted
            | Cue::Kicked
            | Cue::Barred
            | Cue::Forwarded
            | Cue::NickRefused
            | Cue::Refused
            | Cue::Supports
            | Cue::Invited
            | Cue::Nothing => Ok(None),
        }
    }

    // Takes in `message`, which is that of `line`. Returns what it means for the bot.
    fn take_in(
        &mut self,
        alloc: Global,
        log: &mut Log,
        settings: &Settings,
        line: &Line,
        message: &Message,
        own: &[u8],
        now: u64,
    ) -> Result<Cue, NoMemory>
        requires moment { now < MOMENTS_END }
        ensures cue { IfOk result (λ cue. cue ≡ cue_of (mapping_in self.old.session) message.now own.now) }
        ensures memory { OnErr result (self.old.session ≢ None) }
        ensures wants { OnOk result
            (HasHeardMessage message.now own.now settings.now.nick now self.old.session self.new.session) }
    {
        // Most lines are what somebody says, which means nothing to the connection.
        if message.is_said() {
            return Ok(Cue::Nothing);
        }
        let mapping = self.casemapping();
        self.hear_for_login(alloc, log, settings, line, now)?;
        let cue = cue_of(mapping, message, own);
        self.hear_casing(message);
        self.note_all(alloc, log, settings, mapping, cue, message, now)?;
        Ok(cue)
    }

    // Does what a message means, if there still is a connection.
    fn note_all(
        &mut self,
        alloc: Global,
        log: &mut Log,
        settings: &Settings,
        mapping: Casemapping,
        cue: Cue,
        message: &Message,
        now: u64,
    ) -> Result<(), NoMemory>
        requires moment { now < MOMENTS_END }
        ensures memory { OnErr result (self.old.session ≢ None) }
        ensures wants { OnOk result (wants_in self.new.session
            ≡ wants_in (nick_noted mapping cue message.now settings.now.nick now self.old.session)) }
    {
        if self.session.is_none() {
            return Ok(());
        }
        self.note(alloc, log, settings, cue, message, now)?;
        self.note_nick(alloc, settings, mapping, cue, message, now)?;
        self.note_channel(alloc, mapping, cue, message)
    }

    // Takes in how the server compares names.
    fn hear_casing(&mut self, message: &Message)
        ensures { self.new.session ≡ casing_heard message.now self.old.session }
    {
        if let Some(session) = &mut self.session {
            session.casing.hear(message);
        }
    }

    // Takes in what a message says of the nick that the bot has, and of the one that it wants.
    fn note_nick(
        &mut self,
        alloc: Global,
        settings: &Settings,
        mapping: Casemapping,
        cue: Cue,
        message: &Message,
        now: u64,
    ) -> Result<(), NoMemory>
        ensures own { OnOk result (self.new.own
            ≡ self.old.own ++ regained mapping self.old.session message.now settings.now.nick now) }
        ensures session { OnOk result (self.new.session
            ≡ nick_noted mapping cue message.now settings.now.nick now self.old.session) }
    {
        self.regain_nick(alloc, settings, mapping, message, now)?;
        match cue {
            Cue::Welcomed | Cue::Renamed => self.hear_nick(alloc, param(message, 0), now),
            Cue::Joined
            | Cue::Parted
            | Cue::Kicked
            | Cue::Barred
            | Cue::Forwarded
            | Cue::NickRefused
            | Cue::Refused
            | Cue::Supports
            | Cue::Invited
            | Cue::Nothing => Ok(()),
        }
    }

    // Queues a NICK if the server says by `message` that nobody has the nick that the bot wants, and the bot lacks it.
    fn regain_nick(
        &mut self,
        alloc: Global,
        settings: &Settings,
        mapping: Casemapping,
        message: &Message,
        now: u64,
    ) -> Result<(), NoMemory>
        ensures own { OnOk result (self.new.own
            ≡ self.old.own ++ regained mapping self.old.session message.now settings.now.nick now) }
        ensures session { OnOk result (self.new.session
            ≡ nick_heard mapping message.now settings.now.nick now self.old.session) }
    {
        let wanted = settings.nick.as_bytes();
        if self.hear_of_nick(mapping, message, wanted, now) {
            self.own.put(Text::new(joined(alloc, b"NICK ", wanted)?))?;
        }
        Ok(())
    }

    // Takes in what a message says of the nick `wanted`. Returns whether to send a NICK.
    fn hear_of_nick(
        &mut self,
        mapping: Casemapping,
        message: &Message,
        wanted: &[u8],
        now: u64,
    ) -> bool
        ensures regains { result ≡ regains_in mapping self.old.session message.now wanted.now now }
        ensures session { self.new.session ≡ nick_heard mapping message.now wanted.now now self.old.session }
        ensures own { self.new.own ≡ self.old.own }
    {
        match &mut self.session {
            Some(session) => session.regain.hear(mapping, message, wanted, now),
            None => false,
        }
    }

    // Notes that the bot has this nick now.
    fn hear_nick(&mut self, alloc: Global, nick: &[u8], now: u64) -> Result<(), NoMemory>
        ensures session { OnOk result (self.new.session ≡ option_map (with_nick nick.now now) self.old.session) }
        ensures own { self.new.own ≡ self.old.own }
    {
        match &mut self.session {
            Some(session) => session.regain.name(alloc, nick, now),
            None => Ok(()),
        }
    }

    // Takes in what a message says of the channels that the process asks about.
    fn note_channel(
        &mut self,
        alloc: Global,
        mapping: Casemapping,
        cue: Cue,
        message: &Message,
    ) -> Result<(), NoMemory>
        ensures { OnOk result (self.new.session ≡ questions_heard mapping cue message.now self.old.session) }
    {
        match &mut self.session {
            Some(session) => session.questions.hear(alloc, mapping, cue, message),
            None => Ok(()),
        }
    }

    // Does what a message means for the registration and the channels, and logs it.
    fn note(
        &mut self,
        alloc: Global,
        log: &mut Log,
        settings: &Settings,
        cue: Cue,
        message: &Message,
        now: u64,
    ) -> Result<(), NoMemory>
        requires moment { now < MOMENTS_END }
        ensures wants { wants_in self.new.session ≡ wants_in self.old.session }
    {
        let mapping = self.casemapping();
        let first = param(message, 0);
        let second = param(message, 1);
        match cue {
            Cue::Welcomed => self.welcome(alloc, log, settings, first, now)?,
            Cue::NickRefused => self.ask_nick(alloc, log, settings, message, now)?,
            Cue::Renamed => log.note(now, &Entry::Plain(Fact::Renamed, first)),
            Cue::Joined => {
                self.channels.join(mapping, first, now);
                log.note(now, &Entry::Plain(Fact::Joined, first));
            }
            Cue::Parted => {
                self.channels.take_off(mapping, first, now);
                log.note(now, &Entry::Plain(Fact::Parted, first));
            }
            Cue::Kicked => {
                self.channels.take_off(mapping, first, now);
                log.note(now, &Entry::Plain(Fact::Kicked, first));
            }
            Cue::Barred => {
                if self.channels.bar(mapping, second, now) {
                    log.note(now, &Entry::Plain(Fact::Barred, second));
                } else {
                    log_refusal(log, message, now);
                }
            }
            Cue::Forwarded => log.note(now, &Entry::Forwarded(second, param(message, 2))),
            Cue::Refused => log_refusal(log, message, now),
            Cue::Supports => note_case(log, mapping, message, now),
            Cue::Invited => {
                if self.channels.invite(mapping, second, now) {
                    log.note(now, &Entry::Plain(Fact::Invited, second));
                }
            }
            Cue::Nothing => {}
        }
        Ok(())
    }

    // The server has welcomed the bot: the lines `perform` are due, once.
    fn welcome(
        &mut self,
        alloc: Global,
        log: &mut Log,
        settings: &Settings,
        nick: &[u8],
        now: u64,
    ) -> Result<(), NoMemory>
        ensures wants { wants_in self.new.session ≡ wants_in self.old.session }
    {
        log.note(now, &Entry::Plain(Fact::Welcomed, nick));
        if !self.is_first_welcome() {
            return Ok(());
        }
        self.channels.welcome_all(now);
        put_all(alloc, &mut self.own, settings.performs.as_slice())?;
        self.rename(alloc, nick)?;
        self.tell_own(log, settings, now)
    }

    // Notes that the server has welcomed the bot. Returns whether it had not before.
    fn is_first_welcome(&mut self) -> bool
        ensures wants { wants_in self.new.session ≡ wants_in self.old.session }
    {
        match &mut self.session {
            Some(session) => session.is_first_welcome(),
            None => false,
        }
    }

    // The server rejects a nick by `message`. Until it has welcomed the bot, the bot asks for another one.
    fn ask_nick(
        &mut self,
        alloc: Global,
        log: &mut Log,
        settings: &Settings,
        message: &Message,
        now: u64,
    ) -> Result<(), NoMemory>
        ensures wants { wants_in self.new.session ≡ wants_in self.old.session }
    {
        match &mut self.session {
            Some(session) => session.ask_nick(alloc, log, settings.nick.as_bytes(), message, now),
            None => Ok(()),
        }
    }
}

impl Session {
    ghost use Rattle.std.specs.Prelude.{◌≡◌};
    ghost use Rattle.serverlink.specs.Waiting.{wants_of};

    // Notes that the server has welcomed the bot. Returns whether it had not before.
    fn is_first_welcome(&mut self) -> bool
        ensures wants { wants_of self.new ≡ wants_of self.old }
    {
        let is_first = !self.is_welcomed;
        self.is_welcomed = true;
        is_first
    }

    // The server rejects a nick by `message`, and the configuration's is `wanted`.
    fn ask_nick(
        &mut self,
        alloc: Global,
        log: &mut Log,
        wanted: &[u8],
        message: &Message,
        now: u64,
    ) -> Result<(), NoMemory>
        ensures wants { wants_of self.new ≡ wants_of self.old }
    {
        if self.is_welcomed {
            log_refusal(log, message, now);
            return Ok(());
        }
        match other_nick(alloc, wanted, self.tried)? {
            Some(nick) => {
                self.tried = self.tried.saturating_add(1);
                log.note(now, &Entry::Plain(Fact::OtherNick, nick.as_bytes()));
                let line = joined(alloc, b"NICK ", nick.as_bytes())?;
                self.wire.tell(line.as_slice(), now)
            }
            None => {
                log.note(now, &Entry::NoNick);
                Ok(())
            }
        }
    }
}

// Queues copies of these lines.
fn put_all(alloc: Global, own: &mut OwnLines, lines: &[Text]) -> Result<(), NoMemory> {
    for line in lines {
        own.put(line.copy(alloc)?)?;
    }
    Ok(())
}

// Logs a casemapping that the server announces (CASEMAPPING of a 005), unless it is the usual one, where `mapping` is the
// one by which the bot goes on.
fn note_case(log: &mut Log, mapping: Casemapping, message: &Message, now: u64) {
    for word in message.params.as_slice() {
        if let Some(name) = name_in(word.as_bytes()) {
            if mapping != Casemapping::Rfc1459 || !same(name, b"rfc1459") {
                log.note(now, &Entry::OtherCase(name, mapping));
            }
        }
    }
}

// Logs that the server rejects something, or ends the connection.
fn log_refusal(log: &mut Log, message: &Message, now: u64) {
    log.note(
        now,
        &Entry::Refused(message.command.as_bytes(), message.rest.as_bytes()),
    );
}

// Logs a whole message, but of a login only the command: who knows its lines can guess passwords at leisure.
fn log_message(log: &mut Log, message: &Message, now: u64) {
    let source = message.prefix.as_bytes();
    let command = message.command.as_bytes();
    let rest = if command == b"AUTHENTICATE".as_slice() {
        b""
    } else {
        message.rest.as_bytes()
    };
    log.note(now, &Entry::Heard(source, command, rest));
}
