// The bot's connection to its servers.
ghost use Rattle.std.specs.Prelude.{◌≡◌, ◌≢◌, ◌<◌, ◌++◌, length, None, IfErr, IfOk, OnErr};
ghost use Rattle.bytetext.specs.declared.moment.TheConstants.{MOMENTS_END};
ghost use Rattle.streams.specs.Accounts.{nothing_yet};

use crate::configured_channels::ConfiguredChannels;
use crate::entry::{Entry, Fact};
use crate::own_lines::OwnLines;
use crate::registering::{begin_login, tell_pass};
use crate::session::Session;
use crate::why::Why;
use bytetext::{Failure, NoMemory, Text};
use net::{DialFault, DialTokens, Dialled, Dialling, Log, Registry};
use registration::Credentials;
use rfccase::Casemapping;
use settings::{Server, Settings};
use std::alloc::Global;
use std::fs::File;
use std::net::Net;
use std::random::RandomSource;
use std::rt::Files;
use tunnels::{Target, dial, tunnel_path};

// The most pieces that one turn reads.
const PIECES: usize = 4;

// The token under which the connection to a server is watched.
const TOKEN: usize = 1;

// With the token under which the lookup of a server's name is watched.
const TOKENS: DialTokens = DialTokens {
    connection: TOKEN,
    lookup: 6,
};

// The longest wait before an attempt to connect, in seconds.
const LONGEST_WAIT: u16 = 300;

/// The connection to a server, if there is one, and what outlasts a connection.
pub struct IrcConnection {
    pub(crate) session: Option<Session>,
    pub(crate) dialling: Dialling,
    // The second of this turn by the monotonic clock.
    pub(crate) steady: u64,
    // The nick that the configuration has now, if it was read again with another one than the bot's own.
    pub(crate) renames: Option<Text>,
    /// The channels on which the bot is to be.
    pub channels: ConfiguredChannels,
    /// The queued lines of the process's own. They are dropped when the server is lost.
    pub own: OwnLines,
    /// The account to which each connection that begins logs in, if any.
    pub account: Option<Credentials>,
}

// Written by hand, so that the drop is proved once, and not in each function that drops one.
impl Drop for IrcConnection {
    fn drop(self) {
        let IrcConnection {
            session: _,
            dialling: _,
            steady: _,
            renames: _,
            channels: _,
            own: _,
            account: _,
        } = self;
    }
}

impl IrcConnection {
    ghost use Rattle.std.specs.Prelude.{◌≡◌, ◌↔◌, ◌∷◌, ◌==◌, true, Some, [], IsTrue, is_some, option_map, slice_get, IfOk, OnOk, MatchOption};
    ghost use Rattle.std.specs.List.{list_any};
    ghost use Rattle.net.specs.Dials.{lost};
    ghost use Rattle.net.specs.Connections.{handed};
    ghost use Rattle.serverlink.specs.Casings.{mapping_in};
    ghost use Rattle.serverlink.specs.Logins.{BeginsIn};
    ghost use Rattle.serverlink.specs.Tagging.{tags_after, tags_in, untagged_in};
    ghost use Rattle.serverlink.specs.Waiting.{wants_in};
    ghost use Rattle.serverlink.specs.Talks.{EndsSilence, MayReadAll, MaySend, ReadsSome, is_still_in, may_give_in, held, told, woken, talk_in};

    /// Creates an uplink from `settings` without a connection; an attempt to connect is due at once. Each connection logs
    /// in to `account`, if there is one.
    ///
    /// # Errors
    /// `NoMemory` if an allocation fails: never if no channel is configured.
    pub fn new(
        alloc: Global,
        settings: &Settings,
        account: Option<Credentials>,
    ) -> Result<IrcConnection, NoMemory>
        requires some { 0 < length settings.now.servers }
        ensures account { IfOk result (λ irc. irc.account ≡ account) }
        ensures memory { IfErr result (λ _. 0 < length settings.now.channels) }
    {
        let number = settings.station.number;
        Ok(IrcConnection {
            session: None,
            dialling: Dialling::new(number, LONGEST_WAIT, settings.servers.len()),
            steady: 0,
            renames: None,
            channels: ConfiguredChannels::new(alloc, settings.channels.as_slice(), number)?,
            own: OwnLines::new(alloc),
            account,
        })
    }

    /// Returns the connection, if there is one. It may not be established yet.
    pub fn session(&self) -> Option<&Session>
        ensures { MatchOption result (self.now.session ≡ None) (λ session. self.now.session ≡ Some session.now) }
    {
        self.session.as_ref()
    }

    /// Returns the casemapping by which the connected server compares names: that of RFC 1459 until the server announces
    /// another one, and without a connection.
    pub fn casemapping(&self) -> Casemapping
        ensures { result ≡ mapping_in self.now.session }
    {
        match &self.session {
            Some(session) => session.casing.mapping(),
            None => Casemapping::Rfc1459,
        }
    }

    /// Returns the second at which the next attempt to connect is due.
    pub fn due(&self) -> u64
        ensures { result ≡ self.now.dialling.waits.due }
    {
        self.dialling.due()
    }

    /// Returns the place in the list of the server that is tried next, or is connected.
    pub fn place(&self) -> usize
        ensures { result ≡ self.now.dialling.place }
    {
        self.dialling.place()
    }

    /// Begins to connect to the next server of `settings` if there is no connection and an attempt is due at second
    /// `now`. Returns whether a connection began; if it did, its first lines are queued: CAP LS 302, and the server's PASS,
    /// if it has one. The registration then logs in to the account, if there is one.
    ///
    /// A server whose port has a plus is connected to through its tunnel alone ([`dial`](tunnels::dial)). Only there the
    /// login may be by PLAIN, which says the password: on a connection without a plus no line has it
    /// ([`laws_of_a_registration`](registration::laws_of_a_registration)).
    ///
    /// While the server's name is looked up, no connection begins, and the attempt stays due: call this in each turn,
    /// after [`wake`](IrcConnection::wake). `log` shows an attempt that begins or cannot begin; if it cannot, the next
    /// server is due after a wait.
    /// `registry` watches the connection under the token 1 and the lookup under the token 6, which nothing else may use.
    ///
    /// # Errors
    /// `NoMemory` if an allocation fails: never if there is a connection. The uplink has none then, and the attempt
    /// stays due.
    pub fn connect<R: AllocGlobal + Net + Files<File = File> + RandomSource>(
        &mut self,
        rt: &R,
        log: &mut Log,
        registry: &Registry,
        settings: &Settings,
        now: u64,
    ) -> Result<bool, NoMemory>
        requires moment { now < MOMENTS_END }
        ensures memory { IfErr result (λ _. self.old.session ≡ None) }
        ensures due { OnErr result (self.new.dialling ≡ self.old.dialling) }
        // A connection that begins asks for the capabilities, and logs in to the account, if there is one. It is private
        // exactly if its server's address has a plus.
        ensures login { IfOk result (λ began. BeginsIn began self.old.account
            (slice_get settings.now.servers self.old.dialling.place) self.new.session) }
    {
        if self.session.is_some() || !self.dialling.is_due(now) {
            return Ok(false);
        }
        let folder = settings.folder.as_bytes();
        match settings.servers.as_slice().get(self.dialling.place()) {
            Some(server) => self.dial(rt, log, registry, folder, server, now),
            None => Ok(false),
        }
    }

    fn dial<R: AllocGlobal + Net + Files<File = File> + RandomSource>(
        &mut self,
        rt: &R,
        log: &mut Log,
        registry: &Registry,
        folder: &[u8],
        server: &Server,
        now: u64,
    ) -> Result<bool, NoMemory>
        requires moment { now < MOMENTS_END }
        ensures due { OnErr result (self.new.dialling ≡ self.old.dialling) }
        ensures login { IfOk result (λ began. BeginsIn began self.old.account (Some server.now) self.new.session) }
    {
        let address = &server.address;
        let target = Target { folder, address };
        match dial(
            &mut self.dialling,
            rt,
            registry,
            TOKENS,
            target,
            self.steady,
        ) {
            Ok(Some(dialled)) => {
                log.note(now, &Entry::Dialled(address.host.as_bytes(), dialled.way));
                self.begin(rt, log, server, dialled, now)
            }
            Ok(None) => Ok(false),
            Err(Failure::NoMemory) => Err(NoMemory),
            Err(Failure::Refused(fault)) => {
                self.dialling.lost(now);
                let due = self.dialling.due();
                note_not_dialled(log, target, fault, due, now);
                Ok(false)
            }
        }
    }

    // Begins a connection, and queues its first lines: CAP LS 302, and its server's PASS, if it has one. Returns whether it
    // began: not if the system gives no random bytes for a login.
    fn begin<R: AllocGlobal + RandomSource>(
        &mut self,
        rt: &R,
        log: &mut Log,
        server: &Server,
        dialled: Dialled,
        now: u64,
    ) -> Result<bool, NoMemory>
        requires moment { now < MOMENTS_END }
        requires fresh { dialled.socket.account.past ≡ nothing_yet }
        ensures due { OnErr result (self.new.dialling ≡ self.old.dialling) }
        ensures login { IfOk result (λ began. BeginsIn began self.old.account (Some server.now) self.new.session) }
    {
        let mut session = Session::new(rt.alloc(), dialled.socket, now, self.steady);
        let has_plus = server.address.tls;
        if !begin_login(rt, &self.account, has_plus, &mut session, now)? {
            self.dialling.lost(now);
            let host = server.address.host.as_bytes();
            log.note(now, &Entry::NoNonce(host, self.dialling.due()));
            return Ok(false);
        }
        tell_pass(rt.alloc(), &mut session.wire, &server.pass, now)?;
        self.session = Some(session);
        Ok(true)
    }

    /// Begins a turn at second `steady` of the monotonic clock, by which silence is measured. Notes that the connection
    /// may have something to read if `tokens`, those of a wait, name it. A token may be that of an earlier connection:
    /// then the next read would block.
    ///
    /// `endings` are the tokens of those events of the wait that tell of an end ([`Watch::endings`](net::Watch::endings)).
    /// If they don't name the connection, a read that returns fewer bytes than it asks for is taken to have read all that
    /// had arrived, and the system is not asked again before the next event. Otherwise the connection is read until it
    /// ends.
    pub fn wake(&mut self, tokens: &[usize], endings: &[usize], steady: u64)
        ensures woken { talk_in self.new.session
            ≡ woken (list_any (λ token. token == TOKEN) tokens.now) (talk_in self.old.session) }
        ensures steady { self.new.steady ≡ steady }
    {
        self.steady = steady;
        if let Some(session) = &mut self.session {
            if tokens.contains(&TOKEN) {
                let connection = &mut session.wire.connection;
                connection
                    .stream
                    .trust_short_reads(!endings.contains(&TOKEN));
                connection.is_ready = true;
            }
        }
    }

    /// Whether `tokens`, those of a wait, name the connection and nothing else.
    pub fn is_alone_in(tokens: &[usize]) -> bool
        ensures { IsTrue result ↔ (tokens.now ≡ TOKEN ∷ []) }
    {
        match tokens {
            [token] => *token == TOKEN,
            _ => false,
        }
    }

    /// Whether a server is connected, nothing is unsent, and the connection is not over: then neither
    /// [`send`](IrcConnection::send) nor [`let_go`](IrcConnection::let_go) does anything.
    pub fn is_still(&self) -> bool
        ensures { result ≡ is_still_in (talk_in self.now.session) }
    {
        match &self.session {
            Some(session) => {
                let connection = &session.wire.connection;
                connection.unsent.is_empty() && !connection.is_over
            }
            None => false,
        }
    }

    /// Reads what has arrived, up to 4 pieces. A byte ends the server's silence. Returns whether there may be more at
    /// once: false after a read that would block.
    ///
    /// # Errors
    /// `NoMemory` if an allocation fails: never without a connection. What was read before stays.
    pub fn read(&mut self) -> Result<bool, NoMemory>
        ensures reads { OnOk result (MayReadAll (talk_in self.old.session) (talk_in self.new.session)) }
        ensures more { IfOk result (λ more. more ≡ may_give_in (talk_in self.new.session)) }
        ensures fewer { OnErr result (ReadsSome (talk_in self.old.session) (talk_in self.new.session)) }
        ensures silence { OnOk result (EndsSilence self.old.steady self.old.session self.new.session) }
        ensures memory { IfErr result (λ _. self.old.session ≢ None) }
    {
        let Some(Session { wire, vigil, .. }) = &mut self.session else {
            return Ok(false);
        };
        if wire.read(PIECES)? {
            vigil.hear(self.steady);
        }
        Ok(wire.may_give())
    }

    /// Takes the bytes that were read and not taken yet, without the tags of their lines (IRCv3 message tags): a line with
    /// tags reads as the line without. The tags of a line may come in several pieces, and they may be of any length; a
    /// line of tags alone is empty. Allocates nothing.
    pub fn take_heard(&mut self, alloc: Global) -> Vec<u8>
        ensures all { result.items ≡ untagged_in self.old.session }
        ensures none { talk_in self.new.session ≡ option_map handed (talk_in self.old.session) }
        // The next bytes go on where these end.
        ensures tags { tags_in self.new.session ≡ tags_after self.old.session }
    {
        match &mut self.session {
            Some(session) => session.take_heard(alloc),
            None => Vec::new(alloc),
        }
    }

    /// Queues `line` for the server, if one is connected, and counts it as sent at second `now`. Ignores bytes that
    /// are not a line. If more than 65,536 bytes would wait, the connection is over. `settings` say whether `log` shows
    /// the line.
    ///
    /// # Errors
    /// `NoMemory` if an allocation fails: never without a connection. Nothing is queued then.
    pub fn tell(
        &mut self,
        log: &mut Log,
        settings: &Settings,
        line: &[u8],
        now: u64,
    ) -> Result<(), NoMemory>
        ensures told { OnOk result (talk_in self.new.session ≡ option_map (told line.now) (talk_in self.old.session)) }
        ensures err { OnErr result (talk_in self.new.session ≡ talk_in self.old.session) }
        ensures same { is_some self.new.session ≡ is_some self.old.session }
        ensures memory { OnErr result (self.old.session ≢ None) }
        ensures wants { wants_in self.new.session ≡ wants_in self.old.session }
        ensures own { self.new.own ≡ self.old.own }
    {
        let Some(Session { wire, .. }) = &mut self.session else {
            return Ok(());
        };
        wire.tell(line, now)?;
        if settings.log_lines {
            log.note(now, &Entry::Plain(Fact::Told, line));
        }
        Ok(())
    }

    /// Offers the server the unsent bytes, once. Returns whether it may take more at once: it took some, and not all.
    pub fn send(&mut self) -> bool
        ensures { MaySend (talk_in self.old.session) result (talk_in self.new.session) }
    {
        match &mut self.session {
            Some(session) => {
                let connection = &mut session.wire.connection;
                connection.send() && !connection.unsent.is_empty()
            }
            None => false,
        }
    }

    /// Disconnects the server at second `now`, if the connection is over.
    pub fn let_go(&mut self, log: &mut Log, now: u64)
        requires moment { now < MOMENTS_END }
        ensures { self.new.session ≡ held self.old.session }
    {
        if let Some(session) = &self.session {
            if session.wire.connection.is_over {
                self.lose(log, Why::Over, now);
            }
        }
    }

    /// Disconnects the server at second `now` because of `why`, and drops what waits for it. The next server is due
    /// after a wait.
    pub fn lose(&mut self, log: &mut Log, why: Why, now: u64)
        requires moment { now < MOMENTS_END }
        ensures gone { self.new.session ≡ None }
        ensures own { self.new.own ≡ [] }
        ensures waits { self.new.dialling ≡ lost self.old.dialling now }
    {
        self.session = None;
        self.dialling.lost(now);
        self.channels.lose_all();
        self.own.clear();
        log.note(now, &Entry::Lost(why, self.dialling.due()));
    }
}

// Logs that no connection to `target` can begin: names the host, or the path of its tunnel.
fn note_not_dialled(log: &mut Log, target: Target<'_>, fault: DialFault, due: u64, now: u64) {
    let host = target.address.host.as_bytes();
    match tunnel_path(target.folder, target.address) {
        Some(path) if target.address.tls => {
            log.note(
                now,
                &Entry::NotDialled(path.as_str().as_bytes(), fault, due),
            );
        }
        Some(_) | None => log.note(now, &Entry::NotDialled(host, fault, due)),
    }
}

// A word and the bytes that follow it.
pub(crate) fn joined(alloc: Global, word: &[u8], rest: &[u8]) -> Result<Vec<u8>, NoMemory>
    ensures { IfOk result (λ line. line.items ≡ word.now ++ rest.now) }
{
    let mut line = Vec::from_slice(alloc, word)?;
    line.extend_from_slice(rest)?;
    Ok(line)
}
