// How a connection begins with its registration.
ghost use Rattle.std.specs.Prelude.{◌≡◌, true, IfOk, OnOk};
ghost use Rattle.registration.specs.declared.registration.TheConstants.{FIRST_LINE};
ghost use Rattle.serverlink.specs.Logins.{BeginsLogin, with_pass};
ghost use Rattle.serverlink.specs.Talks.{told};

use crate::irc_connection::{IrcConnection, joined};
use crate::login::{Shows, drawn_nonces, no_nonces};
use crate::server_wire::ServerWire;
use crate::session::Session;
use crate::why::Why;
use bytetext::{Failure, NoMemory, Text, TryCopy};
use ircline::Line;
use net::{AnySocket, Log};
use registration::{Credentials, ScramNonces};
use settings::Settings;
use std::alloc::Global;
use std::io;
use std::random::RandomSource;

impl IrcConnection {
    ghost use Rattle.std.specs.Prelude.{◌≡◌, ◌≢◌, ◌<◌, None, IfOk, OnOk, OnErr};
    ghost use Rattle.bytetext.specs.declared.moment.TheConstants.{MOMENTS_END};
    ghost use Rattle.net.specs.Dials.{lost};
    ghost use Rattle.serverlink.specs.Logins.{derived, derives, line_heard};

    /// Goes on with a login at second `now`, if the bot's salted password is being derived: does the iterations of one
    /// turn, and queues the lines that follow. Returns whether there are more to do, so that the next turn is to come at
    /// once. Call this once in each turn.
    ///
    /// # Errors
    /// `NoMemory` if an allocation fails: never without a connection.
    pub fn derive<R: AllocGlobal>(
        &mut self,
        rt: &R,
        log: &mut Log,
        settings: &Settings,
        now: u64,
    ) -> Result<bool, NoMemory>
        requires moment { now < MOMENTS_END }
        ensures derived { OnOk result (self.new.session ≡ derived self.old.session) }
        ensures more { IfOk result (λ more. more ≡ derives self.new.session) }
        ensures memory { OnErr result (self.old.session ≢ None) }
    {
        let Some(session) = &mut self.session else {
            return Ok(false);
        };
        match session.derive(rt.alloc(), log, shows_of(settings, now)) {
            Ok(()) => Ok(session.derives()),
            Err(Failure::NoMemory) => Err(NoMemory),
            Err(Failure::Refused(fault)) => {
                self.lose(log, Why::Login(fault), now);
                Ok(false)
            }
        }
    }

    // Hears a line of the server for the registration, if it is not over. A login that fails ends the connection.
    pub(crate) fn hear_for_login(
        &mut self,
        alloc: Global,
        log: &mut Log,
        settings: &Settings,
        line: &Line,
        now: u64,
    ) -> Result<(), NoMemory>
        requires moment { now < MOMENTS_END }
        ensures heard { OnOk result (self.new.session ≡ line_heard line.now self.old.session) }
        // The next server is due after a wait.
        ensures waits { OnOk result (self.old.session ≢ None → self.new.session ≡ None
            → self.new.dialling ≡ lost self.old.dialling now) }
        ensures memory { OnErr result (self.old.session ≢ None) }
    {
        let Some(session) = &mut self.session else {
            return Ok(());
        };
        match session.hear_line(alloc, log, line, shows_of(settings, now)) {
            Ok(()) => Ok(()),
            Err(Failure::NoMemory) => Err(NoMemory),
            Err(Failure::Refused(fault)) => {
                self.lose(log, Why::Login(fault), now);
                Ok(())
            }
        }
    }
}

// Begins the registration of `session`, which has none yet: queues CAP LS 302. It logs in to the bot's `account`, if it
// has one. Returns whether the connection may go on: not if the system gives no random bytes for a login.
pub(crate) fn begin_login<R: AllocGlobal + RandomSource>(
    rt: &R,
    account: &Option<Credentials>,
    has_plus: bool,
    session: &mut Session,
    now: u64,
) -> Result<bool, NoMemory>
    ensures login { IfOk result (λ goes_on. goes_on ≡ true → BeginsLogin account.now has_plus session.new.login) }
    ensures told { IfOk result (λ goes_on. goes_on ≡ true → session.new.wire ≡ told FIRST_LINE.now session.old.wire) }
{
    let Ok(nonces) = nonces_for(rt, account) else {
        return Ok(false);
    };
    let account = account_copy(rt.alloc(), account)?;
    session.begin_login(rt.alloc(), account, has_plus, nonces, now)?;
    Ok(true)
}

// The nonces of a connection: random ones if it is to log in.
fn nonces_for<R: RandomSource>(rt: &R, account: &Option<Credentials>) -> io::Result<ScramNonces> {
    match account {
        Some(_) => drawn_nonces(rt),
        None => Ok(no_nonces()),
    }
}

// A copy of the account, if there is one.
fn account_copy(
    alloc: Global,
    account: &Option<Credentials>,
) -> Result<Option<Credentials>, NoMemory>
    ensures { IfOk result (λ copy. copy ≡ account.now) }
{
    match account {
        Some(account) => Ok(Some(account.copy(alloc)?)),
        None => Ok(None),
    }
}

// Queues the PASS of a server, if it has one.
pub(crate) fn tell_pass(
    alloc: Global,
    wire: &mut ServerWire<AnySocket>,
    pass: &Option<Text>,
    now: u64,
) -> Result<(), NoMemory>
    ensures { OnOk result (wire.new ≡ with_pass pass.now wire.old) }
{
    match pass {
        Some(pass) => wire.tell(joined(alloc, b"PASS :", pass.as_bytes())?.as_slice(), now),
        None => Ok(()),
    }
}

// How the log shows the lines of a registration.
fn shows_of(settings: &Settings, now: u64) -> Shows {
    Shows {
        lines: settings.log_lines,
        now,
    }
}
