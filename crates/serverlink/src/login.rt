// What a connection says while it begins: it asks for the server's capabilities, and logs in to an account.
ghost use Rattle.std.specs.Prelude.{◌≡◌, IfOk, OnOk};
ghost use Rattle.registration.specs.Talks.{says_success};
ghost use Rattle.serverlink.specs.LoginLogs.{HasNoted};
ghost use Rattle.serverlink.specs.Logins.{all_told, wanted, wish_of};

use crate::login_entry::LoginEntry;
use crate::server_wire::ServerWire;
use crate::session::Session;
use bytetext::{Failure, NoMemory, Text};
use ircline::Line;
use net::{AnySocket, Log};
use registration::{
    Capabilities, Credentials, FIRST_LINE, Mechanisms, Registration, RegistrationFault, ScramNonce,
    ScramNonces, Wish,
};
use std::alloc::Global;
use std::io;
use std::random::RandomSource;

// The most iterations of a salted password that one turn does: some milliseconds.
const ROUNDS: u32 = 4_096;

// How the log shows a line of a registration: whether at all, and at which second.
#[derive(Clone, Copy)]
pub(crate) struct Shows {
    pub(crate) lines: bool,
    pub(crate) now: u64,
}

impl Session {
    ghost use Rattle.std.specs.Prelude.{◌≡◌, Some, IfOk, OnOk};
    ghost use Rattle.registration.specs.Registrations.{begun_by};
    ghost use Rattle.registration.specs.declared.registration.TheConstants.{FIRST_LINE};
    ghost use Rattle.serverlink.specs.LoginLogs.{HasNoted};
    ghost use Rattle.serverlink.specs.Logins.{Leaves, derived, derives, line_heard, wish_of};
    ghost use Rattle.serverlink.specs.Talks.{told};

    // Begins the registration of a connection, with a login to `account`, if there is one, and queues its first line,
    // CAP LS 302. `has_plus` says whether the connection goes through a tunnel: only then the login may be by PLAIN. On
    // `NoMemory` there is no registration.
    pub(crate) fn begin_login(
        &mut self,
        alloc: Global,
        account: Option<Credentials>,
        has_plus: bool,
        nonces: ScramNonces,
        now: u64,
    ) -> Result<(), NoMemory>
        ensures { OnOk result (self.new ≡ record self.old {
          wire = told FIRST_LINE.now self.old.wire;
          login = Some (begun_by (wish_of account has_plus) nonces);
        }) }
    {
        self.wire.tell(FIRST_LINE, now)?;
        self.login = Some(Registration::new(alloc, wish_of(account, has_plus), nonces));
        Ok(())
    }

    // Hears a line of the server for the registration, if it is not over, and queues the lines that it says. Drops a
    // registration that is over. Refused with the fault of a login that has failed: the connection is to end.
    pub(crate) fn hear_line(
        &mut self,
        alloc: Global,
        log: &mut Log,
        line: &Line,
        shows: Shows,
    ) -> Result<(), Failure<RegistrationFault>>
        ensures leaves { Leaves (line_heard line.now (Some self.old)) result self.new }
        ensures logged { HasNoted shows.now log.old log.new }
    {
        let Some(login) = &mut self.login else {
            return Ok(());
        };
        let lines = login.hear(alloc, line)?;
        let is_over = login.is_over();
        let notifies = login.enabled().account_notify;
        tell_all(&mut self.wire, log, lines.as_slice(), shows)?;
        if is_over {
            self.login = None;
            self.questions.note_notices(notifies);
        }
        note_accepted(log, is_over && is_success(line), shows);
        Ok(())
    }

    // Does a turn's iterations of a salted password, if the login derives one, and queues the lines that follow.
    // Refused as `hear_line` is.
    pub(crate) fn derive(
        &mut self,
        alloc: Global,
        log: &mut Log,
        shows: Shows,
    ) -> Result<(), Failure<RegistrationFault>>
        ensures leaves { Leaves (derived (Some self.old)) result self.new }
        ensures logged { HasNoted shows.now log.old log.new }
    {
        let Some(login) = &mut self.login else {
            return Ok(());
        };
        if !login.is_deriving() {
            return Ok(());
        }
        login.derive(ROUNDS);
        let lines = login.finish(alloc)?;
        let is_over = login.is_over();
        let notifies = login.enabled().account_notify;
        tell_all(&mut self.wire, log, lines.as_slice(), shows)?;
        if is_over {
            self.login = None;
            self.questions.note_notices(notifies);
        }
        Ok(())
    }

    // Whether the login has iterations to do.
    pub(crate) fn derives(&self) -> bool
        ensures { result ≡ derives (Some self.now) }
    {
        match &self.login {
            Some(login) => login.is_deriving(),
            None => false,
        }
    }
}

// What a connection wants of its registration. PLAIN shows the password to whoever reads the connection, so it is tried
// only on a private one, which has a plus.
fn wish_of(account: Option<Credentials>, has_plus: bool) -> Wish
    ensures { result ≡ wish_of account has_plus }
{
    Wish {
        account,
        allowed: Mechanisms {
            scram_sha_512: true,
            scram_sha_256: true,
            external: true,
            plain: has_plus,
        },
        is_private: has_plus,
        wanted: wanted(),
    }
}

// The capabilities by which the bot learns who is logged in, all modes of a member, and each person's user and host.
// Nothing in the bot goes by who is away, or by who is invited.
fn wanted() -> Capabilities
    ensures { result ≡ wanted }
{
    Capabilities {
        account_notify: true,
        extended_join: true,
        multi_prefix: true,
        userhost_in_names: true,
        chghost: true,
        away_notify: false,
        invite_notify: false,
    }
}

// Whether a line says that the login succeeded (903). A registration without an account is never over by such a line.
fn is_success(line: &Line) -> bool
    ensures { result ≡ says_success line.now }
{
    match line {
        Line::Message(message) => message.command.as_bytes() == b"903".as_slice(),
        Line::Bad(_) => false,
    }
}

// The nonces of a registration without an account, which never uses them.
pub(crate) fn no_nonces() -> ScramNonces {
    let nonce = ScramNonce::of(&[0; 15]);
    ScramNonces {
        sha_512: nonce,
        sha_256: nonce,
    }
}

// Draws the nonces of a connection from random bytes of the system.
pub(crate) fn drawn_nonces<R: RandomSource>(rt: &R) -> io::Result<ScramNonces> {
    Ok(ScramNonces {
        sha_512: drawn_nonce(rt)?,
        sha_256: drawn_nonce(rt)?,
    })
}

fn drawn_nonce<R: RandomSource>(rt: &R) -> io::Result<ScramNonce> {
    let mut bytes = [0; 15];
    rt.fill_bytes(&mut bytes)?;
    Ok(ScramNonce::of(&bytes))
}

// Queues lines of a registration, in order.
fn tell_all(
    wire: &mut ServerWire<AnySocket>,
    log: &mut Log,
    lines: &[Text],
    shows: Shows,
) -> Result<(), NoMemory>
    ensures told { OnOk result (wire.new ≡ all_told lines.now wire.old) }
    ensures logged { HasNoted shows.now log.old log.new }
{
    for line in lines {
        wire.tell(line.as_bytes(), shows.now)?;
        note_line(log, shows);
    }
    Ok(())
}

// Logs that the server has accepted the login, if it has.
fn note_accepted(log: &mut Log, accepted: bool, shows: Shows)
    ensures { HasNoted shows.now log.old log.new }
{
    if accepted {
        log.note(shows.now, &LoginEntry::Accepted);
    }
}

// Logs that a line of a registration is queued, without its text.
fn note_line(log: &mut Log, shows: Shows)
    ensures { HasNoted shows.now log.old log.new }
{
    if shows.lines {
        log.note(shows.now, &LoginEntry::Told);
    }
}
