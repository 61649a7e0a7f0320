// A client's registration with a server.
ghost use Rattle.std.specs.Prelude.{◌≡◌, unwrap_or};
ghost use Rattle.registration.specs.Registrations.{fault_of};

use crate::capabilities::Capabilities;
use crate::credentials::Credentials;
use crate::hearing::{Hearing, Work};
use crate::mechanism::Mechanisms;
use crate::negotiation::{Negotiation, NegotiationStep, Stage};
use crate::registration_fault::RegistrationFault;
use crate::scram_nonce::ScramNonce;
use bytetext::{Failure, Text, Texts};
use ircline::Line;
use std::alloc::Global;

/// The first line that a client says, before NICK and USER: it asks for the server's capabilities.
pub const FIRST_LINE: &[u8] = b"CAP LS 302";

/// What a client wants of its registration.
#[derive(Drop)]
pub struct Wish {
    /// The account to log in to, if any.
    pub account: Option<Credentials>,
    /// The mechanisms that the configuration allows.
    pub allowed: Mechanisms,
    /// Whether nobody can read the connection. PLAIN is tried only then, whatever is allowed.
    pub is_private: bool,
    /// The capabilities to ask for beside `sasl`, where the server offers them.
    pub wanted: Capabilities,
}

/// The nonces of the SCRAM exchanges of one registration: a nonce for each, drawn for this connection alone.
#[derive(Clone, Copy)]
pub struct ScramNonces {
    /// For SCRAM-SHA-512.
    pub sha_512: ScramNonce,
    /// For SCRAM-SHA-256.
    pub sha_256: ScramNonce,
}

/// A client's registration with a server, from its line [`FIRST_LINE`] on. It has no socket and no clock.
///
/// ```text
/// say(FIRST_LINE); say(b"NICK egg0"); say(b"USER egg 0 * :egg");
/// let mut registration = Registration::new(alloc, wish, nonces);
/// for line in lines_of_the_server {
///     say_all(registration.hear(alloc, &line)?);                // an Err: close the connection
///     while registration.is_deriving() {                        // over as many turns as the caller likes
///         registration.derive(1_000);
///     }
///     say_all(registration.finish(alloc)?);
/// }
/// ```
pub struct Registration {
    pub(crate) account: Option<Credentials>,
    pub(crate) nonces: ScramNonces,
    pub(crate) negotiation: Negotiation,
    // What came of a message of the server's in a login, in Base64.
    pub(crate) held: Text,
    pub(crate) work: Work,
}

// Written by hand, so that the drop is proved once.
impl Drop for Registration {
    fn drop(self) {
        let Registration {
            account: _,
            nonces: _,
            negotiation: _,
            held: _,
            work: _,
        } = self;
    }
}

impl Registration {
    ghost use Rattle.std.specs.Prelude.{◌≡◌, None, false, IfOk, IsOk};
    ghost use Rattle.registration.specs.declared.registration_event.RegistrationEvent.TheVariants.{Nothing};
    ghost use Rattle.registration.specs.Hearings.{IsQuiet, changes_nothing, finished, hearing_of, is_derived, is_deriving, worked};
    ghost use Rattle.registration.specs.Registrations.{AreShort, Hears, begun_by, fault_of, is_over};

    /// Begins a registration: the client has said [`FIRST_LINE`]. Allocates nothing.
    pub fn new(alloc: Global, wish: Wish, nonces: ScramNonces) -> Registration
        ensures { result ≡ begun_by wish nonces }
    {
        let Wish {
            account,
            allowed,
            is_private,
            wanted,
        } = wish;
        Registration {
            negotiation: Negotiation::begin(account.is_some(), &allowed, is_private, wanted),
            account,
            nonces,
            held: Text::empty(alloc),
            work: Work::Nothing,
        }
    }

    /// Processes `line` of the server, and returns the lines to say, without CR LF. Call this for each line that the
    /// server sends, in order.
    ///
    /// # Errors
    /// - `Refused` with the fault if the registration has failed. The connection is to be closed; each further call
    ///   returns the same.
    /// - `NoMemory` if an allocation fails. The registration is as before.
    pub fn hear(&mut self, alloc: Global, line: &Line) -> Result<Texts, Failure<RegistrationFault>>
        ensures hears { Hears self.old (hearing_of self.old line.now) result self.new }
        ensures short { IfOk result (λ lines. AreShort lines) }
        // A line that means nothing for a registration needs no memory.
        ensures quiet { IsQuiet line.now → fault_of self.old.negotiation.stage ≡ None → IsOk result }
    {
        let hearing = self.listen(alloc, line)?;
        self.apply(alloc, hearing)
    }

    /// Does at most `rounds` iterations of a salted password, if the client derives one. An iteration takes about a
    /// microsecond. Allocates nothing.
    pub fn derive(&mut self, rounds: u32)
        ensures { self.new ≡ record self.old { work = worked self.old.work rounds } }
    {
        match &mut self.work {
            Work::Salting(salting) => salting.work(rounds),
            Work::Nothing | Work::Final(_) => {}
        }
    }

    /// Returns whether [`derive`](Registration::derive) has something to do.
    pub fn is_deriving(&self) -> bool
        ensures { result ≡ is_deriving self.now.work }
    {
        match &self.work {
            Work::Salting(salting) => !salting.is_over(),
            Work::Nothing | Work::Final(_) => false,
        }
    }

    /// Returns the lines to say once the salted password is derived; none if the client derives one still, or none.
    ///
    /// # Errors
    /// As those of [`hear`](Registration::hear).
    pub fn finish(&mut self, alloc: Global) -> Result<Texts, Failure<RegistrationFault>>
        ensures hears { Hears self.old (finished self.old.work) result self.new }
        ensures short { IfOk result (λ lines. AreShort lines) }
        // Nothing to finish needs no memory.
        ensures quiet { is_derived self.old.work ≡ false → fault_of self.old.negotiation.stage ≡ None → IsOk result }
    {
        let hearing = self.end_work(alloc)?;
        self.apply(alloc, hearing)
    }

    /// Returns whether the client has nothing more to say: it has ended the negotiation, or the server has welcomed it.
    pub fn is_over(&self) -> bool
        ensures { result ≡ is_over self.now.negotiation.stage }
    {
        match self.negotiation.stage {
            Stage::Over => true,
            Stage::AwaitsList
            | Stage::AwaitsAnswer
            | Stage::AwaitsSasl
            | Stage::Tries(_)
            | Stage::Failed(_) => false,
        }
    }

    /// Returns the capabilities that the server has enabled, of those that were asked for.
    pub fn enabled(&self) -> Capabilities
        ensures { result ≡ self.now.negotiation.enabled }
    {
        self.negotiation.enabled
    }

    // Makes the step of what was heard, and returns the lines to say.
    fn apply(
        &mut self,
        alloc: Global,
        hearing: Hearing,
    ) -> Result<Texts, Failure<RegistrationFault>>
        ensures hears { Hears self.old hearing result self.new }
        ensures short { IfOk result (λ lines. AreShort lines) }
        ensures quiet { hearing ≡ changes_nothing Nothing → fault_of self.old.negotiation.stage ≡ None → IsOk result }
    {
        let NegotiationStep { negotiation, say } = self.negotiation.step(hearing.heard);
        let lines = self.lines(alloc, say, &hearing.work)?;
        self.negotiation = negotiation;
        keep_held(&mut self.held, hearing.held);
        keep_work(&mut self.work, hearing.work);
        match fault_of(negotiation.stage) {
            Some(fault) => Err(Failure::Refused(fault)),
            None => Ok(lines),
        }
    }
}

// Keeps what came of a message, if something did.
fn keep_held(held: &mut Text, new: Option<Text>)
    ensures { held.new ≡ unwrap_or new held.old }
{
    if let Some(new) = new {
        *held = new;
    }
}

// Keeps what is worked at, if it changes.
fn keep_work(work: &mut Work, new: Option<Work>)
    ensures { work.new ≡ unwrap_or new work.old }
{
    if let Some(new) = new {
        *work = new;
    }
}

// Why a registration has failed, if it has.
fn fault_of(stage: Stage) -> Option<RegistrationFault>
    ensures { result ≡ fault_of stage }
{
    match stage {
        Stage::Failed(fault) => Some(fault),
        Stage::AwaitsList
        | Stage::AwaitsAnswer
        | Stage::AwaitsSasl
        | Stage::Tries(_)
        | Stage::Over => None,
    }
}
