// The steps of a registration, without its messages.
ghost use Rattle.std.specs.Prelude.{◌≡◌};
ghost use Rattle.registration.specs.Steps.{fails, is_listing, login_of, says, stays, turns};

use crate::capabilities::{Capabilities, Offer};
use crate::mechanism::{Mechanism, Mechanisms};
use crate::registration_event::{RegistrationEvent, Say};
use crate::registration_fault::RegistrationFault;
use crate::scram_hash::ScramHash;

/// How far a registration has come.
#[derive(Clone, Copy)]
pub enum Stage {
    /// The client has asked for the server's capabilities, and waits for the end of the list.
    AwaitsList,
    /// It has asked for capabilities, and waits for the answer.
    AwaitsAnswer,
    /// It has asked for `sasl`, and waits for the answer.
    AwaitsSasl,
    /// It tries to log in.
    Tries(LoginStage),
    /// It has nothing more to say: it has ended the negotiation, or the server has welcomed it.
    Over,
    /// It has given up.
    Failed(RegistrationFault),
}

/// How far a login by one mechanism has come.
#[derive(Clone, Copy)]
pub enum LoginStage {
    /// The client has named the mechanism, and waits until the server asks for its message.
    AwaitsGo(Mechanism),
    /// It has begun a SCRAM exchange, and waits for the server's first message.
    AwaitsFirst(ScramHash),
    /// It derives the salted password.
    Derives,
    /// It has shown that it knows the password, and waits for the server to show the same.
    AwaitsFinal,
    /// It has said its last message, and waits for the result.
    AwaitsResult,
}

/// A registration without its messages: what is wanted, and how far it has come.
#[derive(Clone, Copy)]
pub struct Negotiation {
    /// Whether the client is to log in.
    pub wants_account: bool,
    /// The capabilities to ask for, where the server offers them.
    pub wanted: Capabilities,
    /// The mechanisms that may still be tried.
    pub untried: Mechanisms,
    /// What the server offers, as far as it has said.
    pub offer: Offer,
    /// The capabilities that the server has enabled.
    pub enabled: Capabilities,
    /// How far it has come.
    pub stage: Stage,
}

/// A step of a registration: what it is afterwards, and what the client says.
#[derive(Clone, Copy)]
pub struct NegotiationStep {
    /// The registration afterwards.
    pub negotiation: Negotiation,
    /// What the client says, if anything.
    pub say: Option<Say>,
}

impl Negotiation {
    ghost use Rattle.std.specs.Prelude.{◌≡◌};
    ghost use Rattle.registration.specs.Steps.{acknowledged, begun_with, capabilities_end, denied, list_ends, listed, login_step, narrowed, next};
    ghost use Rattle.registration.specs.Steps.{sasl_acknowledged, sasl_denied, step, unknown, welcomed};

    /// Begins a registration: the client has asked for the capabilities. PLAIN may be tried only if the connection
    /// `is_private`.
    pub fn begin(
        wants_account: bool,
        allowed: &Mechanisms,
        is_private: bool,
        wanted: Capabilities,
    ) -> Negotiation
        ensures { result ≡ begun_with wants_account allowed.now is_private wanted }
    {
        Negotiation {
            wants_account,
            wanted,
            untried: Mechanisms {
                scram_sha_512: allowed.scram_sha_512,
                scram_sha_256: allowed.scram_sha_256,
                external: allowed.external,
                plain: allowed.plain && is_private,
            },
            offer: Offer::none(),
            enabled: Capabilities::none(),
            stage: Stage::AwaitsList,
        }
    }

    /// Makes the step that follows what was `heard`.
    pub fn step(&self, heard: RegistrationEvent) -> NegotiationStep
        ensures { result ≡ step self.now heard }
    {
        match heard {
            RegistrationEvent::Listed { offer, is_last } => self.listed(&offer, is_last),
            RegistrationEvent::Acknowledged(offer) => self.acknowledged(&offer),
            RegistrationEvent::Denied(offer) => self.denied(&offer),
            RegistrationEvent::UnknownCommand => self.unknown(),
            RegistrationEvent::Welcomed => self.welcomed(),
            RegistrationEvent::Nothing => stays(self),
            RegistrationEvent::Go
            | RegistrationEvent::FirstTaken
            | RegistrationEvent::Derived
            | RegistrationEvent::FinalTaken
            | RegistrationEvent::Broken(_)
            | RegistrationEvent::Narrowed(_)
            | RegistrationEvent::LoggedIn
            | RegistrationEvent::LoginFailed => match login_of(self.stage) {
                Some(login) => self.login_step(login, heard),
                None => stays(self),
            },
        }
    }

    // A line of the list of capabilities.
    fn listed(&self, offer: &Offer, is_last: bool) -> NegotiationStep
        ensures { result ≡ listed self.now offer.now is_last }
    {
        if !is_listing(self.stage) {
            return stays(self);
        }
        let mut known = *self;
        known.offer = self.offer.and(offer);
        if is_last {
            known.list_ends()
        } else {
            stays(&known)
        }
    }

    // The list of capabilities is over.
    fn list_ends(&self) -> NegotiationStep
        ensures { result ≡ list_ends self.now }
    {
        let request = self
            .wanted
            .both(&self.offer.others)
            .without_stale_accounts();
        if self.wants_account && !self.offer.sasl {
            fails(self, RegistrationFault::NoSasl)
        } else if request.is_empty() {
            self.capabilities_end()
        } else {
            says(self, Stage::AwaitsAnswer, Say::Request(request))
        }
    }

    // No capability but `sasl` is to be asked for any more.
    fn capabilities_end(&self) -> NegotiationStep
        ensures { result ≡ capabilities_end self.now }
    {
        if self.wants_account {
            says(self, Stage::AwaitsSasl, Say::RequestSasl)
        } else {
            says(self, Stage::Over, Say::End)
        }
    }

    // The server enables capabilities.
    fn acknowledged(&self, offer: &Offer) -> NegotiationStep
        ensures { result ≡ acknowledged self.now offer.now }
    {
        match self.stage {
            Stage::AwaitsAnswer => {
                let mut enabled = *self;
                enabled.enabled = self.wanted.both(&offer.others);
                enabled.capabilities_end()
            }
            Stage::AwaitsSasl => self.sasl_acknowledged(offer.sasl),
            Stage::AwaitsList | Stage::Tries(_) | Stage::Over | Stage::Failed(_) => stays(self),
        }
    }

    // The server enables `sasl`, if its answer names it.
    fn sasl_acknowledged(&self, names_sasl: bool) -> NegotiationStep
        ensures { result ≡ sasl_acknowledged self.now names_sasl }
    {
        if names_sasl {
            self.narrowed(&self.offer.mechanisms)
                .next(RegistrationFault::NoMechanism)
        } else {
            stays(self)
        }
    }

    // The server does not enable capabilities.
    fn denied(&self, offer: &Offer) -> NegotiationStep
        ensures { result ≡ denied self.now offer.now }
    {
        match self.stage {
            Stage::AwaitsAnswer => self.capabilities_end(),
            Stage::AwaitsSasl => self.sasl_denied(offer.sasl),
            Stage::AwaitsList | Stage::Tries(_) | Stage::Over | Stage::Failed(_) => stays(self),
        }
    }

    // The server does not enable `sasl`, if its answer names it.
    fn sasl_denied(&self, names_sasl: bool) -> NegotiationStep
        ensures { result ≡ sasl_denied self.now names_sasl }
    {
        if names_sasl {
            fails(self, RegistrationFault::NoSasl)
        } else {
            stays(self)
        }
    }

    // The server does not know capabilities.
    fn unknown(&self) -> NegotiationStep
        ensures { result ≡ unknown self.now }
    {
        if !is_listing(self.stage) {
            stays(self)
        } else if self.wants_account {
            fails(self, RegistrationFault::NoCapabilities)
        } else {
            turns(self, Stage::Over)
        }
    }

    // The server has registered the client.
    fn welcomed(&self) -> NegotiationStep
        ensures { result ≡ welcomed self.now }
    {
        match self.stage {
            Stage::Over | Stage::Failed(_) => stays(self),
            Stage::AwaitsList | Stage::AwaitsAnswer | Stage::AwaitsSasl | Stage::Tries(_) => {
                if self.wants_account {
                    fails(self, RegistrationFault::Welcomed)
                } else {
                    turns(self, Stage::Over)
                }
            }
        }
    }

    // A step of a login.
    fn login_step(&self, login: LoginStage, heard: RegistrationEvent) -> NegotiationStep
        ensures { result ≡ login_step self.now login heard }
    {
        match heard {
            RegistrationEvent::Go => self.go_step(login),
            RegistrationEvent::FirstTaken => self.first_step(login),
            RegistrationEvent::Derived => self.derived_step(login),
            RegistrationEvent::FinalTaken => self.final_step(login),
            RegistrationEvent::Broken(fault) => fails(self, fault),
            RegistrationEvent::Narrowed(mechanisms) => stays(&self.narrowed(&mechanisms)),
            RegistrationEvent::LoggedIn => self.success_step(login),
            RegistrationEvent::LoginFailed => self.next(RegistrationFault::Rejected),
            RegistrationEvent::Listed { .. }
            | RegistrationEvent::Acknowledged(_)
            | RegistrationEvent::Denied(_)
            | RegistrationEvent::UnknownCommand
            | RegistrationEvent::Welcomed
            | RegistrationEvent::Nothing => stays(self),
        }
    }

    // Only these mechanisms may still be tried.
    fn narrowed(&self, mechanisms: &Mechanisms) -> Negotiation
        ensures { result ≡ narrowed self.now mechanisms.now }
    {
        let mut narrowed = *self;
        narrowed.untried = self.untried.both(mechanisms);
        narrowed
    }

    // Names the next mechanism, or gives up with this fault.
    fn next(&self, fault: RegistrationFault) -> NegotiationStep
        ensures { result ≡ next self.now fault }
    {
        match self.untried.first() {
            None => fails(self, fault),
            Some(mechanism) => {
                let mut tried = *self;
                tried.untried = self.untried.without(mechanism);
                let stage = Stage::Tries(LoginStage::AwaitsGo(mechanism));
                says(&tried, stage, Say::Name(mechanism))
            }
        }
    }
}

// The same registration, and nothing to say.
pub(crate) fn stays(negotiation: &Negotiation) -> NegotiationStep
    ensures { result ≡ stays negotiation.now }
{
    NegotiationStep {
        negotiation: *negotiation,
        say: None,
    }
}

// Another stage, and nothing to say.
pub(crate) fn turns(negotiation: &Negotiation, stage: Stage) -> NegotiationStep
    ensures { result ≡ turns negotiation.now stage }
{
    let mut turned = *negotiation;
    turned.stage = stage;
    stays(&turned)
}

// The client gives up.
pub(crate) fn fails(negotiation: &Negotiation, fault: RegistrationFault) -> NegotiationStep
    ensures { result ≡ fails negotiation.now fault }
{
    turns(negotiation, Stage::Failed(fault))
}

// Another stage, and something to say.
pub(crate) fn says(negotiation: &Negotiation, stage: Stage, say: Say) -> NegotiationStep
    ensures { result ≡ says negotiation.now stage say }
{
    let mut turned = *negotiation;
    turned.stage = stage;
    NegotiationStep {
        negotiation: turned,
        say: Some(say),
    }
}

// Whether the list of capabilities is awaited.
fn is_listing(stage: Stage) -> bool
    ensures { result ≡ is_listing stage }
{
    match stage {
        Stage::AwaitsList => true,
        Stage::AwaitsAnswer
        | Stage::AwaitsSasl
        | Stage::Tries(_)
        | Stage::Over
        | Stage::Failed(_) => false,
    }
}

// The login that is tried, if one is.
pub(crate) fn login_of(stage: Stage) -> Option<LoginStage>
    ensures { result ≡ login_of stage }
{
    match stage {
        Stage::Tries(login) => Some(login),
        Stage::AwaitsList
        | Stage::AwaitsAnswer
        | Stage::AwaitsSasl
        | Stage::Over
        | Stage::Failed(_) => None,
    }
}
