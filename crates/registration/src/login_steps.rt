// The steps of a login.
use crate::mechanism::Mechanism;
use crate::negotiation::{
    LoginStage, Negotiation, NegotiationStep, Stage, fails, says, stays, turns,
};
use crate::registration_event::Say;
use crate::registration_fault::RegistrationFault;
use crate::scram_hash::ScramHash;

impl Negotiation {
    ghost use Rattle.std.specs.Prelude.{◌≡◌};
    ghost use Rattle.registration.specs.Steps.{answer, derived_step, final_step, first_step, go_step, begin_scram, success_step};

    // The server asks for the client's first message.
    pub(crate) fn go_step(&self, login: LoginStage) -> NegotiationStep
        ensures { result ≡ go_step self.now login }
    {
        match login {
            LoginStage::AwaitsGo(mechanism) => self.answer(mechanism),
            LoginStage::AwaitsFirst(_)
            | LoginStage::Derives
            | LoginStage::AwaitsFinal
            | LoginStage::AwaitsResult => { stays(self) }
        }
    }

    // The client's first message by this mechanism.
    fn answer(&self, mechanism: Mechanism) -> NegotiationStep
        ensures { result ≡ answer self.now mechanism }
    {
        let result = Stage::Tries(LoginStage::AwaitsResult);
        match mechanism {
            Mechanism::ScramSha512 => self.begin_scram(ScramHash::Sha512),
            Mechanism::ScramSha256 => self.begin_scram(ScramHash::Sha256),
            Mechanism::External => says(self, result, Say::Empty),
            Mechanism::Plain => says(self, result, Say::Plain),
        }
    }

    // The client begins a SCRAM exchange.
    fn begin_scram(&self, hash: ScramHash) -> NegotiationStep
        ensures { result ≡ begin_scram self.now hash }
    {
        says(
            self,
            Stage::Tries(LoginStage::AwaitsFirst(hash)),
            Say::First(hash),
        )
    }

    // The server's first message of a SCRAM exchange is not refused.
    pub(crate) fn first_step(&self, login: LoginStage) -> NegotiationStep
        ensures { result ≡ first_step self.now login }
    {
        match login {
            LoginStage::AwaitsFirst(_) => turns(self, Stage::Tries(LoginStage::Derives)),
            LoginStage::AwaitsGo(_)
            | LoginStage::Derives
            | LoginStage::AwaitsFinal
            | LoginStage::AwaitsResult => { stays(self) }
        }
    }

    // The salted password is derived.
    pub(crate) fn derived_step(&self, login: LoginStage) -> NegotiationStep
        ensures { result ≡ derived_step self.now login }
    {
        match login {
            LoginStage::Derives => says(self, Stage::Tries(LoginStage::AwaitsFinal), Say::Final),
            LoginStage::AwaitsGo(_)
            | LoginStage::AwaitsFirst(_)
            | LoginStage::AwaitsFinal
            | LoginStage::AwaitsResult => stays(self),
        }
    }

    // The server's final message of a SCRAM exchange has the right signature.
    pub(crate) fn final_step(&self, login: LoginStage) -> NegotiationStep
        ensures { result ≡ final_step self.now login }
    {
        match login {
            LoginStage::AwaitsFinal => says(
                self,
                Stage::Tries(LoginStage::AwaitsResult),
                Say::Empty,
            ),
            LoginStage::AwaitsGo(_)
            | LoginStage::AwaitsFirst(_)
            | LoginStage::Derives
            | LoginStage::AwaitsResult => { stays(self) }
        }
    }

    // The server says that the login succeeded.
    pub(crate) fn success_step(&self, login: LoginStage) -> NegotiationStep
        ensures { result ≡ success_step self.now login }
    {
        match login {
            LoginStage::AwaitsResult => says(self, Stage::Over, Say::End),
            LoginStage::AwaitsGo(_)
            | LoginStage::AwaitsFirst(_)
            | LoginStage::Derives
            | LoginStage::AwaitsFinal => { fails(self, RegistrationFault::Unproven) }
        }
    }
}
