// What a line means for a registration, with the messages of its login.
ghost use Rattle.std.specs.Prelude.{◌≡◌, false, IfOk, IsOk};
ghost use Rattle.registration.specs.Hearings.{broken, changes_nothing, end_salting, final_heard, go_heard, holds, is_salted};

use crate::credentials::Credentials;
use crate::cue::{heard_of, piece_of};
use crate::encoding::bytes_in;
use crate::negotiation::{LoginStage, login_of};
use crate::payload::{Collected, with_piece};
use crate::registration::Registration;
use crate::registration_event::RegistrationEvent;
use crate::registration_fault::RegistrationFault;
use crate::scram::{ClientFinal, Salting};
use crate::scram_hash::ScramHash;
use bytetext::{Failure, NoMemory, Text};
use ircline::Line;
use std::alloc::Global;

// What a registration works at.
#[derive(Drop)]
pub(crate) enum Work {
    // Nothing.
    Nothing,
    // The salted password.
    Salting(Salting),
    // The client's final message, and the signature that it expects.
    Final(ClientFinal),
}

// What was heard, and what the registration keeps of it, if that changes.
#[derive(Drop)]
pub(crate) struct Hearing {
    pub(crate) heard: RegistrationEvent,
    pub(crate) held: Option<Text>,
    pub(crate) work: Option<Work>,
}

impl Registration {
    ghost use Rattle.std.specs.Prelude.{◌≡◌, false, IfOk, IsOk};
    ghost use Rattle.registration.specs.Hearings.{IsQuiet, final_collected, final_message, finished, first_collected, first_heard, first_message, hearing_of, is_derived};
    ghost use Rattle.registration.specs.Hearings.{on_login, on_piece};

    // What a line means.
    pub(crate) fn listen(&self, alloc: Global, line: &Line) -> Result<Hearing, NoMemory>
        ensures hearing { IfOk result (λ hearing. hearing ≡ hearing_of self.now line.now) }
        ensures quiet { IsQuiet line.now → IsOk result }
    {
        let Line::Message(message) = line else {
            return Ok(changes_nothing(RegistrationEvent::Nothing));
        };
        match piece_of(message) {
            Some(piece) => self.on_piece(alloc, piece),
            None => Ok(changes_nothing(heard_of(message))),
        }
    }

    // What a piece of a login's message means.
    fn on_piece(&self, alloc: Global, piece: &[u8]) -> Result<Hearing, NoMemory>
        ensures { IfOk result (λ hearing. hearing ≡ on_piece self.now piece.now) }
    {
        match login_of(self.negotiation.stage) {
            Some(login) => self.on_login(alloc, login, piece),
            None => Ok(changes_nothing(RegistrationEvent::Nothing)),
        }
    }

    // The same while a login is tried.
    fn on_login(&self, alloc: Global, login: LoginStage, piece: &[u8]) -> Result<Hearing, NoMemory>
        ensures { IfOk result (λ hearing. hearing ≡ on_login self.now login piece.now) }
    {
        match login {
            LoginStage::AwaitsGo(_) => Ok(go_heard(alloc, piece)),
            LoginStage::AwaitsFirst(hash) => {
                let collected = with_piece(alloc, self.held.as_bytes(), piece)?;
                self.first_collected(alloc, hash, collected)
            }
            LoginStage::AwaitsFinal => {
                let collected = with_piece(alloc, self.held.as_bytes(), piece)?;
                self.final_collected(alloc, collected)
            }
            LoginStage::Derives | LoginStage::AwaitsResult => Ok(changes_nothing(
                RegistrationEvent::Nothing,
            )),
        }
    }

    // What is known of the server's first message of a SCRAM exchange.
    fn first_collected(
        &self,
        alloc: Global,
        hash: ScramHash,
        collected: Collected,
    ) -> Result<Hearing, NoMemory>
        ensures { IfOk result (λ hearing. hearing ≡ first_collected self.now hash collected) }
    {
        match collected {
            Collected::More(text) => Ok(holds(text)),
            Collected::Whole(text) => match bytes_in(alloc, text.as_bytes())? {
                Some(message) => self.first_message(alloc, hash, message.as_slice()),
                None => Ok(broken(RegistrationFault::BadChallenge)),
            },
            Collected::Bad => Ok(broken(RegistrationFault::BadChallenge)),
        }
    }

    // The server's first message of a SCRAM exchange.
    fn first_message(
        &self,
        alloc: Global,
        hash: ScramHash,
        message: &[u8],
    ) -> Result<Hearing, NoMemory>
        ensures { IfOk result (λ hearing. hearing ≡ first_message self.now hash message.now) }
    {
        match &self.account {
            Some(account) => self.first_heard(alloc, hash, account, message),
            None => Ok(changes_nothing(RegistrationEvent::Nothing)),
        }
    }

    // The same for the account that is wanted.
    fn first_heard(
        &self,
        alloc: Global,
        hash: ScramHash,
        account: &Credentials,
        message: &[u8],
    ) -> Result<Hearing, NoMemory>
        ensures { IfOk result (λ hearing. hearing ≡ first_heard self.now hash account.now message.now) }
    {
        let scram = self.scram(hash);
        match scram.hear_first(alloc, account, message) {
            Ok(salting) => Ok(Hearing {
                heard: RegistrationEvent::FirstTaken,
                held: Some(Text::empty(alloc)),
                work: Some(Work::Salting(salting)),
            }),
            Err(Failure::Refused(fault)) => Ok(broken(RegistrationFault::Scram(fault))),
            Err(Failure::NoMemory) => Err(NoMemory),
        }
    }

    // What is known of the server's final message of a SCRAM exchange.
    fn final_collected(&self, alloc: Global, collected: Collected) -> Result<Hearing, NoMemory>
        ensures { IfOk result (λ hearing. hearing ≡ final_collected self.now collected) }
    {
        match collected {
            Collected::More(text) => Ok(holds(text)),
            Collected::Whole(text) => match bytes_in(alloc, text.as_bytes())? {
                Some(message) => self.final_message(alloc, message.as_slice()),
                None => Ok(broken(RegistrationFault::BadChallenge)),
            },
            Collected::Bad => Ok(broken(RegistrationFault::BadChallenge)),
        }
    }

    // The server's final message of a SCRAM exchange.
    fn final_message(&self, alloc: Global, message: &[u8]) -> Result<Hearing, NoMemory>
        ensures { IfOk result (λ hearing. hearing ≡ final_message self.now message.now) }
    {
        match &self.work {
            Work::Final(own) => final_heard(alloc, own, message),
            Work::Nothing | Work::Salting(_) => Ok(changes_nothing(RegistrationEvent::Nothing)),
        }
    }

    // What comes of the work once it is done.
    pub(crate) fn end_work(&self, alloc: Global) -> Result<Hearing, NoMemory>
        ensures hearing { IfOk result (λ hearing. hearing ≡ finished self.now.work) }
        ensures quiet { is_derived self.now.work ≡ false → IsOk result }
    {
        match &self.work {
            Work::Salting(salting) => end_salting(alloc, salting),
            Work::Nothing | Work::Final(_) => Ok(changes_nothing(RegistrationEvent::Nothing)),
        }
    }
}

// A hearing that changes nothing of what is kept.
fn changes_nothing(heard: RegistrationEvent) -> Hearing
    ensures { result ≡ changes_nothing heard }
{
    Hearing {
        heard,
        held: None,
        work: None,
    }
}

// What the server says in a login is refused.
fn broken(fault: RegistrationFault) -> Hearing
    ensures { result ≡ broken fault }
{
    changes_nothing(RegistrationEvent::Broken(fault))
}

// A message goes on: what came of it is kept.
fn holds(text: Text) -> Hearing
    ensures { result ≡ holds text }
{
    Hearing {
        heard: RegistrationEvent::Nothing,
        held: Some(text),
        work: None,
    }
}

// The server asks for the client's first message: nothing is held of an earlier login.
fn go_heard(alloc: Global, piece: &[u8]) -> Hearing
    ensures { result ≡ go_heard piece.now }
{
    if piece == b"+".as_slice() {
        Hearing {
            heard: RegistrationEvent::Go,
            held: Some(Text::empty(alloc)),
            work: None,
        }
    } else {
        broken(RegistrationFault::BadChallenge)
    }
}

// The server's final message, to a client that expects a signature.
fn final_heard(alloc: Global, own: &ClientFinal, message: &[u8]) -> Result<Hearing, NoMemory>
    ensures { IfOk result (λ hearing. hearing ≡ final_heard own.now message.now) }
{
    match own.hear_final(alloc, message) {
        Ok(()) => Ok(Hearing {
            heard: RegistrationEvent::FinalTaken,
            held: Some(Text::empty(alloc)),
            work: None,
        }),
        Err(Failure::Refused(fault)) => Ok(broken(RegistrationFault::Scram(fault))),
        Err(Failure::NoMemory) => Err(NoMemory),
    }
}

// What comes of a salted password, once it is derived.
fn end_salting(alloc: Global, salting: &Salting) -> Result<Hearing, NoMemory>
    ensures hearing { IfOk result (λ hearing. hearing ≡ end_salting salting.now) }
    ensures quiet { is_salted salting.now ≡ false → IsOk result }
{
    if !salting.is_over() {
        return Ok(changes_nothing(RegistrationEvent::Nothing));
    }
    let own = salting.finish(alloc)?;
    Ok(Hearing {
        heard: RegistrationEvent::Derived,
        held: None,
        work: Some(Work::Final(own)),
    })
}
