// What a client says while it registers, as lines.
ghost use Rattle.std.specs.Prelude.{◌≡◌, ◌∷◌, [], IfOk, drop};
ghost use Rattle.registration.specs.Registrations.{final_lines, message_lines, name_line, names_of, plain_message, request_line, word};

use crate::capabilities::Capabilities;
use crate::credentials::Credentials;
use crate::encoding::base64_of;
use crate::hearing::Work;
use crate::joining::joined;
use crate::mechanism::mechanism_name;
use crate::payload::{one_line, payload_lines};
use crate::registration::Registration;
use crate::registration_event::Say;
use crate::scram::Scram;
use crate::scram_hash::ScramHash;
use bytetext::{NoMemory, Texts};
use std::alloc::Global;

impl Registration {
    ghost use Rattle.std.specs.Prelude.{◌≡◌, None, IfOk, IsOk, unwrap_or};
    ghost use Rattle.registration.specs.Hearings.{nonce_of, scram_of};
    ghost use Rattle.registration.specs.Registrations.{first_lines, lines_by, lines_of, plain_lines};

    // The lines of what is said, if anything, by the work that follows.
    pub(crate) fn lines(
        &self,
        alloc: Global,
        say: Option<Say>,
        work: &Option<Work>,
    ) -> Result<Texts, NoMemory>
        ensures lines { IfOk result (λ lines. lines
            ≡ lines_by self.now.account self.now.nonces (unwrap_or work.now self.now.work) say) }
        ensures quiet { say ≡ None → IsOk result }
    {
        let Some(say) = say else {
            return Ok(Texts::empty(alloc));
        };
        match work {
            Some(work) => self.lines_of(alloc, say, work),
            None => self.lines_of(alloc, say, &self.work),
        }
    }

    // The lines of what is said.
    fn lines_of(&self, alloc: Global, say: Say, work: &Work) -> Result<Texts, NoMemory>
        ensures { IfOk result (λ lines. lines ≡ lines_of self.now.account self.now.nonces work.now say) }
    {
        match say {
            Say::Request(set) => request_lines(alloc, &set),
            Say::RequestSasl => one_line(alloc, b"CAP REQ :sasl"),
            Say::Name(mechanism) => name_lines(alloc, mechanism_name(mechanism)),
            Say::First(hash) => self.first_lines(alloc, hash),
            Say::Final => final_lines(alloc, work),
            Say::Plain => self.plain_lines(alloc),
            Say::Empty => one_line(alloc, b"AUTHENTICATE +"),
            Say::End => one_line(alloc, b"CAP END"),
        }
    }

    // The SCRAM exchange with this hash function.
    pub(crate) fn scram(&self, hash: ScramHash) -> Scram
        ensures { result ≡ scram_of self.now.nonces hash }
    {
        let nonce = match hash {
            ScramHash::Sha512 => self.nonces.sha_512,
            ScramHash::Sha256 => self.nonces.sha_256,
        };
        Scram { hash, nonce }
    }

    // The first message of a SCRAM exchange.
    fn first_lines(&self, alloc: Global, hash: ScramHash) -> Result<Texts, NoMemory>
        ensures { IfOk result (λ lines. lines ≡ first_lines self.now.account (nonce_of self.now.nonces hash)) }
    {
        match &self.account {
            Some(account) => {
                let message = self.scram(hash).first(alloc, account)?;
                message_lines(alloc, message.as_bytes())
            }
            None => Ok(Texts::empty(alloc)),
        }
    }

    // The message of PLAIN.
    fn plain_lines(&self, alloc: Global) -> Result<Texts, NoMemory>
        ensures { IfOk result (λ lines. lines ≡ plain_lines self.now.account) }
    {
        match &self.account {
            Some(account) => {
                let message = plain_message(alloc, account)?;
                message_lines(alloc, message.as_slice())
            }
            None => Ok(Texts::empty(alloc)),
        }
    }
}

// The client's final message of a SCRAM exchange.
fn final_lines(alloc: Global, work: &Work) -> Result<Texts, NoMemory>
    ensures { IfOk result (λ lines. lines ≡ final_lines work.now) }
{
    match work {
        Work::Final(own) => message_lines(alloc, own.message.as_bytes()),
        Work::Nothing | Work::Salting(_) => Ok(Texts::empty(alloc)),
    }
}

// A message, as lines.
fn message_lines(alloc: Global, message: &[u8]) -> Result<Texts, NoMemory>
    ensures { IfOk result (λ lines. lines ≡ message_lines message.now) }
{
    let text = base64_of(alloc, message)?;
    payload_lines(alloc, text.as_slice())
}

// The message of PLAIN, with the password.
fn plain_message(alloc: Global, account: &Credentials) -> Result<Vec<u8>, NoMemory>
    ensures { IfOk result (λ message. message.items ≡ plain_message account.now) }
{
    joined(
        alloc,
        &[
            b"\0",
            account.name.as_bytes(),
            b"\0",
            account.password.as_bytes(),
        ],
    )
}

// The line that names a mechanism.
fn name_lines(alloc: Global, name: &[u8]) -> Result<Texts, NoMemory>
    ensures { IfOk result (λ lines. lines ≡ name_line name.now ∷ []) }
{
    let line = joined(alloc, &[b"AUTHENTICATE ", name])?;
    one_line(alloc, line.as_slice())
}

// The line that asks for capabilities.
fn request_lines(alloc: Global, set: &Capabilities) -> Result<Texts, NoMemory>
    ensures { IfOk result (λ lines. lines ≡ request_line set.now ∷ []) }
{
    let names = names_of(alloc, set)?;
    let line = joined(alloc, &[b"CAP REQ :", after_one(names.as_slice())])?;
    one_line(alloc, line.as_slice())
}

// The names of capabilities, with a space before each.
fn names_of(alloc: Global, set: &Capabilities) -> Result<Vec<u8>, NoMemory>
    ensures { IfOk result (λ names. names.items ≡ names_of set.now) }
{
    joined(
        alloc,
        &[
            word(set.account_notify, b" account-notify"),
            word(set.extended_join, b" extended-join"),
            word(set.multi_prefix, b" multi-prefix"),
            word(set.userhost_in_names, b" userhost-in-names"),
            word(set.chghost, b" chghost"),
            word(set.away_notify, b" away-notify"),
            word(set.invite_notify, b" invite-notify"),
        ],
    )
}

// A name, if it is to be said.
fn word(is_said: bool, name: &[u8]) -> &[u8]
    ensures { result.now ≡ word is_said name.now }
{
    if is_said { name } else { b"" }
}

// All bytes but the first.
fn after_one(bytes: &[u8]) -> &[u8]
    ensures { result.now ≡ drop 1 bytes.now }
{
    match bytes {
        [_, rest @ ..] => rest,
        [] => bytes,
    }
}
