// Messages that call no bind.
//
// Most lines are what people say on channels, and most of these call no bind. A quick look at the binds often shows it
// before the events of the message are built.
ghost use Rattle.std.specs.Prelude.{◌≡◌, ◌∷◌, ◌++◌, IfOk};

use crate::bot::Bot;
use crate::joining::is_own;
use bytetext::{NoMemory, first_word};
use chanstate::is_for_programs;
use disks::Disk;
use ircline::Message;
use procs::BindKind;
use std::alloc::Global;

impl<D: Disk> Bot<D> {
    ghost use Rattle.std.specs.Prelude.{◌≡◌, ℕ, List, IfOk, IsTrue};
    ghost use Rattle.chanstate.specs.Events.{events_of};
    ghost use Rattle.chanstate.specs.Speech.{said, to_channel};
    ghost use Rattle.procs.specs.Unheard.{CallNone};

    // Whether a quick look shows that the events of a message call no bind. It looks at a PRIVMSG to a channel that the
    // bot is on, and answers false for any other message.
    pub(crate) fn calls_none(&self, alloc: Global, message: &Message) -> Result<bool, NoMemory>
        ensures { IfOk result (λ none. IsTrue none → CallNone self.now.binds.binds (events_of message.now self.now.channels)) }
    {
        let command = message.command.as_bytes();
        if !message.is_said() || !self.binds.takes_none(BindKind::Raw, command) {
            return Ok(false);
        }
        match message.params.as_slice() {
            [target, text] => self.says_to_none(alloc, target.as_bytes(), text.as_bytes()),
            _ => Ok(false),
        }
    }

    // Whether a quick look shows that no bind takes what a person says to `target`. A text for programs has no event
    // but the raw one.
    fn says_to_none(&self, alloc: Global, target: &[u8], text: &[u8]) -> Result<bool, NoMemory>
        ensures { IfOk result (λ none. IsTrue none → (nick address : List ℕ)
            → CallNone self.now.binds.binds (said nick address target.now text.now self.now.channels)) }
    {
        if is_for_programs(text) {
            return Ok(true);
        }
        let channels = self.channels.current();
        if is_own(channels, target) {
            return Ok(false);
        }
        match channels.held(target) {
            Some(channel) => self.says_none_on(alloc, channel, text),
            None => Ok(false),
        }
    }

    // Whether a quick look shows that no bind takes what a person says on `channel`: neither the first word of the text,
    // nor the channel with the whole text.
    fn says_none_on(&self, alloc: Global, channel: &[u8], text: &[u8]) -> Result<bool, NoMemory>
        ensures { IfOk result (λ none. IsTrue none → (nick address : List ℕ)
            → CallNone self.now.binds.binds (to_channel nick address channel.now text.now)) }
    {
        if !self.binds.takes_none(BindKind::Pub, first_word(text)) {
            return Ok(false);
        }
        let subject = on_channel(alloc, channel, text)?;
        Ok(self.binds.takes_none(BindKind::Pubm, subject.as_slice()))
    }
}

// Returns `channel`, a space and `text`, as the masks of pubm binds see them.
fn on_channel(alloc: Global, channel: &[u8], text: &[u8]) -> Result<Vec<u8>, NoMemory>
    ensures { IfOk result (λ subject. subject.items ≡ channel.now ++ 32 ∷ text.now) }
{
    let mut subject = Vec::with_capacity(alloc, channel.len() + 1 + text.len())?;
    subject.extend_from_slice(channel)?;
    subject.push(b' ')?;
    subject.extend_from_slice(text)?;
    Ok(subject)
}
