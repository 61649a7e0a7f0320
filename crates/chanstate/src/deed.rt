// What someone does on a channel, from which its events are made.
ghost use Rattle.std.specs.Prelude.{◌≡◌, ◌++◌, ◌∷◌, [], IfOk, OnOk, map};
ghost use Rattle.std.specs.Option.{option_copied, option_to_list};
ghost use Rattle.chanstate.specs.Deeds.{told};

use crate::event::{EventKind, IrcEvent, push_texts};
use bytetext::{NoMemory, Text, Texts};
use std::alloc::Global;

/// Who does something.
#[derive(Clone, Copy)]
pub struct Author<'a> {
    // Empty for a server.
    pub(crate) nick: &'a [u8],
    // user@host, or the server's name.
    pub(crate) address: &'a [u8],
}

/// What someone does on one channel or on several.
#[derive(Clone, Copy)]
pub struct Deed<'a> {
    pub(crate) kind: EventKind,
    pub(crate) by: Author<'a>,
    // The part of the subject after the channel and a space. Masks are matched against the subject.
    pub(crate) about: &'a [u8],
    // The arguments that procs get after the channel.
    pub(crate) more: &'a [&'a [u8]],
}

impl Deed<'_> {
    // Returns the event of the deed on `channel`.
    pub(crate) fn on(&self, alloc: Global, channel: &[u8]) -> Result<IrcEvent, NoMemory>
        ensures { IfOk result (λ e. e ≡ told self.now channel.now) }
    {
        let subject = joined(alloc, channel, b' ', self.about)?;
        let name = Text::from_slice(alloc, channel)?;
        let mut arguments = Vec::with_capacity(alloc, ARGUMENTS)?;
        push_texts(
            &mut arguments,
            alloc,
            &[self.by.nick, self.by.address, channel],
        )?;
        push_texts(&mut arguments, alloc, self.more)?;
        Ok(IrcEvent {
            kind: self.kind,
            subject,
            channel: Some(name),
            account: Text::empty(alloc),
            arguments: Texts::new(arguments),
        })
    }

    // Returns a list with just the event of the deed on `channel`.
    pub(crate) fn on_one(&self, alloc: Global, channel: &[u8]) -> Result<Vec<IrcEvent>, NoMemory>
        ensures { IfOk result (λ v. v.items ≡ told self.now channel.now ∷ []) }
    {
        let mut events = Vec::with_capacity(alloc, 1)?;
        events.push(self.on(alloc, channel)?)?;
        Ok(events)
    }

    // Appends the event of the deed on `channel` to `events`, if there is a channel.
    pub(crate) fn push_on(
        &self,
        events: &mut Vec<IrcEvent>,
        alloc: Global,
        channel: Option<&[u8]>,
    ) -> Result<(), NoMemory>
        ensures { OnOk result (events.new.items ≡ events.old.items ++ map (told self.now) (option_to_list (option_copied channel.entry))) }
    {
        if let Some(channel) = channel {
            events.push(self.on(alloc, channel)?)?;
        }
        Ok(())
    }
}

// No event has more arguments than this.
const ARGUMENTS: usize = 5;

/// Returns `front` and `back` with the byte `between` between them.
pub fn joined(alloc: Global, front: &[u8], between: u8, back: &[u8]) -> Result<Text, NoMemory>
    ensures { IfOk result (λ t. t ≡ front.now ++ between ∷ back.now) }
{
    let mut bytes = Vec::with_capacity(alloc, front.len() + 1 + back.len())?;
    bytes.extend_from_slice(front)?;
    bytes.push(between)?;
    bytes.extend_from_slice(back)?;
    Ok(Text::new(bytes))
}
