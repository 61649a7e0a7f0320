// What a message means to procs that are bound to it.
ghost use Rattle.std.specs.Prelude.{◌≡◌, ◌++◌, IfOk, OnOk, map};
ghost use Rattle.std.specs.Option.{option_copied};
ghost use Rattle.chanstate.specs.EventShape.{event_with, with_account};

use bytetext::{NoMemory, Text, Texts, TryCopy};
use std::alloc::Global;

/// The kinds of events, named as Eggdrop's bind types.
#[derive(Clone, Copy, Debug)]
pub enum EventKind {
    /// Any message, by its command.
    Raw,
    /// A private message, by its first word.
    Msg,
    /// A private message, by its whole text.
    Msgm,
    /// A notice, by its whole text.
    Notc,
    /// A message to a channel, by its first word.
    Pub,
    /// A message to a channel, by the channel and the whole text.
    Pubm,
    /// Someone joins a channel.
    Join,
    /// Someone leaves a channel.
    Part,
    /// Someone who is on a channel leaves the network.
    Sign,
    /// Someone kicks another off a channel.
    Kick,
    /// Someone who is on a channel takes another nick.
    Nick,
    /// A single mode of a channel is set or cleared.
    Mode,
    /// A channel gets another topic.
    Topc,
    /// Someone who is on a channel logs in to the network's services, or logs out.
    Account,
}

/// An event that a message gives.
#[derive(Debug)]
pub struct IrcEvent {
    /// The kind of event.
    pub kind: EventKind,
    /// What a bind's mask is matched against.
    pub subject: Text,
    /// The channel that it happens on, as the bot spells it; `None` for an event that is on no channel.
    pub channel: Option<Text>,
    /// The account of the network's services under which the person behind the event is logged in; empty if none is
    /// known or no person is behind it.
    pub account: Text,
    /// The arguments of a proc. For every kind but `Raw` they begin with the nick and `user@host` of the person. The
    /// handle, which isn't among them, would come next. If a server acts, the nick is empty and its name takes the
    /// place of `user@host`.
    pub arguments: Texts,
}

// Written by hand, so that it is proved once and not in each function that drops an `IrcEvent`.
impl Drop for IrcEvent {
    fn drop(self) {
        let IrcEvent {
            kind: _,
            subject: _,
            channel: _,
            account: _,
            arguments: _,
        } = self;
    }
}

impl IrcEvent {
    // Creates an event of these parts, without an account.
    pub(crate) fn new(
        alloc: Global,
        kind: EventKind,
        subject: &[u8],
        channel: Option<&[u8]>,
        arguments: &[&[u8]],
    ) -> Result<IrcEvent, NoMemory>
        ensures { IfOk result (λ e. e ≡ event_with kind subject.now (option_copied channel.entry) (map (λ x. x.now) arguments.now)) }
    {
        let subject = Text::from_slice(alloc, subject)?;
        let channel = match channel {
            Some(name) => Some(Text::from_slice(alloc, name)?),
            None => None,
        };
        let arguments = texts_of(alloc, arguments)?;
        Ok(IrcEvent {
            kind,
            subject,
            channel,
            account: Text::empty(alloc),
            arguments: Texts::new(arguments),
        })
    }
}

impl IrcEvent {
    // Gives the event a copy of `account`. Allocates nothing if it is empty.
    pub(crate) fn set_account(&mut self, alloc: Global, account: &[u8]) -> Result<(), NoMemory>
        ensures { OnOk result (self.new ≡ with_account account.now self.old) }
    {
        self.account = Text::from_slice(alloc, account)?;
        Ok(())
    }
}

impl TryCopy for IrcEvent {
    fn copy(&self, alloc: Global) -> Result<IrcEvent, NoMemory> {
        let channel = match &self.channel {
            Some(name) => Some(name.copy(alloc)?),
            None => None,
        };
        Ok(IrcEvent {
            kind: self.kind,
            subject: self.subject.copy(alloc)?,
            channel,
            account: self.account.copy(alloc)?,
            arguments: self.arguments.copy(alloc)?,
        })
    }
}

// Copies each of `texts`, in order.
fn texts_of(alloc: Global, texts: &[&[u8]]) -> Result<Vec<Text>, NoMemory>
    ensures { IfOk result (λ copies. copies.items ≡ map (λ x. x.now) texts.now) }
{
    let mut copies = Vec::with_capacity(alloc, texts.len())?;
    push_texts(&mut copies, alloc, texts)?;
    Ok(copies)
}

// Appends a copy of each text to `copies`, in order.
pub(crate) fn push_texts(
    copies: &mut Vec<Text>,
    alloc: Global,
    texts: &[&[u8]],
) -> Result<(), NoMemory>
    ensures { OnOk result (copies.new.items ≡ copies.old.items ++ map (λ x. x.now) texts.now) }
{
    for text in texts {
        copies.push(Text::from_slice(alloc, text)?)?;
    }
    Ok(())
}
