// The bot's channels.
ghost use Rattle.std.specs.Prelude.{◌≡◌, ◌<◌, true, false, length, is_some, IfOk, IfErr, OnErr, MatchResult};
ghost use Rattle.std.specs.Option.{option_copied, option_map};
ghost use Rattle.chanstate.specs.Channels.{is_held};
ghost use Rattle.chanstate.specs.Views.{mapping_of, connected, channel_in, topic_in, members_in, member_in, is_op, is_voice, channels_with, account_in};
ghost use Rattle.chanstate.specs.Steps.{after};
ghost use Rattle.chanstate.specs.Memory.{takes_memory};
ghost use Rattle.chanstate.specs.Items.{items_of};
ghost use Rattle.chanstate.specs.Plans.{IsPlanFor, joined_if};

use crate::channels::Channels;
use crate::joins::names_channel;
use crate::member::Member;
use crate::members::Members;
use crate::message_parts::{MessageParts, change_of};
use crate::message_plan::MessagePlan;
use crate::support::Support;
use bytetext::{NoMemory, Text, Texts, TryCopy};
use ircline::Message;
use rfccase::Casemapping;
use std::alloc::Global;

/// What a bot knows of the channels that it is on, from the lines that it has read since it connected.
#[derive(Debug, Drop)]
pub struct ChanState {
    pub(crate) nick: Text,
    pub(crate) channels: Channels,
    pub(crate) support: Support,
}

impl ChanState {
    /// Creates the state of a bot that has just connected as `nick`: it is on no channel, and the server has announced
    /// nothing.
    ///
    /// # Errors
    /// Returns `NoMemory` if a copy of `nick` can't be allocated, never if it is empty.
    pub fn new(alloc: Global, nick: &[u8]) -> Result<ChanState, NoMemory>
        ensures state { IfOk result (λ s. s ≡ connected nick.now) }
        ensures memory { IfErr result (λ _. 0 < length nick.now) }
    {
        let nick = Text::from_slice(alloc, nick)?;
        Ok(ChanState {
            nick,
            channels: Channels::new(alloc),
            support: Support::unannounced(),
        })
    }

    /// Returns the nick by which the server knows the bot.
    pub fn own_nick(&self) -> &[u8]
        ensures { result.now ≡ self.now.nick }
    {
        self.nick.as_bytes()
    }

    /// Returns what the server has announced of its channel modes. Allocates nothing.
    pub fn support(&self) -> &Support
        ensures { result.now ≡ self.now.support }
    {
        &self.support
    }

    /// Returns how the server compares the names of channels and people: as it has announced before the first JOIN,
    /// else by RFC 1459. Every name and nick that this state is asked for is compared so. Allocates nothing.
    pub fn casemapping(&self) -> Casemapping
        ensures { result ≡ mapping_of self.now }
    {
        self.support.casemapping()
    }

    /// Returns whether the bot is on `channel`.
    pub fn holds(&self, channel: &[u8]) -> bool
        ensures { result ≡ is_held (mapping_of self.now) channel.now self.now.channels }
    {
        self.channels.holds(self.casemapping(), channel)
    }

    /// Returns the name of `channel` as the bot spells it; `None` if the bot isn't on it. Allocates nothing.
    pub fn held(&self, channel: &[u8]) -> Option<&[u8]>
        ensures { option_copied result ≡ option_map (λ c. c.name) (channel_in channel.now self.now) }
    {
        match self.channels.find(self.casemapping(), channel) {
            Some(held) => Some(held.name.as_bytes()),
            None => None,
        }
    }

    /// Returns the topic of `channel`, empty if it has none; `None` if the bot isn't on the channel.
    pub fn topic(&self, channel: &[u8]) -> Option<&[u8]>
        ensures { option_copied result ≡ topic_in channel.now self.now }
    {
        match self.channels.find(self.casemapping(), channel) {
            Some(held) => Some(held.topic.as_bytes()),
            None => None,
        }
    }

    /// Returns the member called `nick` on `channel`, with its address and marks; `None` if the bot isn't on the
    /// channel or nobody called `nick` is. Allocates nothing.
    pub fn member(&self, channel: &[u8], nick: &[u8]) -> Option<&Member>
        ensures { option_copied result ≡ member_in channel.now nick.now self.now }
    {
        match self.channels.find(self.casemapping(), channel) {
            Some(held) => held.members.find(self.casemapping(), nick),
            None => None,
        }
    }

    /// Returns whether someone called `nick` is on `channel`; false if the bot isn't on it. Allocates nothing.
    pub fn is_on(&self, channel: &[u8], nick: &[u8]) -> bool
        ensures { result ≡ is_some (member_in channel.now nick.now self.now) }
    {
        self.member(channel, nick).is_some()
    }

    /// Returns whether `nick` is a channel operator on `channel`; false if nobody called `nick` is there. Allocates
    /// nothing.
    pub fn is_op(&self, channel: &[u8], nick: &[u8]) -> bool
        ensures { result ≡ is_op (member_in channel.now nick.now self.now) }
    {
        match self.channels.find(self.casemapping(), channel) {
            Some(held) => held.members.is_op(self.casemapping(), nick),
            None => false,
        }
    }

    /// Returns whether `nick` has voice on `channel`; false if nobody called `nick` is there. Allocates nothing.
    pub fn is_voice(&self, channel: &[u8], nick: &[u8]) -> bool
        ensures { result ≡ is_voice (member_in channel.now nick.now self.now) }
    {
        match self.member(channel, nick) {
            Some(member) => member.voice,
            None => false,
        }
    }

    /// Returns the account under which `nick` is logged in: that of the member of that nick on the first channel that has
    /// one; empty if there is none or no account is known. Allocates nothing.
    pub fn account_of(&self, nick: &[u8]) -> &[u8]
        ensures { result.now ≡ account_in nick.now self.now }
    {
        let mapping = self.casemapping();
        let Some(channel) = self.channels.find_with(mapping, nick) else {
            return b"";
        };
        match channel.members.find(mapping, nick) {
            Some(member) => member.account.as_bytes(),
            None => b"",
        }
    }

    /// Returns the members of `channel` in the order in which they came; empty if the bot isn't on the channel.
    ///
    /// # Errors
    /// Returns `NoMemory` if the copies can't be allocated, never if there are no members.
    pub fn members(&self, alloc: Global, channel: &[u8]) -> Result<Members, NoMemory>
        ensures members { IfOk result (λ m. m ≡ members_in channel.now self.now) }
        ensures memory { IfErr result (λ _. 0 < length (members_in channel.now self.now)) }
    {
        match self.channels.find(self.casemapping(), channel) {
            Some(held) => Members::copied(alloc, &held.members),
            None => Ok(Members::new(alloc)),
        }
    }

    /// Returns the channels that the bot shares with `nick`, as the bot spells them, in the order in which it joined
    /// them.
    ///
    /// # Errors
    /// Returns `NoMemory` if the names can't be allocated, never if there are none.
    pub fn channels_of(&self, alloc: Global, nick: &[u8]) -> Result<Texts, NoMemory>
        ensures names { IfOk result (λ names. names ≡ channels_with nick.now self.now) }
        ensures memory { IfErr result (λ _. 0 < length (channels_with nick.now self.now)) }
    {
        let names = self.channels.names_with(alloc, self.casemapping(), nick)?;
        Ok(Texts::new(names))
    }

    /// Takes in `message`: calls [`ready`](ChanState::ready), and then [`commit`](crate::Update::commit).
    ///
    /// # Errors
    /// Returns `NoMemory` if an allocation fails; the state is then unchanged. Only a message that brings a text to
    /// keep allocates: a welcome, a JOIN, a NICK that changes how the bot's nick or a member's is spelled, and on held
    /// channels another topic, another address or account of a member in a reply 352 or 354, in ACCOUNT or in CHGHOST,
    /// and a reply 353 that names someone new. Any other message allocates nothing, for example every PART, KICK, QUIT
    /// and MODE, and what the server announces.
    pub fn apply(&mut self, alloc: Global, message: &Message) -> Result<(), NoMemory>
        ensures memory { OnErr result (takes_memory message.now self.old ≡ true) }
        ensures applied { MatchResult result (λ _. self.new ≡ after message.now self.old) (λ _. self.new ≡ self.old) }
    {
        let update = self.ready(alloc, message)?;
        update.commit(message);
        Ok(())
    }

    // Prepares `message`. Takes out the members of the channels that it changes.
    pub(crate) fn plan(&mut self, alloc: Global, message: &Message) -> Result<MessagePlan, NoMemory>
        ensures memory { OnErr result (takes_memory message.now self.old ≡ true) }
        ensures ready { MatchResult result (λ plan. IsPlanFor (items_of message.now) plan self.new self.old) (λ _. self.new ≡ self.old) }
    {
        match change_of(message) {
            MessageParts::Nothing => Ok(MessagePlan::Plain),
            MessageParts::Announce(_) => Ok(MessagePlan::Plain),
            MessageParts::Part { .. } => Ok(MessagePlan::Plain),
            MessageParts::Kick { .. } => Ok(MessagePlan::Plain),
            MessageParts::Quit(_) => Ok(MessagePlan::Plain),
            MessageParts::Mode { .. } => Ok(MessagePlan::Plain),
            MessageParts::Welcome(nick) => Ok(MessagePlan::Welcome(Text::from_slice(alloc, nick)?)),
            MessageParts::JoinsTell(_) => Ok(MessagePlan::Plain),
            MessageParts::Join { person, list } => self.ready_join(alloc, person, list),
            MessageParts::JoinAs {
                person,
                list,
                account,
            } => self.ready_join_as(alloc, person, list, account),
            MessageParts::Nick { old, new } => self.ready_nick(alloc, old, new),
            MessageParts::Topic { channel, topic } => self.ready_topic(alloc, channel, topic),
            MessageParts::Names { channel, names } => self.ready_list(alloc, channel, names),
            MessageParts::Address {
                channel,
                user,
                host,
                nick,
            } => self.ready_address(alloc, channel, user, host, nick),
            MessageParts::Who {
                channel,
                user,
                host,
                nick,
                account,
            } => self.ready_who(alloc, channel, user, host, nick, account),
            MessageParts::Tell { nick, detail } => self.ready_news(alloc, nick, detail),
        }
    }

    // Takes in that a JOIN has been read, if `joined`.
    pub(crate) fn note_join(&mut self, joined: bool)
        ensures { self.new ≡ record self.old { support = joined_if joined self.old.support } }
    {
        if joined {
            self.support.note_join();
        }
    }

    // Takes in a message that allocates nothing.
    pub(crate) fn take_in(&mut self, alloc: Global, message: &Message)
        requires { takes_memory message.now self.old ≡ false }
        ensures { self.new ≡ after message.now self.old }
    {
        match change_of(message) {
            MessageParts::Nothing => {}
            // These would allocate if they changed anything, so here they change nothing.
            MessageParts::Welcome(_) => {}
            MessageParts::Nick { .. } => {}
            MessageParts::Topic { .. } => {}
            MessageParts::Address { .. } => {}
            MessageParts::Who { .. } => {}
            MessageParts::Tell { .. } => {}
            MessageParts::JoinsTell(tell) => self.support.set_joins_tell(tell),
            MessageParts::Announce(tokens) => self.support.announce(tokens),
            MessageParts::Join { list, .. } => {
                let joined = names_channel(&self.support, list);
                self.note_join(joined);
            }
            MessageParts::JoinAs { list, .. } => {
                let joined = names_channel(&self.support, list);
                self.note_join(joined);
            }
            MessageParts::Part { nick, list } => self.leave_all(nick, list),
            MessageParts::Kick { channel, target } => self.leave(target, channel),
            MessageParts::Quit(nick) => self.depart(nick),
            MessageParts::Mode {
                channel,
                modes,
                arguments,
            } => self.mode(channel, modes, arguments),
            MessageParts::Names { channel, names } => {
                let mapping = self.casemapping();
                self.channels
                    .show(alloc, mapping, &self.support, channel, names);
            }
        }
    }
}

impl TryCopy for ChanState {
    fn copy(&self, alloc: Global) -> Result<ChanState, NoMemory> {
        Ok(ChanState {
            nick: self.nick.copy(alloc)?,
            channels: self.channels.copy(alloc)?,
            support: self.support,
        })
    }
}
