// Topics (RFC 2812 section 3.2.4, replies 331 and 332), and answers to WHO (replies 352 and 354).
ghost use Rattle.std.specs.Prelude.{◌≡◌, ◌∷◌, [], true, Some, IfOk, OnErr};
ghost use Rattle.chanstate.specs.Items.{Titled, Addressed};
ghost use Rattle.chanstate.specs.Memory.{any_adds, readdresses, retitles};
ghost use Rattle.chanstate.specs.Plans.{IsPlanFor};
ghost use Rattle.chanstate.specs.Seen.{who_seen};
ghost use Rattle.chanstate.specs.declared.message_plan.MessagePlan.TheVariants.{Address};
ghost use Rattle.chanstate.specs.Views.{channel_in, member_in};

use crate::detail_parts::DetailParts;
use crate::message_plan::MessagePlan;
use crate::state::ChanState;
use crate::telling::Telling;
use bytetext::{NoMemory, Text};
use std::alloc::Global;

impl ChanState {
    // Returns whether the bot is on `channel`, and its topic is not `topic`.
    fn retitles(&self, channel: &[u8], topic: &[u8]) -> bool
        ensures { result ≡ retitles topic.now (channel_in channel.now self.now) }
    {
        match self.channels.find(self.casemapping(), channel) {
            Some(held) => held.topic.as_bytes() != topic,
            None => false,
        }
    }

    // Prepares another topic of a channel.
    pub(crate) fn ready_topic(
        &self,
        alloc: Global,
        channel: &[u8],
        topic: &[u8],
    ) -> Result<MessagePlan, NoMemory>
        ensures memory { OnErr result (any_adds (Titled channel.now topic.now ∷ []) self.now ≡ true) }
        ensures ready { IfOk result (λ plan. IsPlanFor (Titled channel.now topic.now ∷ []) plan self.now self.now) }
    {
        if !self.retitles(channel, topic) {
            return Ok(MessagePlan::Plain);
        }
        Ok(MessagePlan::Title {
            channel: Text::from_slice(alloc, channel)?,
            topic: Text::from_slice(alloc, topic)?,
        })
    }

    // Returns whether the bot is on `channel`, and a member called `nick` has another address.
    fn readdresses(&self, channel: &[u8], nick: &[u8], user: &[u8], host: &[u8]) -> bool
        ensures { result ≡ readdresses user.now host.now (member_in channel.now nick.now self.now) }
    {
        let Some(held) = self.channels.find(self.casemapping(), channel) else {
            return false;
        };
        match held.members.find(self.casemapping(), nick) {
            Some(member) => member.user.as_bytes() != user || member.host.as_bytes() != host,
            None => false,
        }
    }

    // Prepares another address of a member of a channel.
    pub(crate) fn ready_address(
        &self,
        alloc: Global,
        channel: &[u8],
        user: &[u8],
        host: &[u8],
        nick: &[u8],
    ) -> Result<MessagePlan, NoMemory>
        ensures memory { OnErr result (any_adds (Addressed channel.now nick.now user.now host.now ∷ []) self.now ≡ true) }
        ensures ready { IfOk result (λ plan. IsPlanFor (Addressed channel.now nick.now user.now host.now ∷ []) plan self.now self.now) }
    {
        if !self.readdresses(channel, nick, user, host) {
            return Ok(MessagePlan::Plain);
        }
        Ok(MessagePlan::Address {
            channel: Text::from_slice(alloc, channel)?,
            nick: Text::from_slice(alloc, nick)?,
            user: Text::from_slice(alloc, user)?,
            host: Text::from_slice(alloc, host)?,
            telling: None,
        })
    }

    // Returns whether an answer to WHO says something new of a member.
    fn who_adds(
        &self,
        channel: &[u8],
        user: &[u8],
        host: &[u8],
        nick: &[u8],
        account: &[u8],
    ) -> bool
        ensures { result ≡ any_adds (who_seen channel.now user.now host.now nick.now account.now) self.now }
    {
        self.readdresses(channel, nick, user, host)
            || self.tells(nick, DetailParts::Account(account))
    }

    // Prepares what an answer to WHO says of a member of a channel, and then of its account.
    pub(crate) fn ready_who(
        &self,
        alloc: Global,
        channel: &[u8],
        user: &[u8],
        host: &[u8],
        nick: &[u8],
        account: &[u8],
    ) -> Result<MessagePlan, NoMemory>
        ensures memory { OnErr result (any_adds (who_seen channel.now user.now host.now nick.now account.now) self.now ≡ true) }
        ensures ready { IfOk result (λ plan. IsPlanFor (who_seen channel.now user.now host.now nick.now account.now) plan self.now self.now) }
    {
        if !self.who_adds(channel, user, host, nick, account) {
            return Ok(MessagePlan::Plain);
        }
        let parts = DetailParts::Account(account);
        let telling = Telling::each(alloc, nick, parts, self.channels.as_slice())?;
        let plan = addressing(alloc, channel, user, host, nick, telling)?;
        Ok(plan)
    }
}

// Returns the plan of another address of a member, and then of `telling`.
fn addressing(
    alloc: Global,
    channel: &[u8],
    user: &[u8],
    host: &[u8],
    nick: &[u8],
    telling: Telling,
) -> Result<MessagePlan, NoMemory>
    ensures { IfOk result (λ plan. plan ≡ Address channel.now nick.now user.now host.now (Some telling)) }
{
    Ok(MessagePlan::Address {
        channel: Text::from_slice(alloc, channel)?,
        nick: Text::from_slice(alloc, nick)?,
        user: Text::from_slice(alloc, user)?,
        host: Text::from_slice(alloc, host)?,
        telling: Some(telling),
    })
}
