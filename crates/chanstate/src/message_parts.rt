// What a message says of the bot's channels.
ghost use Rattle.std.specs.Prelude.{◌≡◌, slice_get};
ghost use Rattle.chanstate.specs.Items.{items_of, items_by, rpl_welcome_items, join_items, part_items, kick_items, quit_items};
ghost use Rattle.chanstate.specs.Items.{nick_items, mode_items, topic_items, rpl_topic_items, rpl_no_topic_items, rpl_nam_reply_items, rpl_who_reply_items};
ghost use Rattle.chanstate.specs.Items.{joined_as, rpl_whospcrpl_items, account_items, chghost_items, cap_items};
ghost use Rattle.chanstate.specs.Seen.{items_seen};
ghost use Rattle.ircline.specs.Sources.{source_of};
ghost use Rattle.ircline.specs.View.{seen};

use crate::capabilities::capability;
use crate::channel_command::{ChannelCommand, read_verb};
use crate::detail_parts::DetailParts;
use crate::words::{account_but, last, param, params_from};
use bytetext::Text;
use ircline::{Message, Person, Source, source};

// The token by which the bot knows answers to its own WHO.
const WHO_TOKEN: &[u8] = b"152";

/// What a message says, as borrowed parts of its parameters.
#[derive(Clone, Copy)]
pub enum MessageParts<'a> {
    // Nothing about channels.
    Nothing,
    Welcome(&'a [u8]),
    Announce(&'a [Text]),
    Join {
        person: Person<'a>,
        list: &'a [u8],
    },
    // The account says something only if JOINs tell it.
    JoinAs {
        person: Person<'a>,
        list: &'a [u8],
        account: &'a [u8],
    },
    Part {
        nick: &'a [u8],
        list: &'a [u8],
    },
    Kick {
        channel: &'a [u8],
        target: &'a [u8],
    },
    Quit(&'a [u8]),
    Nick {
        old: &'a [u8],
        new: &'a [u8],
    },
    Mode {
        channel: &'a [u8],
        modes: &'a [u8],
        arguments: &'a [Text],
    },
    Topic {
        channel: &'a [u8],
        topic: &'a [u8],
    },
    Names {
        channel: &'a [u8],
        names: &'a [u8],
    },
    Address {
        channel: &'a [u8],
        user: &'a [u8],
        host: &'a [u8],
        nick: &'a [u8],
    },
    Who {
        channel: &'a [u8],
        user: &'a [u8],
        host: &'a [u8],
        nick: &'a [u8],
        account: &'a [u8],
    },
    Tell {
        nick: &'a [u8],
        detail: DetailParts<'a>,
    },
    JoinsTell(bool),
}

fn rpl_welcome(params: &[Text]) -> MessageParts<'_>
    ensures { items_seen result ≡ rpl_welcome_items params.now }
{
    match param(params, 0) {
        Some(nick) => MessageParts::Welcome(nick),
        None => MessageParts::Nothing,
    }
}

fn join<'a>(from: Source<'a>, params: &'a [Text]) -> MessageParts<'a>
    ensures { items_seen result ≡ join_items (seen from.entry) params.now }
{
    match from {
        Source::Person(person) => match param(params, 0) {
            Some(list) => join_as(person, list, params),
            None => MessageParts::Nothing,
        },
        Source::None | Source::Server(_) => MessageParts::Nothing,
    }
}

fn join_as<'a>(person: Person<'a>, list: &'a [u8], params: &'a [Text]) -> MessageParts<'a>
    ensures { items_seen result
        ≡ joined_as person.entry.nick.now person.entry.user.now person.entry.host.now list.now (slice_get params.now 1) }
{
    match param(params, 1) {
        Some(account) => MessageParts::JoinAs {
            person,
            list,
            account: account_but(b"*", account),
        },
        None => MessageParts::Join { person, list },
    }
}

fn kick(params: &[Text]) -> MessageParts<'_>
    ensures { items_seen result ≡ kick_items params.now }
{
    let Some(channel) = param(params, 0) else {
        return MessageParts::Nothing;
    };
    let Some(target) = param(params, 1) else {
        return MessageParts::Nothing;
    };
    MessageParts::Kick { channel, target }
}

fn part<'a>(from: Source<'a>, params: &'a [Text]) -> MessageParts<'a>
    ensures { items_seen result ≡ part_items (seen from.entry) params.now }
{
    match from {
        Source::Person(Person { nick, .. }) => match param(params, 0) {
            Some(list) => MessageParts::Part { nick, list },
            None => MessageParts::Nothing,
        },
        Source::None | Source::Server(_) => MessageParts::Nothing,
    }
}

fn quit<'a>(from: Source<'a>) -> MessageParts<'a>
    ensures { items_seen result ≡ quit_items (seen from.entry) }
{
    match from {
        Source::Person(Person { nick, .. }) => MessageParts::Quit(nick),
        Source::None | Source::Server(_) => MessageParts::Nothing,
    }
}

fn nick<'a>(from: Source<'a>, params: &'a [Text]) -> MessageParts<'a>
    ensures { items_seen result ≡ nick_items (seen from.entry) params.now }
{
    match from {
        Source::Person(Person { nick: old, .. }) => match param(params, 0) {
            Some(new) => MessageParts::Nick { old, new },
            None => MessageParts::Nothing,
        },
        Source::None | Source::Server(_) => MessageParts::Nothing,
    }
}

fn mode(params: &[Text]) -> MessageParts<'_>
    ensures { items_seen result ≡ mode_items params.now }
{
    let Some(channel) = param(params, 0) else {
        return MessageParts::Nothing;
    };
    let Some(modes) = param(params, 1) else {
        return MessageParts::Nothing;
    };
    MessageParts::Mode {
        channel,
        modes,
        arguments: params_from(params, 2),
    }
}

fn topic(params: &[Text]) -> MessageParts<'_>
    ensures { items_seen result ≡ topic_items params.now }
{
    let Some(channel) = param(params, 0) else {
        return MessageParts::Nothing;
    };
    let Some(_) = param(params, 1) else {
        return MessageParts::Nothing;
    };
    match last(params) {
        Some(topic) => MessageParts::Topic { channel, topic },
        None => MessageParts::Nothing,
    }
}

fn rpl_topic(params: &[Text]) -> MessageParts<'_>
    ensures { items_seen result ≡ rpl_topic_items params.now }
{
    let Some(channel) = param(params, 1) else {
        return MessageParts::Nothing;
    };
    let Some(_) = param(params, 2) else {
        return MessageParts::Nothing;
    };
    match last(params) {
        Some(topic) => MessageParts::Topic { channel, topic },
        None => MessageParts::Nothing,
    }
}

fn rpl_no_topic(params: &[Text]) -> MessageParts<'_>
    ensures { items_seen result ≡ rpl_no_topic_items params.now }
{
    match param(params, 1) {
        Some(channel) => MessageParts::Topic {
            channel,
            topic: b"",
        },
        None => MessageParts::Nothing,
    }
}

fn rpl_nam_reply(params: &[Text]) -> MessageParts<'_>
    ensures { items_seen result ≡ rpl_nam_reply_items params.now }
{
    let Some(channel) = param(params, 2) else {
        return MessageParts::Nothing;
    };
    let Some(names) = param(params, 3) else {
        return MessageParts::Nothing;
    };
    MessageParts::Names { channel, names }
}

fn rpl_who_reply(params: &[Text]) -> MessageParts<'_>
    ensures { items_seen result ≡ rpl_who_reply_items params.now }
{
    let Some(channel) = param(params, 1) else {
        return MessageParts::Nothing;
    };
    let Some(user) = param(params, 2) else {
        return MessageParts::Nothing;
    };
    let Some(host) = param(params, 3) else {
        return MessageParts::Nothing;
    };
    let Some(nick) = param(params, 5) else {
        return MessageParts::Nothing;
    };
    MessageParts::Address {
        channel,
        user,
        host,
        nick,
    }
}

fn rpl_whospcrpl(params: &[Text]) -> MessageParts<'_>
    ensures { items_seen result ≡ rpl_whospcrpl_items params.now }
{
    let Some(token) = param(params, 1) else {
        return MessageParts::Nothing;
    };
    if token != WHO_TOKEN {
        return MessageParts::Nothing;
    }
    let Some(channel) = param(params, 2) else {
        return MessageParts::Nothing;
    };
    let Some(user) = param(params, 3) else {
        return MessageParts::Nothing;
    };
    let Some(host) = param(params, 4) else {
        return MessageParts::Nothing;
    };
    let Some(nick) = param(params, 5) else {
        return MessageParts::Nothing;
    };
    match param(params, 6) {
        Some(account) => MessageParts::Who {
            channel,
            user,
            host,
            nick,
            account: account_but(b"0", account),
        },
        None => MessageParts::Nothing,
    }
}

fn account<'a>(from: Source<'a>, params: &'a [Text]) -> MessageParts<'a>
    ensures { items_seen result ≡ account_items (seen from.entry) params.now }
{
    match from {
        Source::Person(Person { nick, .. }) => match param(params, 0) {
            Some(account) => MessageParts::Tell {
                nick,
                detail: DetailParts::Account(account_but(b"*", account)),
            },
            None => MessageParts::Nothing,
        },
        Source::None | Source::Server(_) => MessageParts::Nothing,
    }
}

fn chghost<'a>(from: Source<'a>, params: &'a [Text]) -> MessageParts<'a>
    ensures { items_seen result ≡ chghost_items (seen from.entry) params.now }
{
    let Source::Person(Person { nick, .. }) = from else {
        return MessageParts::Nothing;
    };
    let Some(user) = param(params, 0) else {
        return MessageParts::Nothing;
    };
    match param(params, 1) {
        Some(host) => MessageParts::Tell {
            nick,
            detail: DetailParts::Address { user, host },
        },
        None => MessageParts::Nothing,
    }
}

fn cap<'a>(from: Source<'a>, params: &'a [Text]) -> MessageParts<'a>
    ensures { items_seen result ≡ cap_items (seen from.entry) params.now }
{
    match from {
        Source::Person(_) => MessageParts::Nothing,
        Source::None | Source::Server(_) => capability(params),
    }
}

/// Returns what `message` says of the bot's channels.
pub fn change_of(message: &Message) -> MessageParts<'_>
    ensures { items_seen result ≡ items_of message.now }
{
    let from = source(message.prefix.as_bytes());
    let params = message.params.as_slice();
    match read_verb(message.command.as_bytes()) {
        ChannelCommand::RplWelcome => rpl_welcome(params),
        ChannelCommand::RplISupport => MessageParts::Announce(params_from(params, 1)),
        ChannelCommand::Join => join(from, params),
        ChannelCommand::Part => part(from, params),
        ChannelCommand::Kick => kick(params),
        ChannelCommand::Quit => quit(from),
        ChannelCommand::Nick => nick(from, params),
        ChannelCommand::Mode => mode(params),
        ChannelCommand::Topic => topic(params),
        ChannelCommand::RplTopic => rpl_topic(params),
        ChannelCommand::RplNoTopic => rpl_no_topic(params),
        ChannelCommand::RplNamReply => rpl_nam_reply(params),
        ChannelCommand::RplWhoReply => rpl_who_reply(params),
        ChannelCommand::RplWhoSpcRpl => rpl_whospcrpl(params),
        ChannelCommand::Cap => cap(from, params),
        ChannelCommand::Account => account(from, params),
        ChannelCommand::ChgHost => chghost(from, params),
        ChannelCommand::Privmsg | ChannelCommand::Notice | ChannelCommand::Other =>
            MessageParts::Nothing,
    }
}
