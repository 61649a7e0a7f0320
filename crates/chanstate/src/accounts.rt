// The account of the person behind a message.
ghost use Rattle.std.specs.Prelude.{◌≡◌, OnOk, map};
ghost use Rattle.std.specs.Option.{option_copied};
ghost use Rattle.chanstate.specs.EventShape.{with_account};
ghost use Rattle.chanstate.specs.Events.{account_told, account_behind};

use crate::channel_command::{ChannelCommand, read_verb};
use crate::event::IrcEvent;
use crate::state::ChanState;
use crate::words::{account_at_join, account_but, param};
use bytetext::{NoMemory, Text};
use ircline::{Message, Source, source};
use std::alloc::Global;

// Returns the account that a message of a person itself tells, if it does.
fn account_told<'a>(verb: ChannelCommand, params: &'a [Text], state: &ChanState) -> Option<&'a [u8]>
    ensures { option_copied result ≡ account_told verb params.now state.now }
{
    match verb {
        ChannelCommand::Join => if state.support.joins_tell() {
            account_at_join(params)
        } else {
            None
        },
        ChannelCommand::Account => match param(params, 0) {
            Some(account) => Some(account_but(b"*", account)),
            None => None,
        },
        ChannelCommand::Part
        | ChannelCommand::Kick
        | ChannelCommand::Quit
        | ChannelCommand::Nick
        | ChannelCommand::Mode
        | ChannelCommand::Topic
        | ChannelCommand::Privmsg
        | ChannelCommand::Notice => None,
        ChannelCommand::RplWelcome
        | ChannelCommand::RplISupport
        | ChannelCommand::RplTopic
        | ChannelCommand::RplNoTopic
        | ChannelCommand::RplNamReply
        | ChannelCommand::RplWhoReply
        | ChannelCommand::RplWhoSpcRpl
        | ChannelCommand::Cap
        | ChannelCommand::ChgHost
        | ChannelCommand::Other => None,
    }
}

/// Returns the account of the person behind `message`, given the `state` before it; empty if none is known or no person
/// is behind it. Allocates nothing.
pub fn account_behind<'a>(message: &'a Message, state: &'a ChanState) -> &'a [u8]
    ensures { result.now ≡ account_behind message.now state.now }
{
    let Source::Person(person) = source(message.prefix.as_bytes()) else {
        return b"";
    };
    let verb = read_verb(message.command.as_bytes());
    match account_told(verb, message.params.as_slice(), state) {
        Some(account) => account,
        None => state.account_of(person.nick),
    }
}

// Gives each of `events` a copy of `account`. Allocates nothing if it is empty.
pub(crate) fn add_account(
    events: &mut Vec<IrcEvent>,
    alloc: Global,
    account: &[u8],
) -> Result<(), NoMemory>
    ensures { OnOk result (events.new.items ≡ map (with_account account.now) events.old.items) }
{
    for event in events.iter_mut() {
        event.set_account(alloc, account)?;
    }
    Ok(())
}
