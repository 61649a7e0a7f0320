// What a message means to procs that are bound to it.
ghost use Rattle.std.specs.Prelude.{◌≡◌, ◌++◌, ◌∷◌, IfOk};
ghost use Rattle.ircline.specs.Sources.{Server, Person as SomePerson};
ghost use Rattle.chanstate.specs.Events.{typed_by, events_of};

use crate::accounts::{account_behind, add_account};
use crate::channel_command::{ChannelCommand, read_verb};
use crate::comings::{join, login, part, quit, rename};
use crate::deed::{Author, joined};
use crate::event::{EventKind, IrcEvent};
use crate::operations::{kick, mode, title};
use crate::speech::{notice, say};
use crate::state::ChanState;
use bytetext::{NoMemory, Text};
use ircline::{Message, Person, Source, source};
use std::alloc::Global;

/// Returns the events of `message`, given the `state` of the channels before it: the raw event, and then the events of
/// its command.
///
/// # Errors
/// Returns `NoMemory` if the events can't be allocated.
pub fn events(
    alloc: Global,
    message: &Message,
    state: &ChanState,
) -> Result<Vec<IrcEvent>, NoMemory>
    ensures { IfOk result (λ v. v.items ≡ events_of message.now state.now) }
{
    let command = message.command.as_bytes();
    let verb = read_verb(command);
    let params = message.params.as_slice();
    let mut events = match source(message.prefix.as_bytes()) {
        Source::None => Vec::new(alloc),
        Source::Server(name) => by_server(alloc, verb, name, params, state)?,
        Source::Person(person) => by_person(alloc, verb, person, params, state)?,
    };
    let parts = [message.prefix.as_bytes(), command, message.rest.as_bytes()];
    let raw = IrcEvent::new(alloc, EventKind::Raw, command, None, &parts)?;
    events.insert(0, raw)?;
    add_account(&mut events, alloc, account_behind(message, state))?;
    Ok(events)
}

// Returns the events of a message from a server.
fn by_server(
    alloc: Global,
    verb: ChannelCommand,
    name: &[u8],
    params: &[Text],
    state: &ChanState,
) -> Result<Vec<IrcEvent>, NoMemory>
    ensures { IfOk result (λ v. v.items ≡ typed_by verb (Server name.now) params.now state.now) }
{
    let by = Author {
        nick: b"",
        address: name,
    };
    match verb {
        ChannelCommand::Kick => kick(alloc, by, params, state),
        ChannelCommand::Mode => mode(alloc, by, params, state),
        ChannelCommand::Topic => title(alloc, by, params, state),
        ChannelCommand::Privmsg
        | ChannelCommand::Notice
        | ChannelCommand::Join
        | ChannelCommand::Part
        | ChannelCommand::Quit
        | ChannelCommand::Account
        | ChannelCommand::Nick => { Ok(Vec::new(alloc)) }
        ChannelCommand::RplWelcome
        | ChannelCommand::RplISupport
        | ChannelCommand::RplTopic
        | ChannelCommand::RplNoTopic
        | ChannelCommand::RplNamReply
        | ChannelCommand::RplWhoReply
        | ChannelCommand::RplWhoSpcRpl
        | ChannelCommand::Cap
        | ChannelCommand::ChgHost
        | ChannelCommand::Other => Ok(Vec::new(alloc)),
    }
}

// Returns the events of a message from a person.
fn by_person(
    alloc: Global,
    verb: ChannelCommand,
    person: Person<'_>,
    params: &[Text],
    state: &ChanState,
) -> Result<Vec<IrcEvent>, NoMemory>
    ensures { IfOk result (λ v. v.items
        ≡ typed_by verb (SomePerson person.entry.nick.now person.entry.user.now person.entry.host.now) params.now state.now) }
{
    let address = joined(alloc, person.user, b'@', person.host)?;
    let by = Author {
        nick: person.nick,
        address: address.as_bytes(),
    };
    match verb {
        ChannelCommand::Privmsg => say(alloc, by, params, state),
        ChannelCommand::Notice => notice(alloc, by, params, state),
        ChannelCommand::Join => join(alloc, by, params, state),
        ChannelCommand::Part => part(alloc, by, params, state),
        ChannelCommand::Quit => quit(alloc, by, params, state),
        ChannelCommand::Nick => rename(alloc, by, params, state),
        ChannelCommand::Account => login(alloc, by, params, state),
        ChannelCommand::Kick => kick(alloc, by, params, state),
        ChannelCommand::Mode => mode(alloc, by, params, state),
        ChannelCommand::Topic => title(alloc, by, params, state),
        ChannelCommand::RplWelcome
        | ChannelCommand::RplISupport
        | ChannelCommand::RplTopic
        | ChannelCommand::RplNoTopic
        | ChannelCommand::RplNamReply
        | ChannelCommand::RplWhoReply
        | ChannelCommand::RplWhoSpcRpl
        | ChannelCommand::Cap
        | ChannelCommand::ChgHost
        | ChannelCommand::Other => Ok(Vec::new(alloc)),
    }
}
