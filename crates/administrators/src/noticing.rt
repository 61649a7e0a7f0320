// Notices to a person about a change that their words asked for.
ghost use Rattle.std.specs.Prelude.{◌≡◌, count_by};
ghost use Rattle.std.specs.List.{list_any};
ghost use Rattle.administrators.specs.Waiting.{is_nameless_ask, wait_for, wait_of_persons, words_while};

use crate::asks::{Recipient, asker_in, asks_among};
use crate::change_outcome::ChangeOutcome;
use bytetext::{NoMemory, Text};
use procs::{Action, MadeCalls};
use serverlink::IrcConnection;
use std::alloc::Global;

/// Which changes a bot's hub takes from it.
#[derive(Clone, Copy, Debug, PartialEq, Eq)]
pub enum HubTakes {
    /// All.
    All,
    /// None in nobody's name.
    OfPersons,
    /// None: the bot may only read.
    Nothing,
}

/// Why a change that a proc asked for waits.
#[derive(Clone, Copy, Debug, PartialEq, Eq)]
pub enum ChangeWait {
    /// The hub has not answered yet.
    Answer,
    /// The change is in nobody's name, and the hub takes none such from this leaf.
    Persons,
    /// The hub takes no change from this leaf.
    Reads,
}

/// Queues a notice to each person whose words made a proc ask for a change in these calls: it waits for the hub, which
/// `takes` these changes from this bot. If the hub doesn't take it, the notice says so.
///
/// # Errors
/// `NoMemory` if an allocation fails.
pub fn notice_callers(
    alloc: Global,
    uplink: &mut IrcConnection,
    calls: &MadeCalls,
    takes: HubTakes,
) -> Result<(), NoMemory>
    ensures { uplink.new.session ≡ uplink.old.session }
{
    for call in calls.as_slice() {
        let actions = call.reply.actions.as_slice();
        if asks_among(actions) > 0 {
            let asker = asker_in(alloc, &call.call)?;
            notice_to(alloc, uplink, &asker, wait_for(takes, actions))?;
        }
    }
    Ok(())
}

// Why the changes among these actions wait.
fn wait_for(takes: HubTakes, actions: &[Action]) -> ChangeWait
    ensures { result ≡ wait_for takes actions.now }
{
    match takes {
        HubTakes::All => ChangeWait::Answer,
        HubTakes::OfPersons => wait_of_persons(actions),
        HubTakes::Nothing => ChangeWait::Reads,
    }
}

// Why the changes among these actions wait if the hub takes none in nobody's name.
fn wait_of_persons(actions: &[Action]) -> ChangeWait
    ensures { result ≡ wait_of_persons actions.now }
{
    if asks_nameless(actions) {
        ChangeWait::Persons
    } else {
        ChangeWait::Answer
    }
}

// Whether one of these actions asks for a change in nobody's name.
fn asks_nameless(actions: &[Action]) -> bool
    ensures { result ≡ list_any is_nameless_ask actions.now }
{
    actions.iter().any(|action| is_nameless_ask(action))
}

// Whether an action asks for a change in nobody's name.
fn is_nameless_ask(action: &Action) -> bool
    ensures { result ≡ is_nameless_ask action.now }
{
    match action {
        Action::Ask(change) => change.by.is_none(),
        Action::Timer(_)
        | Action::Utimer(_)
        | Action::KillTimer(_)
        | Action::SendBot(_)
        | Action::Put(_) => false,
    }
}

// Queues a notice to whoever asked for a change that waits, if that is a person.
fn notice_to(
    alloc: Global,
    uplink: &mut IrcConnection,
    asker: &Recipient,
    wait: ChangeWait,
) -> Result<(), NoMemory>
    ensures { uplink.new.session ≡ uplink.old.session }
{
    match asker {
        Recipient::Person(nick) => put_notice(alloc, uplink, nick.as_bytes(), words_while(wait)),
        Recipient::Nobody | Recipient::Admin(_) => Ok(()),
    }
}

// What a notice says of a change that waits.
fn words_while(wait: ChangeWait) -> &'static [u8]
    ensures { result.now ≡ words_while wait }
{
    match wait {
        ChangeWait::Answer => b"queued: the hub has not answered yet",
        ChangeWait::Persons =>
            b"waits: this leaf may ask for persons alone, as its hub says, and this is in nobody's name",
        ChangeWait::Reads => b"waits: this leaf may only read, as its hub says",
    }
}

// Queues a notice to a person about the outcome of a change. Does nothing without a server, or if too many lines wait.
pub(crate) fn notice(
    alloc: Global,
    uplink: &mut IrcConnection,
    nick: &[u8],
    outcome: ChangeOutcome,
) -> Result<(), NoMemory>
    ensures { uplink.new.session ≡ uplink.old.session }
{
    let words = words_of(alloc, outcome)?;
    put_notice(alloc, uplink, nick, words.as_slice())
}

// Queues a notice to a person that says these words. Does nothing without a server, or if too many lines wait.
pub(crate) fn put_notice(
    alloc: Global,
    uplink: &mut IrcConnection,
    nick: &[u8],
    words: &[u8],
) -> Result<(), NoMemory>
    ensures { uplink.new.session ≡ uplink.old.session }
{
    if uplink.session().is_none() || !uplink.own.has_room() {
        return Ok(());
    }
    let mut line = Vec::from_slice(alloc, b"NOTICE ")?;
    line.extend_from_slice(nick)?;
    line.extend_from_slice(b" :")?;
    line.extend_from_slice(words)?;
    uplink.own.put(Text::new(line))
}

// The outcome of a change, as a notice words it.
fn words_of(alloc: Global, outcome: ChangeOutcome) -> Result<Vec<u8>, NoMemory> {
    let words = match outcome {
        ChangeOutcome::Nothing => return Ok(Vec::from_slice(
            alloc,
            words_while(ChangeWait::Answer),
        )?),
        ChangeOutcome::Accepted(number) => format!(in alloc; "accepted under number {number}")?,
        ChangeOutcome::Refused(fault) => format!(in alloc; "refused, {}: {fault}", fault.code())?,
        ChangeOutcome::Barred(fault) => format!(in alloc; "refused, {}: {fault}", fault.code())?,
    };
    Ok(words.into_bytes())
}
