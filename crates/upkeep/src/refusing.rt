// Why a bot does not execute a command now.
ghost use Rattle.std.specs.Prelude.{◌≡◌, true, false, IfOk, IsSome};
ghost use Rattle.peers.specs.Asking.{may_ask, may_ask_nameless};
ghost use Rattle.upkeep.specs.Refusing.{is_change};

use crate::space::{NO_ROOM, Space};
use bytetext::NoMemory;
use control::AdminCommand;
use handshake::HandshakeRefusal;
use peers::{Doubt, Links};
use std::alloc::Global;

// The answer to an admin who asks for a change at a leaf that may only read.
const READS: &[u8] =
    b"refused this leaf may only read: ask at the hub, or take its line leaf out of the hub's configuration\n";

// The answer to an admin, who asks in nobody's name, at a leaf that may ask for persons alone.
const PERSONS: &[u8] =
    b"refused this leaf may ask for persons alone: ask at the hub, or take its line leaf out of the hub's configuration\n";

// The answer to an admin who asks for a change at a leaf that was never linked.
const NEW: &[u8] =
    b"refused never linked: this leaf takes changes once its hub has welcomed it: ask at the hub, or see what status says\n";

// The answer to an admin who asks for a change at a hub that is being handed over.
const HANDED: &[u8] =
    b"refused the hub is being handed over: ask at the heir, or here again if the log says that it was not handed over\n";

/// Returns the answer that refuses `command`, if the bot does not execute it now: it has no room on its disk, or it is a
/// hub that is being handed over, as `hands_over` says, or one in doubt, or a leaf that was never linked or may ask for no change in nobody's name, as an admin's is.
///
/// # Errors
/// `NoMemory` if an allocation fails.
pub fn refusal(
    alloc: Global,
    links: &Links,
    space: &Space,
    hands_over: bool,
    command: &AdminCommand,
) -> Result<Option<Vec<u8>>, NoMemory>
    // A hub that is being handed over refuses each change.
    ensures hands_over { hands_over ≡ true → is_change command.now ≡ true → IfOk result IsSome }
    // A bot that may not ask for changes refuses each change.
    ensures asks { may_ask links.now ≡ false → is_change command.now ≡ true → IfOk result IsSome }
    // An admin's change is in nobody's name.
    ensures nameless { may_ask_nameless links.now ≡ false → is_change command.now ≡ true → IfOk result IsSome }
{
    if needs_room(command) && !space.has_room() {
        return Ok(Some(Vec::from_slice(alloc, NO_ROOM)?));
    }
    if !is_change(command) {
        return Ok(None);
    }
    if hands_over {
        return Ok(Some(Vec::from_slice(alloc, HANDED)?));
    }
    if let Some(doubt) = links.doubt() {
        return Ok(Some(in_doubt(alloc, doubt)?));
    }
    if links.is_new_leaf() {
        return Ok(Some(Vec::from_slice(alloc, NEW)?));
    }
    if !links.may_ask() {
        return Ok(Some(Vec::from_slice(alloc, READS)?));
    }
    if !links.may_ask_nameless() {
        return Ok(Some(Vec::from_slice(alloc, PERSONS)?));
    }
    Ok(None)
}

// The answer of a hub in doubt to an admin who asks for a change.
fn in_doubt(alloc: Global, doubt: Doubt) -> Result<Vec<u8>, NoMemory> {
    let Doubt { leaf, refusal } = doubt;
    let line = format!(in alloc;
        "refused in doubt: leaf {leaf} {}, so this hub may be an older copy: give it its newest journal back, or say trust-this-copy\n",
        found(refusal)
    )?;
    Ok(line.into_bytes())
}

// What the hub found at the leaf that makes it doubt.
fn found(refusal: HandshakeRefusal) -> &'static str {
    match refusal {
        HandshakeRefusal::Ahead => "is ahead of this hub",
        HandshakeRefusal::Records => "has other records at the hub's version",
        HandshakeRefusal::Heir
        | HandshakeRefusal::Net
        | HandshakeRefusal::Count
        | HandshakeRefusal::Other
        | HandshakeRefusal::Older => "was refused",
    }
}

// Whether a command asks for a change of the records.
fn is_change(command: &AdminCommand) -> bool
    ensures { result ≡ is_change command.now }
{
    match command {
        AdminCommand::Change(_) => true,
        AdminCommand::Show
        | AdminCommand::ShowJson
        | AdminCommand::Changes(_)
        | AdminCommand::Status
        | AdminCommand::StatusJson
        | AdminCommand::Reload
        | AdminCommand::Reopen
        | AdminCommand::Backup(_)
        | AdminCommand::Join(_)
        | AdminCommand::Part(_)
        | AdminCommand::Bind(_)
        | AdminCommand::Unbind(_)
        | AdminCommand::Unignore(_)
        | AdminCommand::Say(_)
        | AdminCommand::Compact
        | AdminCommand::Jump
        | AdminCommand::Renew(_)
        | AdminCommand::Trust
        | AdminCommand::HandOver(_)
        | AdminCommand::Die(_) => false,
    }
}

// Whether a command writes to the bot's folder.
fn needs_room(command: &AdminCommand) -> bool {
    match command {
        AdminCommand::Change(_)
        | AdminCommand::Compact
        | AdminCommand::Renew(_)
        | AdminCommand::Trust => true,
        AdminCommand::Show
        | AdminCommand::ShowJson
        | AdminCommand::Changes(_)
        | AdminCommand::Status
        | AdminCommand::StatusJson
        | AdminCommand::Reload
        | AdminCommand::Reopen
        | AdminCommand::Backup(_)
        | AdminCommand::Join(_)
        | AdminCommand::Part(_)
        | AdminCommand::Bind(_)
        | AdminCommand::Unbind(_)
        | AdminCommand::Unignore(_)
        | AdminCommand::Say(_)
        | AdminCommand::Jump
        | AdminCommand::HandOver(_)
        | AdminCommand::Die(_) => false,
    }
}
