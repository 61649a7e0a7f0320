// Lines for the server.
ghost use Rattle.std.specs.Prelude.{◌≡◌, ◌++◌, IfOk};
ghost use Rattle.eggprocs.specs.Lines as lines;

use bytetext::{NoMemory, Text};
use std::alloc::Global;

// PRIVMSG TARGET :TEXT
pub(crate) fn privmsg(alloc: Global, target: &[u8], text: &[u8]) -> Result<Text, NoMemory>
    ensures { IfOk result (λ line. line ≡ lines.privmsg target.now text.now) }
{
    of_two(alloc, b"PRIVMSG ", target, b" :", text)
}

// NOTICE TARGET :TEXT
pub(crate) fn notice(alloc: Global, target: &[u8], text: &[u8]) -> Result<Text, NoMemory>
    ensures { IfOk result (λ line. line ≡ lines.notice target.now text.now) }
{
    of_two(alloc, b"NOTICE ", target, b" :", text)
}

// TOPIC CHANNEL :TEXT
pub(crate) fn topic(alloc: Global, channel: &[u8], text: &[u8]) -> Result<Text, NoMemory>
    ensures { IfOk result (λ line. line ≡ lines.topic channel.now text.now) }
{
    of_two(alloc, b"TOPIC ", channel, b" :", text)
}

// INVITE NICK CHANNEL
pub(crate) fn invite(alloc: Global, nick: &[u8], channel: &[u8]) -> Result<Text, NoMemory>
    ensures { IfOk result (λ line. line ≡ lines.invite nick.now channel.now) }
{
    of_two(alloc, b"INVITE ", nick, b" ", channel)
}

// MODE CHANNEL CHANGE TARGET
pub(crate) fn mode(
    alloc: Global,
    channel: &[u8],
    change: &[u8],
    target: &[u8],
) -> Result<Text, NoMemory>
    ensures { IfOk result (λ line. line ≡ lines.mode channel.now change.now target.now) }
{
    let mut line = Vec::new(alloc);
    line.extend_from_slice(b"MODE ")?;
    line.extend_from_slice(channel)?;
    line.extend_from_slice(b" ")?;
    line.extend_from_slice(change)?;
    line.extend_from_slice(b" ")?;
    line.extend_from_slice(target)?;
    Ok(Text::new(line))
}

// MODE CHANNEL CHANGE
pub(crate) fn plain_mode(alloc: Global, channel: &[u8], change: &[u8]) -> Result<Text, NoMemory>
    ensures { IfOk result (λ line. line ≡ lines.plain_mode channel.now change.now) }
{
    of_two(alloc, b"MODE ", channel, b" ", change)
}

// KICK CHANNEL NICK :REASON
pub(crate) fn kick(
    alloc: Global,
    channel: &[u8],
    nick: &[u8],
    reason: &[u8],
) -> Result<Text, NoMemory>
    ensures { IfOk result (λ line. line ≡ lines.kick channel.now nick.now reason.now) }
{
    let mut line = Vec::new(alloc);
    line.extend_from_slice(b"KICK ")?;
    line.extend_from_slice(channel)?;
    line.extend_from_slice(b" ")?;
    line.extend_from_slice(nick)?;
    line.extend_from_slice(b" :")?;
    line.extend_from_slice(reason)?;
    Ok(Text::new(line))
}

// PART CHANNEL
pub(crate) fn part(alloc: Global, channel: &[u8]) -> Result<Text, NoMemory>
    ensures { IfOk result (λ line. line ≡ lines.part channel.now) }
{
    of_one(alloc, b"PART ", channel)
}

// JOIN CHANNEL
pub(crate) fn join(alloc: Global, channel: &[u8]) -> Result<Text, NoMemory>
    ensures { IfOk result (λ line. line ≡ lines.join channel.now) }
{
    of_one(alloc, b"JOIN ", channel)
}

// WHO CHANNEL
pub(crate) fn who(alloc: Global, channel: &[u8]) -> Result<Text, NoMemory>
    ensures { IfOk result (λ line. line ≡ lines.who channel.now) }
{
    of_one(alloc, b"WHO ", channel)
}

// A command and a text.
fn of_one(alloc: Global, command: &[u8], text: &[u8]) -> Result<Text, NoMemory>
    ensures { IfOk result (λ line. line ≡ command.now ++ text.now) }
{
    let mut line = Vec::from_slice(alloc, command)?;
    line.extend_from_slice(text)?;
    Ok(Text::new(line))
}

// A command and two texts, with something between them.
fn of_two(
    alloc: Global,
    command: &[u8],
    first: &[u8],
    between: &[u8],
    second: &[u8],
) -> Result<Text, NoMemory>
    ensures { IfOk result (λ line. line ≡ command.now ++ first.now ++ between.now ++ second.now) }
{
    let mut line = Vec::new(alloc);
    line.extend_from_slice(command)?;
    line.extend_from_slice(first)?;
    line.extend_from_slice(between)?;
    line.extend_from_slice(second)?;
    Ok(Text::new(line))
}
