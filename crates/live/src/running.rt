// Runs a live script and writes what it prints.
ghost use Rattle.std.specs.Prelude.{◌≡◌, ◌++◌, IfOk, OnOk, ◌≤◌};
ghost use Rattle.std.specs.List.{AllByRecursion};
ghost use Rattle.live.specs.declared.TheConstants.{MAX_LEAVES as most_leaves};
ghost use Rattle.live.specs.Grammar.{IsGoodCommand};
ghost use Rattle.live.specs.Heard.{heard_line, heard_text};

use crate::MAX_TURNS;
use crate::error::LiveError;
use crate::live_command::{LiveCommand, LiveCommands, Speech};
use crate::network::Network;
use crate::reading::LiveScript;
use crate::turn::{make_turns, tell};
use bottimers::Zone;
use bytetext::{NoMemory, Text};
use procs::{ProcStore, Promise, Run};
use recordtext::put_records;
use replay::{new_bots, script_bytes, write_text, zone_or_utc};
use std::alloc::Global;
use std::net::Net;
use streams::Stream;

/// Reads a whole live script from `stream` and does its commands with a botnet over sockets. Its binds call the procs
/// of `store`. What a `show` or `heard` prints is written to `stream` when that command is done.
///
/// It reads the stream to its end, or to the first byte above 1,048,576.
///
/// # Errors
/// Before it opens a socket:
///
/// - `Read` if the stream fails or would block.
/// - `Script` with the first line that breaks a rule, if the script was read.
///
/// Then the first that occurs:
///
/// - `Socket` if the system opens no socket or can't wait for one.
/// - `Stalled` if a bot is below its version after the turns of an `until`.
/// - `Write` if the stream fails while it writes, or takes no bytes.
///
/// `NoMemory`, at any time, if memory cannot be allocated.
pub fn live<R: Net + AllocGlobal, P: Promise, B: Run, S: Stream>(
    rt: &R,
    store: ProcStore<P, B>,
    stream: &mut S,
) -> Result<(), LiveError> {
    let script = read_script(rt.alloc(), stream)?;
    play(rt, &store, script, stream)
}

// Reads the script from a stream.
fn read_script<S: Stream>(alloc: Global, stream: &mut S) -> Result<LiveScript, LiveError> {
    let bytes = script_bytes(alloc, stream)?;
    Ok(LiveScript::read(alloc, bytes.as_slice())?)
}

// Does a script with a botnet of its own.
fn play<R: Net + AllocGlobal, P: Promise, B: Run, S: Stream>(
    rt: &R,
    store: &ProcStore<P, B>,
    script: LiveScript,
    stream: &mut S,
) -> Result<(), LiveError> {
    match Network::open(rt, script.leaves()) {
        Ok(mut net) => begin(rt, &mut net, store, script, stream),
        Err(fault) => Err(LiveError::from(fault)),
    }
}

// Does a script with a botnet that has no bot yet.
fn begin<R: Net + AllocGlobal, P: Promise, B: Run, S: Stream>(
    rt: &R,
    net: &mut Network,
    store: &ProcStore<P, B>,
    mut script: LiveScript,
    stream: &mut S,
) -> Result<(), LiveError> {
    let zone = zone_or_utc(script.take_zone());
    fill(rt, net, store, script.leaves(), &zone)?;
    do_all(rt, net, store, script.into_commands(), stream)
}

// Gives a botnet its bots.
fn fill<R: Net + AllocGlobal, P: Promise, B: Run>(
    rt: &R,
    net: &mut Network,
    store: &ProcStore<P, B>,
    leaves: u16,
    zone: &Zone,
) -> Result<(), LiveError>
    requires { leaves ≤ most_leaves }
{
    net.bots = new_bots(rt.alloc(), leaves, zone)?;
    net.connect_all(rt)
}

// Does commands, and writes what each prints.
fn do_all<R: Net + AllocGlobal, P: Promise, B: Run, S: Stream>(
    rt: &R,
    net: &mut Network,
    store: &ProcStore<P, B>,
    commands: LiveCommands,
    stream: &mut S,
) -> Result<(), LiveError>
    requires good { AllByRecursion IsGoodCommand commands }
{
    for command in commands.into_vec() {
        let text = done(rt, net, store, command)?;
        write_text(stream, text.as_slice())?;
    }
    Ok(())
}

// Does a command. Returns what it prints.
fn done<R: Net + AllocGlobal, P: Promise, B: Run>(
    rt: &R,
    net: &mut Network,
    store: &ProcStore<P, B>,
    command: LiveCommand,
) -> Result<Vec<u8>, LiveError>
    requires good { IsGoodCommand command }
{
    let alloc = rt.alloc();
    match command {
        LiveCommand::Tell { bot, event } => tell(alloc, net, store, bot as usize, event)?,
        LiveCommand::Connect(bot) => net.connect(rt, bot as usize)?,
        LiveCommand::Show(bot) => return Ok(shown(alloc, net, bot)?),
        LiveCommand::Until(version) => run_until(rt, net, store, version)?,
        LiveCommand::Turns(count) => make_turns(rt, net, store, count, None)?,
        LiveCommand::Guest { nick, channel } => net.house.invite(alloc, &nick, &channel)?,
        LiveCommand::Say(speech) => say(alloc, net, &speech)?,
        LiveCommand::Heard(nick) => return Ok(heard(alloc, net, &nick)?),
        LiveCommand::Clock(now) => net.now = now,
    }
    Ok(Vec::new(alloc))
}

// Makes turns until each bot is at a version.
fn run_until<R: Net + AllocGlobal, P: Promise, B: Run>(
    rt: &R,
    net: &mut Network,
    store: &ProcStore<P, B>,
    version: u32,
) -> Result<(), LiveError> {
    make_turns(rt, net, store, MAX_TURNS, Some(version))?;
    if net.has_reached(version) {
        Ok(())
    } else {
        Err(LiveError::Stalled)
    }
}

fn say(alloc: Global, net: &mut Network, speech: &Speech) -> Result<(), NoMemory> {
    let Speech { nick, target, text } = speech;
    net.house.speak(alloc, nick, target, text)
}

// The version and the records of a bot.
fn shown(alloc: Global, net: &Network, bot: u16) -> Result<Vec<u8>, NoMemory> {
    let mut text = Vec::new(alloc);
    match net.bots.get(bot as usize) {
        Some(shown) => {
            let version = Some(shown.version());
            put_records(alloc, &mut text, bot, version, Some(shown.userfile()))?;
        }
        None => put_records(alloc, &mut text, bot, None, None)?,
    }
    Ok(text)
}

// The lines that a guest received, each after its nick.
fn heard(alloc: Global, net: &mut Network, nick: &Text) -> Result<Vec<u8>, NoMemory> {
    let lines = net.house.take_heard(alloc, nick);
    heard_text(alloc, nick.as_bytes(), lines.as_slice())
}

// Lines, each after a nick.
fn heard_text(alloc: Global, nick: &[u8], lines: &[Text]) -> Result<Vec<u8>, NoMemory>
    ensures { IfOk result (λ text. text.items ≡ heard_text nick.now lines.now) }
{
    let mut text = Vec::new(alloc);
    for line in lines {
        put_heard(&mut text, nick, line.as_bytes())?;
    }
    Ok(text)
}

// NICK LINE
#[tactic(auto, using(std::proofs::Common::append_assoc))]
fn put_heard(out: &mut Vec<u8>, nick: &[u8], line: &[u8]) -> Result<(), NoMemory>
    ensures { OnOk result (out.new.items ≡ out.old.items ++ heard_line nick.now line.now) }
{
    out.extend_from_slice(nick)?;
    out.push(b' ')?;
    out.extend_from_slice(line)?;
    out.push(b'\n')?;
    Ok(())
}
