// What one line of a live script says.
ghost use Rattle.std.specs.Prelude.{◌≡◌, IfOk};
ghost use Rattle.live.specs.Grammar.{IsGoodSaying, last_step, saying_of, shared_command, shared_event, shared_saying, shared_step};

use crate::live_command::LiveCommand;
use crate::own_words::own_command;
use botcore::BotEvent;
use bottimers::Zone;
use botworld::Step;
use bytetext::NoMemory;
use script::{Command as ReplayCommand, Saying as ReplaySaying, Steps, pieces_of};
use std::alloc::Global;

/// What a line says by itself, whatever lines come before it.
#[derive(Drop)]
pub enum LiveSaying {
    /// Nothing: the line is empty or begins with `#`.
    Nothing,
    /// The number of leaves, at most 1,000.
    Leaves(u16),
    /// The zone of all bots.
    Zone(Zone),
    /// A command.
    Told(LiveCommand),
    /// The line breaks a rule.
    Wrong,
}

/// Returns what `line` says.
///
/// # Errors
/// `NoMemory` if memory cannot be allocated.
pub fn saying_of(alloc: Global, line: &[u8]) -> Result<LiveSaying, NoMemory>
    ensures says { IfOk result (λ saying. saying ≡ saying_of line.now) }
    ensures good { IfOk result IsGoodSaying }
{
    let words = pieces_of(alloc, line, b' ')?;
    if let Some(command) = own_command(alloc, words.as_slice())? {
        return Ok(LiveSaying::Told(command));
    }
    Ok(shared_saying(script::saying_of(alloc, line)?))
}

// What a line says that may also stand in a replay's script.
fn shared_saying(saying: ReplaySaying) -> LiveSaying
    ensures { result ≡ shared_saying saying }
{
    match saying {
        ReplaySaying::Nothing => LiveSaying::Nothing,
        ReplaySaying::Leaves(leaves) => LiveSaying::Leaves(leaves),
        ReplaySaying::Zone(zone) => LiveSaying::Zone(zone),
        ReplaySaying::Told(command) => shared_command(command),
        ReplaySaying::Wrong => LiveSaying::Wrong,
    }
}

fn shared_command(command: ReplayCommand) -> LiveSaying
    ensures { result ≡ shared_command command }
{
    match command {
        ReplayCommand::Show(bot) => LiveSaying::Told(LiveCommand::Show(bot)),
        ReplayCommand::Steps(steps) => shared_step(steps),
    }
}

// The command of these steps. In a live script, lines and deliveries are up to the network, so their steps are no
// command.
fn shared_step(steps: Steps) -> LiveSaying
    ensures { result ≡ shared_step (last_step steps) }
{
    match last_of(steps) {
        Some(Step::At { bot, event }) => shared_event(bot, event),
        Some(Step::Deliver { .. }) | None => LiveSaying::Wrong,
    }
}

// The last of these steps. Never allocates.
fn last_of(steps: Steps) -> Option<Step>
    ensures { result ≡ last_step steps }
{
    steps.into_vec().pop()
}

fn shared_event(bot: u16, event: BotEvent) -> LiveSaying
    ensures { result ≡ shared_event bot event }
{
    match event {
        BotEvent::Connect => LiveSaying::Told(LiveCommand::Connect(bot)),
        BotEvent::Ask(_)
        | BotEvent::Pump
        | BotEvent::Bind(_)
        | BotEvent::Unbind(_)
        | BotEvent::Compact
        | BotEvent::Restart => LiveSaying::Told(LiveCommand::Tell { bot, event }),
        BotEvent::Line(_) | BotEvent::Receive(_) | BotEvent::Clock(_) => LiveSaying::Wrong,
    }
}
