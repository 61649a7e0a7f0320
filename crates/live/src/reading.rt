// A whole live script.
ghost use Rattle.live.specs.Grammar.{IsGoodCommand, IsGoodSaying};

use crate::MAX_LEAVES;
use crate::fault::{LiveFault, LiveScriptError};
use crate::live_command::{LiveCommand, LiveCommands};
use crate::reason::{LiveReason, reason_of};
use crate::saying::{LiveSaying, saying_of};
use bottimers::Zone;
use bytetext::{Failure, NoMemory};
use script::{MAX_SCRIPT, Reason, pieces_of};
use std::alloc::Global;
use std::marker::Model;

/// A live script: how many leaves the botnet has, in which zone, and which commands are done.
#[derive(Drop)]
pub struct LiveScript {
    leaves: u16,
    zone: Option<Zone>,
    commands: LiveCommands,
}

impl Model for LiveScript {
    ghost use Rattle.std.specs.Prelude.{◌≤◌};
    ghost use Rattle.live.specs.declared.TheConstants.{MAX_LEAVES};
    ghost use Rattle.live.specs.Scripts.{Script};

    ghost Value = { Script };

    ghost view = { λ s. record { leaves = s.leaves; zone = s.zone; commands = s.commands } };

    ghost use Rattle.std.specs.List.{AllByRecursion};
    ghost use Rattle.live.specs.Grammar.{IsGoodCommand};

    ghost invariant = { λ s. (s.leaves ≤ MAX_LEAVES) × AllByRecursion IsGoodCommand s.commands };
}

impl LiveScript {
    ghost use Rattle.std.specs.Prelude.{◌≡◌, ◌≤◌, None};
    ghost use Rattle.std.specs.List.{AllByRecursion};
    ghost use Rattle.live.specs.Grammar.{IsGoodCommand};
    ghost use Rattle.live.specs.declared.TheConstants.{MAX_LEAVES};

    /// Reads the script that `bytes` spell.
    ///
    /// # Errors
    /// - `Refused` with line 0 if there are more than 1,048,576 bytes; else with the first line that breaks a rule;
    ///   else with line 0 if there is no command. Each has its reason.
    /// - `NoMemory` if memory runs out before a broken rule is found.
    pub fn read(alloc: Global, bytes: &[u8]) -> Result<LiveScript, LiveScriptError> {
        if bytes.len() > MAX_SCRIPT {
            return Err(whole_fault(Reason::TooLong));
        }
        let lines = pieces_of(alloc, bytes, b'\n')?;
        script_of(alloc, lines.as_slice())
    }

    /// Returns the number of leaves, at most [`MAX_LEAVES`](crate::MAX_LEAVES).
    pub fn leaves(&self) -> u16
        ensures value { result ≡ self.now.leaves }
        ensures few { result ≤ MAX_LEAVES }
    {
        self.leaves
    }

    /// Takes out the zone of all bots' clocks, if the script gives one. Never allocates.
    pub fn take_zone(&mut self) -> Option<Zone>
        ensures value { result ≡ self.old.zone }
        ensures kept { self.new ≡ record self.old { zone = None } }
    {
        self.zone.take()
    }

    /// Returns the commands, in order. Never allocates.
    pub fn into_commands(self) -> LiveCommands
        ensures value { result ≡ self.commands }
        // None of them gives a bot a packet.
        ensures good { AllByRecursion IsGoodCommand result }
    {
        self.commands
    }
}

// A fault of the whole script.
fn whole_fault(reason: Reason) -> LiveScriptError {
    let reason = LiveReason::Script(reason);
    Failure::Refused(LiveFault { line: 0, reason })
}

// The script that these lines make.
fn script_of(alloc: Global, lines: &[&[u8]]) -> Result<LiveScript, LiveScriptError> {
    let mut script = None;
    for (place, line) in lines.iter().enumerate() {
        let saying = saying_of(alloc, line)?;
        let is_begun = script.is_some();
        if !go_on(alloc, &mut script, saying)? {
            return Err(fault_at(alloc, place as u64 + 1, is_begun, line));
        }
    }
    match script {
        Some(script) => Ok(script),
        None => Err(whole_fault(Reason::NoCommand)),
    }
}

// The fault of a line that breaks a rule.
fn fault_at(alloc: Global, line: u64, is_begun: bool, bytes: &[u8]) -> LiveScriptError {
    match reason_of(alloc, is_begun, bytes) {
        Ok(reason) => Failure::Refused(LiveFault { line, reason }),
        Err(NoMemory) => Failure::NoMemory,
    }
}

// Adds what the next line says. Returns false if that breaks a rule after the lines so far.
fn go_on(
    alloc: Global,
    script: &mut Option<LiveScript>,
    saying: LiveSaying,
) -> Result<bool, NoMemory>
    requires good { IsGoodSaying saying }
{
    match saying {
        LiveSaying::Nothing => Ok(true),
        LiveSaying::Leaves(leaves) => Ok(set_leaves(alloc, script, leaves)),
        LiveSaying::Zone(zone) => Ok(set_zone(script, zone)),
        LiveSaying::Told(command) => add_command(script, command),
        LiveSaying::Wrong => Ok(false),
    }
}

// Begins the script with the number of leaves. Returns false if it has been given before or is above 8.
fn set_leaves(alloc: Global, script: &mut Option<LiveScript>, leaves: u16) -> bool {
    if script.is_some() || leaves > MAX_LEAVES {
        return false;
    }
    let commands = LiveCommands::empty(alloc);
    *script = Some(LiveScript {
        leaves,
        zone: None,
        commands,
    });
    true
}

// Sets the zone. Returns false if it has been given before, before the number of leaves, or after a command.
fn set_zone(script: &mut Option<LiveScript>, zone: Zone) -> bool {
    match script {
        Some(begun) => {
            if begun.zone.is_some() || !begun.commands.is_empty() {
                return false;
            }
            begun.zone = Some(zone);
            true
        }
        None => false,
    }
}

// Adds a command. Returns false before the number of leaves.
fn add_command(script: &mut Option<LiveScript>, command: LiveCommand) -> Result<bool, NoMemory>
    requires good { IsGoodCommand command }
{
    match script {
        Some(begun) => {
            begun.commands.push(command)?;
            Ok(true)
        }
        None => Ok(false),
    }
}
