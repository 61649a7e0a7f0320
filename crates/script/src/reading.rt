// A whole script.
ghost use Rattle.std.specs.Prelude.{◌≡◌, IfOk, map, unwrap_or};
ghost use Rattle.script.specs.LineReasons.{line_reason};
ghost use Rattle.script.specs.Outcomes.{GoesOn, LinesReadAs, so_far};
ghost use Rattle.script.specs.Reasons.{LinesTellWhy, TellsReason, order_reason};
ghost use Rattle.script.specs.declared.saying.Saying.TheVariants.{Leaves, Told};

use crate::MAX_SCRIPT;
use crate::command::{Command, Commands};
use crate::error::{ScriptError, ScriptFault};
use crate::reason::Reason;
use crate::saying::{Saying, saying_of};
use crate::wrong_line::line_reason;
use bottimers::Zone;
use bytetext::{Failure, NoMemory, TryCopy};
use recordtext::pieces_of;
use sharelink::MAX_LEAVES;
use std::alloc::Global;

/// A script: how many leaves the botnet has, in which zone, and which commands are done.
#[derive(Drop)]
pub struct Script {
    /// The number of leaves, at most 1,000.
    pub leaves: u16,
    /// The zone of all bots' clocks. If the script doesn't give one, they show UTC.
    pub zone: Option<Zone>,
    /// The commands, in order.
    pub commands: Commands,
}

impl Script {
    ghost use Rattle.std.specs.Prelude.{◌≡◌, ◌<◌, ◌≤◌, length, IfOk};
    ghost use Rattle.script.specs.declared.reason.Reason.TheVariants as why;
    ghost use Rattle.script.specs.Outcomes.{ReadsAs};
    ghost use Rattle.script.specs.Reasons.{TellsWhy};

    /// Reads the script that `bytes` spell.
    ///
    /// # Errors
    /// - `Refused` with line 0 if there are more than 1,048,576 bytes; else with the first line that breaks a rule;
    ///   else with line 0 if there is no command. Each has its reason.
    /// - `NoMemory` if memory runs out before a broken rule is found; never if the script is too long.
    pub fn read(alloc: Global, bytes: &[u8]) -> Result<Script, ScriptError>
        ensures reads { ReadsAs bytes.now result }
        ensures reasons { TellsWhy bytes.now result }
        ensures few { IfOk result (λ script. script.leaves ≤ MAX_LEAVES) }
        ensures too_long { MAX_SCRIPT < length bytes.now → result ≡ Err (Failure.Refused (record { line = 0; reason = why.TooLong })) }
    {
        if bytes.len() > MAX_SCRIPT {
            return Err(Failure::Refused(ScriptFault {
                line: 0,
                reason: Reason::TooLong,
            }));
        }
        let lines = pieces_of(alloc, bytes, b'\n')?;
        script_of(alloc, lines.as_slice())
    }
}

impl TryCopy for Script {
    fn copy(&self, alloc: Global) -> Result<Script, NoMemory> {
        Ok(Script {
            leaves: self.leaves,
            zone: match &self.zone {
                Some(zone) => Some(zone.copy(alloc)?),
                None => None,
            },
            commands: self.commands.copy(alloc)?,
        })
    }
}

// The script that these lines make.
fn script_of(alloc: Global, lines: &[&[u8]]) -> Result<Script, ScriptError>
    ensures reads { LinesReadAs (map (λ line. line.now) lines.now) result }
    ensures reasons { LinesTellWhy (map (λ line. line.now) lines.now) result }
{
    let mut script = None;
    for (place, line) in lines.iter().enumerate() {
        let saying = saying_of(alloc, line)?;
        let order = order_reason(&script, &saying);
        if !go_on(alloc, &mut script, saying)? {
            return Err(fault_at(alloc, place as u64 + 1, line, order));
        }
    }
    match script {
        Some(script) => Ok(script),
        None => Err(Failure::Refused(ScriptFault {
            line: 0,
            reason: Reason::NoCommand,
        })),
    }
}

// The fault of a line that breaks a rule: its own reason, or else `order`.
fn fault_at(alloc: Global, line: u64, bytes: &[u8], order: Reason) -> ScriptError
    ensures { TellsReason line (unwrap_or (line_reason bytes.now) order) result }
{
    match line_reason(alloc, bytes) {
        Ok(found) => {
            let reason = found.unwrap_or(order);
            Failure::Refused(ScriptFault { line, reason })
        }
        Err(NoMemory) => Failure::NoMemory,
    }
}

// How a line that is right by itself breaks a rule after the lines so far, if it breaks one.
fn order_reason(script: &Option<Script>, saying: &Saying) -> Reason
    ensures { result ≡ order_reason (so_far script.now) saying.now }
{
    if script.is_none() {
        return Reason::LeavesFirst;
    }
    match saying {
        Saying::Leaves(_) => Reason::LeavesAgain,
        Saying::Nothing | Saying::Zone(_) | Saying::Told(_) | Saying::Wrong => Reason::ZoneLate,
    }
}

// Adds what the next line says. Returns false if that breaks a rule after the lines so far.
fn go_on(alloc: Global, script: &mut Option<Script>, saying: Saying) -> Result<bool, NoMemory>
    ensures { IfOk result (λ good. GoesOn script.old saying good script.new) }
{
    match saying {
        Saying::Nothing => Ok(true),
        Saying::Leaves(leaves) => Ok(set_leaves(alloc, script, leaves)),
        Saying::Zone(zone) => Ok(set_zone(script, zone)),
        Saying::Told(command) => add_command(script, command),
        Saying::Wrong => Ok(false),
    }
}

// Begins the script with the number of leaves. Returns false if it has been given before.
fn set_leaves(alloc: Global, script: &mut Option<Script>, leaves: u16) -> bool
    ensures { GoesOn script.old (Leaves leaves) result script.new }
{
    if script.is_some() {
        return false;
    }
    let commands = Commands::empty(alloc);
    *script = Some(Script {
        leaves,
        zone: None,
        commands,
    });
    true
}

// Sets the zone. Returns false if it has been given before, before the number of leaves, or after a command.
fn set_zone(script: &mut Option<Script>, zone: Zone) -> bool
    ensures { GoesOn script.old (Saying.Zone zone) result script.new }
{
    match script {
        Some(begun) => {
            if begun.zone.is_some() || !begun.commands.is_empty() {
                return false;
            }
            begun.zone = Some(zone);
            true
        }
        None => false,
    }
}

// Adds a command. Returns false before the number of leaves. If memory runs out, the script is dropped: nothing more is
// read.
fn add_command(script: &mut Option<Script>, command: Command) -> Result<bool, NoMemory>
    ensures { IfOk result (λ good. GoesOn script.old (Told command) good script.new) }
{
    let Some(mut begun) = script.take() else {
        return Ok(false);
    };
    begun.commands.push(command)?;
    *script = Some(begun);
    Ok(true)
}
