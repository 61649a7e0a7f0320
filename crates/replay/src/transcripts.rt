// From a script's bytes to its transcript.
ghost use Rattle.std.specs.Prelude.{◌≡◌, ◌<◌, ◌≤◌, [], ◌∷◌, ◌++◌, ℕ, Err, length, map, IfOk, OnOk};
ghost use Rattle.script.specs.Reading.{HasFault};
ghost use Rattle.script.specs.Reasons.{TellsWhy};
ghost use Rattle.script.specs.declared.reason.Reason.TheVariants as why;
ghost use Rattle.script.specs.declared.TheConstants.{MAX_SCRIPT};
ghost use Rattle.sharelink.specs.declared.TheConstants.{MAX_LEAVES};
ghost use Rattle.botworld.specs.Standing.{Past, Stands};
ghost use Rattle.replay.specs.Deeds.{Shows, Makes, command_deeds, deeds_of};
ghost use Rattle.replay.specs.Doing.{Does, IsDoneByNew};
ghost use Rattle.replay.specs.Starting.{zone_or_utc};
ghost use Rattle.replay.specs.Transcript.{IsTranscript, IsRefusedRightly, TellsFault};

use crate::outcomes::put_outcome;
use crate::shows::put_shown;
use crate::starting::{new_world, zone_or_utc};
use botworld::{Step, World};
use bytetext::{Failure, NoMemory};
use disks::Disk;
use procs::{ProcStore, Promise, Run};
use script::{Command, Script, ScriptError};
use std::alloc::Global;
use std::slice;

/// Returns the whole transcript of the script that the bytes `script` spell. The script's binds call the procs of
/// `store`.
///
/// # Errors
/// `Refused` with the first line that breaks a rule; `NoMemory` if memory cannot be allocated. Neither returns a part
/// of the transcript. A script that is too long is refused without an allocation.
pub fn transcript<P: Promise, B: Run>(
    alloc: Global,
    store: ProcStore<P, B>,
    script: &[u8],
) -> Result<Vec<u8>, ScriptError>
    ensures whole { IfOk result (λ text. IsTranscript P.promised store script.now text.items) }
    ensures refused { IsRefusedRightly script.now result }
    // The result for a script with a fault is its first faulty line, unless memory runs out before that is found.
    ensures faulty { (line : ℕ) → HasFault script.now line → TellsFault line result }
    ensures reasons { TellsWhy script.now result }
    ensures too_long { MAX_SCRIPT < length script.now → result ≡ Err (Failure.Refused (record { line = 0; reason = why.TooLong })) }
{
    match Script::read(alloc, script) {
        Ok(script) => Ok(text_of(alloc, store, script)?),
        Err(error) => Err(error),
    }
}

// The transcript of a script.
fn text_of<P: Promise, B: Run>(
    alloc: Global,
    store: ProcStore<P, B>,
    script: Script,
) -> Result<Vec<u8>, NoMemory>
    requires { script.leaves ≤ MAX_LEAVES }
    ensures { IfOk result (λ text. IsDoneByNew P.promised script.leaves (zone_or_utc script.zone) store
        (deeds_of script.commands) text.items) }
{
    let Script {
        leaves,
        zone,
        commands,
    } = script;
    let mut world = new_world(alloc, store, leaves, &zone_or_utc(zone))?;
    let mut text = Vec::new(alloc);
    put_commands(alloc, &mut text, &mut world, commands.as_slice())?;
    Ok(text)
}

// Does commands in order, and appends what each prints.
fn put_commands<P: Promise, D: Disk, B: Run>(
    alloc: Global,
    text: &mut Vec<u8>,
    world: &mut World<P, D, B>,
    commands: &[Command],
) -> Result<(), NoMemory>
    ensures { OnOk result ((past : Past) → Stands P.promised world.old past
        → Does P.promised past (deeds_of commands.now) world.new text.old.items text.new.items) }
{
    for command in commands {
        put_command(alloc, text, world, command)?;
    }
    Ok(())
}

// Does a command, and appends what it prints.
fn put_command<P: Promise, D: Disk, B: Run>(
    alloc: Global,
    text: &mut Vec<u8>,
    world: &mut World<P, D, B>,
    command: &Command,
) -> Result<(), NoMemory>
    ensures { OnOk result ((past : Past) → Stands P.promised world.old past
        → Does P.promised past (command_deeds command.now) world.new text.old.items text.new.items) }
{
    match command {
        Command::Steps(steps) => put_steps(alloc, text, world, steps.as_slice()),
        Command::Show(bot) => put_show(alloc, text, world, *bot),
    }
}

// Appends a bot's version and records.
fn put_show<P: Promise, D: Disk, B: Run>(
    alloc: Global,
    text: &mut Vec<u8>,
    world: &World<P, D, B>,
    bot: u16,
) -> Result<(), NoMemory>
    ensures { OnOk result ((past : Past) → Stands P.promised world.now past
        → Does P.promised past (Shows bot ∷ []) world.now text.old.items text.new.items) }
{
    put_shown(alloc, text, world, bot)
}

// Makes steps in order, and appends what comes of each.
fn put_steps<P: Promise, D: Disk, B: Run>(
    alloc: Global,
    text: &mut Vec<u8>,
    world: &mut World<P, D, B>,
    steps: &[Step],
) -> Result<(), NoMemory>
    ensures { OnOk result ((past : Past) → Stands P.promised world.old past
        → Does P.promised past (map Makes steps.now) world.new text.old.items text.new.items) }
{
    for step in steps {
        put_step(alloc, text, world, step)?;
    }
    Ok(())
}

// Makes a step, and appends what comes of it.
fn put_step<P: Promise, D: Disk, B: Run>(
    alloc: Global,
    text: &mut Vec<u8>,
    world: &mut World<P, D, B>,
    step: &Step,
) -> Result<(), NoMemory>
    ensures { OnOk result ((past : Past) → Stands P.promised world.old past
        → Does P.promised past (Makes step.now ∷ []) world.new text.old.items text.new.items) }
{
    let transcript = world.run(alloc, slice::from_ref(step));
    if transcript.cut {
        return Err(NoMemory);
    }
    put_outcome(text, world, &transcript.outcomes.as_slice()[0])
}
