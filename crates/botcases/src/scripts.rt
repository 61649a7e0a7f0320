// Scripts of a botnet.
use crate::case_procs::store_of;
use botcore::{BotEvent, NewBind, OldBind};
use botworld::Step;
use bytetext::{NoMemory, Text, TryCopy};
use caselines::{CaseError, Sink, line_shown, put_change};
use replay::transcript;
use script::{Command, Script, ScriptError};
use std::alloc::Global;

/// Answers `script LINE..`: the transcript of the script of these `words`, with ` ; ` between its lines, or the first
/// faulty line.
pub fn script(alloc: Global, words: &[Text], out: &mut Sink) -> Result<(), CaseError> {
    let script = script_of(alloc, words)?;
    match transcript(alloc, store_of(alloc)?, &script) {
        Ok(text) => put_lines(&text, out),
        Err(ScriptError::Refused(fault)) => put_fault(fault.line, out),
        Err(ScriptError::NoMemory) => return Err(CaseError::NoMemory),
    }
    Ok(())
}

/// Answers `commands LINE..`: how many leaves the script of these `words` has, and its commands, or the first faulty
/// line.
pub fn commands(alloc: Global, words: &[Text], out: &mut Sink) -> Result<(), CaseError> {
    let script = script_of(alloc, words)?;
    match Script::read(alloc, &script) {
        Ok(script) => put_script(alloc, &script.copy(alloc)?, out),
        Err(ScriptError::Refused(fault)) => put_fault(fault.line, out),
        Err(ScriptError::NoMemory) => return Err(CaseError::NoMemory),
    }
    Ok(())
}

/// Answers `why LINE..`: what is wrong with the first faulty line of the script of these `words`, or `none`.
pub fn why(alloc: Global, words: &[Text], out: &mut Sink) -> Result<(), CaseError> {
    let script = script_of(alloc, words)?;
    match Script::read(alloc, &script) {
        Ok(_) => out.put(b"none"),
        Err(ScriptError::Refused(fault)) => out.put(fault.reason.sentence().as_bytes()),
        Err(ScriptError::NoMemory) => return Err(CaseError::NoMemory),
    }
    Ok(())
}

/// Joins `lines`, with a line feed between.
pub fn script_of(alloc: Global, lines: &[Text]) -> Result<Vec<u8>, NoMemory> {
    let mut script = Vec::new(alloc);
    for (i, line) in lines.iter().enumerate() {
        if i > 0 {
            script.push(b'\n')?;
        }
        script.extend_from_slice(line.as_bytes())?;
    }
    Ok(script)
}

/// Writes the lines of the transcript `text`, each of which ends with a line feed, or `none` if it has no line.
pub fn put_lines(text: &[u8], out: &mut Sink) {
    let [lines @ .., _] = text else {
        out.put(b"none");
        return;
    };
    for (i, line) in lines.split(|byte| *byte == b'\n').enumerate() {
        out.between(b" ; ", i);
        out.put(line);
    }
}

/// Writes the faulty line as `line N`, where N is `line`.
pub fn put_fault(line: u64, out: &mut Sink) {
    out.put(b"line ");
    out.number(line);
}

fn put_script(alloc: Global, script: &Script, out: &mut Sink) {
    out.put(b"leaves ");
    out.number(u64::from(script.leaves));
    out.put_if(script.zone.is_some(), b" in a zone");
    for command in script.commands.as_slice() {
        out.put(b" ; ");
        put_command(alloc, command, out);
    }
}

fn put_command(alloc: Global, command: &Command, out: &mut Sink) {
    match command {
        Command::Steps(steps) => put_steps(alloc, steps.as_slice(), out),
        Command::Show(bot) => {
            out.put(b"show ");
            out.number(u64::from(*bot));
        }
    }
}

fn put_steps(alloc: Global, steps: &[Step], out: &mut Sink) {
    for (i, step) in steps.iter().enumerate() {
        out.between(b", ", i);
        put_step(alloc, step, out);
    }
    out.put_if(steps.is_empty(), b"none");
}

fn put_step(alloc: Global, step: &Step, out: &mut Sink) {
    match step {
        Step::At { bot, event } => {
            out.number(u64::from(*bot));
            out.put(b" ");
            put_event(alloc, event, out);
        }
        Step::Deliver { packet } => {
            out.put(b"deliver ");
            out.number(*packet);
        }
    }
}

fn put_event(alloc: Global, event: &BotEvent, out: &mut Sink) {
    match event {
        BotEvent::Ask(change) => {
            out.put(b"ask ");
            put_change(alloc, change, out);
        }
        BotEvent::Connect => out.put(b"connect"),
        BotEvent::Pump => out.put(b"pump"),
        BotEvent::Compact => out.put(b"compact"),
        BotEvent::Restart => out.put(b"restart"),
        BotEvent::Receive(_) => out.put(b"receive"),
        BotEvent::Line(line) => {
            out.put(b"line ");
            line_shown(line, out);
        }
        BotEvent::Clock(moment) => {
            out.put(b"clock ");
            out.number(*moment);
        }
        BotEvent::Bind(bind) => put_bind(bind, out),
        BotEvent::Unbind(bind) => put_unbind(bind, out),
    }
}

fn put_bind(bind: &NewBind, out: &mut Sink) {
    out.put(b"bind ");
    out.put(bind.kind.word());
    out.quoted(bind.flags.as_bytes());
    out.quoted(bind.proc.as_bytes());
    out.quoted(bind.mask.as_bytes());
}

fn put_unbind(bind: &OldBind, out: &mut Sink) {
    out.put(b"unbind ");
    out.put(bind.kind.word());
    out.quoted(bind.proc.as_bytes());
    out.quoted(bind.mask.as_bytes());
}
