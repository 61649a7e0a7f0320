// Whether a configuration makes a bot, and what a bot's steps call.
ghost use Rattle.std.specs.Prelude.{IfOk};
ghost use Rattle.botcore.specs.Steps.{IsGoodEvent};

use crate::case_procs::{Built, Ours, Runs, counted_store, no_runs};
use botcore::{Bot, BotError, BotEvent, Config, End, NewBind, Note, Report, StepFault};
use bottimers::Zone;
use bytetext::{NoMemory, Text, Texts, TryCopy, copies_of};
use caselines::{BAD_WORDS, CaseError, Sink, cut, number, zone_of};
use disks::MemDisk;
use ircline::read_line;
use procs::{BindKind, CallKind, Code, MadeCall, ProcStore};
use std::alloc::Global;

/// Answers `config NICK LEAVES NUMBER ZONE CHANNEL..`: `ok`, or the code of why no bot can be made so. `words` are
/// those after `config`.
pub fn config(alloc: Global, words: &[Text], out: &mut Sink) -> Result<(), CaseError> {
    let [nick, leaves, own, zone, channels @ ..] = words else {
        return Err(BAD_WORDS);
    };
    let config = match zone_of(zone.as_bytes()) {
        Ok(zone) => config_of(alloc, nick, leaves, own, zone, channels)?,
        Err(fault) => {
            out.put(fault.code().as_bytes());
            return Ok(());
        }
    };
    match new_bot(alloc, config).err() {
        None => out.put(b"ok"),
        Some(BotError::Refused(fault)) => out.put(fault.code().as_bytes()),
        Some(BotError::NoMemory) => return Err(CaseError::NoMemory),
    }
    Ok(())
}

// Creates a bot of `config`, over two disks in memory.
fn new_bot(alloc: Global, config: Config) -> Result<Bot<MemDisk>, BotError> {
    match Bot::create(alloc, config, MemDisk::new(alloc), MemDisk::new(alloc)) {
        Ok(bot) => Ok(bot),
        Err(returned) => Err(returned.error),
    }
}

fn config_of(
    alloc: Global,
    nick: &Text,
    leaves: &Text,
    own: &Text,
    zone: Zone,
    channels: &[Text],
) -> Result<Config, CaseError> {
    Ok(Config {
        number: number(own.as_bytes())?,
        leaves: number(leaves.as_bytes())?,
        nick: nick.copy(alloc)?,
        channels: Texts::new(copies_of(alloc, channels)?),
        exclusive: false,
        sends_at_once: false,
        leaves_bans: false,
        zone,
    })
}

/// Answers `bot NUMBER SETTING STEP..`: what each step of a bot named `egg` answers, with ` ; ` between. `words` are
/// those after `bot`.
///
/// The bot is the hub if NUMBER is 0, and its leaf if it is 1. SETTING is `all`, `exclusive`, or
/// `at-once` for a bot that sends at once, and may end with `=NICK` for a bot of another name. A step is one word:
/// - `bind KIND FLAGS PROC MASK` answers the bind's number;
/// - `connect`, `line TEXT` and `clock MOMENT` answer each call as `BIND PROC KIND 'ARGUMENT'.. CODE`, then each line
///   that is sent as `out 'LINE'`, then each fault, and then `logged` or `not logged`;
/// - `runs` answers how often the procs have run.
///
/// A step that is refused answers the refusal's code.
pub fn bot(alloc: Global, words: &[Text], out: &mut Sink) -> Result<(), CaseError> {
    let [own, setting, steps @ ..] = words else {
        return Err(BAD_WORDS);
    };
    let number = number(own.as_bytes())?;
    match bot_of(alloc, number, setting.as_bytes()) {
        Ok(mut bot) => take_steps(alloc, &mut bot, steps, out),
        Err(error) => Err(error),
    }
}

fn take_steps(
    alloc: Global,
    bot: &mut Bot<MemDisk>,
    steps: &[Text],
    out: &mut Sink,
) -> Result<(), CaseError> {
    let runs = no_runs(alloc)?;
    let store = counted_store(alloc, &runs)?;
    take_all(alloc, bot, &store, &runs, steps, out)
}

fn take_all(
    alloc: Global,
    bot: &mut Bot<MemDisk>,
    store: &ProcStore<Ours, Built>,
    runs: &Runs,
    steps: &[Text],
    out: &mut Sink,
) -> Result<(), CaseError> {
    for (i, step) in steps.iter().enumerate() {
        out.between(b" ; ", i);
        if step.is_same(b"runs") {
            out.number(runs.get());
        } else {
            take(alloc, bot, store, step.as_bytes(), out)?;
        }
    }
    Ok(())
}

/// Creates a bot of this `number`, with no channels. `setting` is the word `all`, `exclusive` or `at-once`, and may end
/// with `=NICK`; without that, the bot is named `egg`.
pub fn bot_of(alloc: Global, number: u16, setting: &[u8]) -> Result<Bot<MemDisk>, CaseError> {
    let (setting, nick) = cut(setting, b'=');
    let (exclusive, sends_at_once) = match setting {
        b"all" => (false, false),
        b"exclusive" => (true, false),
        b"at-once" => (false, true),
        _ => return Err(BAD_WORDS),
    };
    let config = Config {
        number,
        leaves: 1,
        nick: Text::from_slice(alloc, if nick.is_empty() { b"egg" } else { nick })?,
        channels: Texts::empty(alloc),
        exclusive,
        sends_at_once,
        leaves_bans: false,
        zone: Zone::fixed(0).unwrap(),
    };
    match new_bot(alloc, config) {
        Ok(bot) => Ok(bot),
        Err(BotError::Refused(_)) => Err(BAD_WORDS),
        Err(BotError::NoMemory) => Err(CaseError::NoMemory),
    }
}

fn take(
    alloc: Global,
    bot: &mut Bot<MemDisk>,
    store: &ProcStore<Ours, Built>,
    step: &[u8],
    out: &mut Sink,
) -> Result<(), CaseError> {
    let report = bot.step(alloc, store, event_of(alloc, step)?);
    match report.end {
        End::Done => report_shown(&report, out),
        End::Refused(refusal) => out.put(refusal.code().as_bytes()),
        End::NoMemory => return Err(CaseError::NoMemory),
    }
    Ok(())
}

fn event_of(alloc: Global, step: &[u8]) -> Result<BotEvent, CaseError>
    ensures good { IfOk result IsGoodEvent }
{
    let (name, rest) = cut(step, b' ');
    match name {
        b"bind" => Ok(BotEvent::Bind(new_bind(alloc, rest)?)),
        b"clock" => Ok(BotEvent::Clock(number(rest)?)),
        b"connect" => Ok(BotEvent::Connect),
        b"line" => Ok(BotEvent::Line(read_line(alloc, rest)?)),
        _ => Err(BAD_WORDS),
    }
}

// KIND FLAGS PROC MASK
fn new_bind(alloc: Global, words: &[u8]) -> Result<NewBind, CaseError> {
    let (kind, rest) = cut(words, b' ');
    let (flags, rest) = cut(rest, b' ');
    let (proc, mask) = cut(rest, b' ');
    let Some(kind) = BindKind::of_word(kind) else {
        return Err(BAD_WORDS);
    };
    Ok(bind_of(alloc, kind, flags, mask, proc)?)
}

fn bind_of(
    alloc: Global,
    kind: BindKind,
    flags: &[u8],
    mask: &[u8],
    proc: &[u8],
) -> Result<NewBind, NoMemory> {
    Ok(NewBind {
        kind,
        flags: Text::from_slice(alloc, flags)?,
        mask: Text::from_slice(alloc, mask)?,
        proc: Text::from_slice(alloc, proc)?,
    })
}

fn report_shown(report: &Report, out: &mut Sink) {
    for call in report.calls.as_slice() {
        call_shown(call, out);
    }
    for line in report.lines.as_slice() {
        out.put(b"out");
        out.quoted(line.as_bytes());
        out.put(b", ");
    }
    for fault in report.faults.as_slice() {
        fault_shown(fault, out);
    }
    match &report.note {
        Some(Note::Bound(number)) => out.number(u64::from(*number)),
        Some(_) | None => out.put(logged(report.logged)),
    }
}

fn logged(logged: bool) -> &'static [u8] {
    match logged {
        true => b"logged",
        false => b"not logged",
    }
}

fn call_shown(made: &MadeCall, out: &mut Sink) {
    out.number(u64::from(made.bind));
    out.put(b" ");
    out.put(made.proc.as_bytes());
    out.put(b" ");
    out.put(word_of(made.call.kind));
    for argument in made.call.args.as_slice() {
        out.quoted(argument.as_bytes());
    }
    match made.reply.code {
        Code::Zero => out.put(b" 0, "),
        Code::One => out.put(b" 1, "),
    }
}

fn fault_shown(fault: &StepFault, out: &mut Sink) {
    out.put(fault.word().as_bytes());
    if let Some(proc) = fault.proc() {
        out.put(b" ");
        out.put(proc);
    }
    out.put(b", ");
}

fn word_of(kind: CallKind) -> &'static [u8] {
    match kind {
        CallKind::Raw => b"raw",
        CallKind::Msg => b"msg",
        CallKind::Msgm => b"msgm",
        CallKind::Notc => b"notc",
        CallKind::Pub => b"pub",
        CallKind::Pubm => b"pubm",
        CallKind::Join => b"join",
        CallKind::Part => b"part",
        CallKind::Sign => b"sign",
        CallKind::Kick => b"kick",
        CallKind::Nick => b"nick",
        CallKind::Mode => b"mode",
        CallKind::Topc => b"topc",
        CallKind::Account => b"account",
        CallKind::Bot => b"bot",
        CallKind::Time => b"time",
        CallKind::Cron => b"cron",
        CallKind::Timer => b"timer",
    }
}
