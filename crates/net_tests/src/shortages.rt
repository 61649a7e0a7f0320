// Procs that run out of memory: `botcore`.
ghost use Rattle.std.specs.Prelude.{◌≡◌, IfOk};
ghost use Rattle.procs.specs.declared.reply.Code.TheVariants.{Zero};
ghost use Rattle.botcore.specs.Steps.{IsGoodEvent};

use crate::nets::new_bot;
use botcore::{Bot, BotEvent, End, NewBind, OldBind, Report};
use bytetext::{NoMemory, Text};
use disks::MemDisk;
use ircline::read_line;
use outqueue::Queue;
use procs::{
    Action, Actions, BindKind, Call, Code, Proc, ProcReply, ProcStore, Promise, PutWish, Run, View,
};
use std::alloc::Global;

// What the two procs promise: code 0.
#[derive(Drop)]
struct Ours;

impl Promise for Ours {
    ghost use Rattle.procs.specs.declared.reply.Code.TheVariants.{Zero};
    ghost use Rattle.procs.specs.Promises.{promised};

    ghost promised = { promised (λ _ _ _. Zero) (λ _ _ _ _. Unit {0}) };
}

// The body of a proc.
#[derive(Drop)]
enum OurProc {
    // Has the bot say hello on the channel #a.
    Greet(Global),
    // Runs out of memory, whatever is left.
    Lack,
}

impl Run for OurProc {
    ghost use Rattle.std.specs.Prelude.{◌≡◌, IfOk};
    ghost use Rattle.procs.specs.declared.reply.Code.TheVariants.{Zero};

    ghost can_run = { λ _. Unit {0} };

    ghost answers = { λ _ _ _ answer. IfOk answer (λ reply. reply.code ≡ Zero) };

    fn run(&self, _call: &Call, _view: &View<'_>) -> Result<ProcReply, NoMemory> {
        match self {
            OurProc::Greet(alloc) => hello(*alloc),
            OurProc::Lack => Err(NoMemory),
        }
    }
}

// Answers 0, and asks for a line on the channel #a.
fn hello(alloc: Global) -> Result<ProcReply, NoMemory>
    ensures { IfOk result (λ reply. reply.code ≡ Zero) }
{
    let line = Text::from_slice(alloc, b"PRIVMSG #a :hello")?;
    let queue = Queue::Help;
    let actions = Actions::one(alloc, Action::Put(PutWish { queue, line }))?;
    let code = Code::Zero;
    Ok(ProcReply { code, actions })
}

type OurStore = ProcStore<Ours, OurProc>;

// Creates a store of `greet` and `lack`.
fn our_store(alloc: Global) -> Result<OurStore, NoMemory> {
    let mut store = ProcStore::new(alloc);
    add(alloc, &mut store, b"greet", OurProc::Greet(alloc))?;
    add(alloc, &mut store, b"lack", OurProc::Lack)?;
    Ok(store)
}

// Adds a proc. The names differ, so the only possible error is `NoMemory`.
fn add(alloc: Global, store: &mut OurStore, name: &[u8], body: OurProc) -> Result<(), NoMemory> {
    let name = Text::from_slice(alloc, name)?;
    match store.add(alloc, Proc::new(name, body)) {
        Ok(()) => Ok(()),
        Err(_) => Err(NoMemory),
    }
}

// Makes the event that binds the proc `name` to all that is said on a channel.
fn bind_of(alloc: Global, name: &[u8]) -> Result<BotEvent, NoMemory>
    ensures { IfOk result IsGoodEvent }
{
    let kind = BindKind::Pubm;
    let flags = Text::from_slice(alloc, b"*")?;
    let mask = Text::from_slice(alloc, b"*")?;
    let proc = Text::from_slice(alloc, name)?;
    Ok(BotEvent::Bind(NewBind {
        kind,
        flags,
        mask,
        proc,
    }))
}

// Makes the event that removes that bind.
fn unbind_of(alloc: Global, name: &[u8]) -> Result<BotEvent, NoMemory>
    ensures { IfOk result IsGoodEvent }
{
    let kind = BindKind::Pubm;
    let mask = Text::from_slice(alloc, b"*")?;
    let proc = Text::from_slice(alloc, name)?;
    Ok(BotEvent::Unbind(OldBind { kind, mask, proc }))
}

// Has `bot` handle a line of the server.
fn told(
    alloc: Global,
    bot: &mut Bot<MemDisk>,
    store: &OurStore,
    text: &[u8],
) -> Result<Report, NoMemory> {
    let line = read_line(alloc, text)?;
    Ok(bot.take_line(alloc, store, &line))
}

// Creates a hub that is on the channel #a, has a PING to answer, and has `greet` and then `lack` bound.
fn hub_of(alloc: Global, store: &OurStore) -> Result<Bot<MemDisk>, NoMemory> {
    let mut hub = new_bot(alloc, 0, 0)?;
    let _joined = told(alloc, &mut hub, store, b":egg!e@h JOIN #a")?;
    let _pinged = told(alloc, &mut hub, store, b"PING :x")?;
    let _greet = hub.step(alloc, store, bind_of(alloc, b"greet")?);
    let _lack = hub.step(alloc, store, bind_of(alloc, b"lack")?);
    Ok(hub)
}

// Returns whether `report` ends so, after a call of `greet` alone, which answered 0.
fn greets(report: &Report, end: End) -> bool {
    match report.calls.as_slice() {
        [call] => report.end == end && call.proc.is_same(b"greet") && call.reply.code == Code::Zero,
        _ => false,
    }
}

// Returns whether `report` requests nothing of anybody.
fn is_silent(report: &Report) -> bool {
    report.packets.is_empty() && report.lines.is_empty() && report.faults.is_empty()
}

// Returns whether at this second `bot` sends `line` alone.
fn sends(alloc: Global, bot: &mut Bot<MemDisk>, store: &OurStore, now: u64, line: &[u8]) -> bool {
    let report = bot.step(alloc, store, BotEvent::Clock(now));
    match report.lines.as_slice() {
        [sent] => sent.is_same(line),
        _ => false,
    }
}

// Returns whether a text on #a for which `lack` is due ends out of memory after `greet`, and leaves the bot as it was.
fn is_undone(alloc: Global) -> Result<bool, NoMemory> {
    let store = our_store(alloc)?;
    let mut hub = hub_of(alloc, &store)?;
    let report = told(alloc, &mut hub, &store, b":n!u@h PRIVMSG #a :hi")?;
    Ok(
        greets(&report, End::NoMemory)
            && is_silent(&report)
            && sends(alloc, &mut hub, &store, 100, b"PONG x"),
    )
}

// Returns whether such a bot, without the bind of `lack`, is still on #a and greets as if it had heard nothing before.
fn goes_on(alloc: Global) -> Result<bool, NoMemory> {
    let store = our_store(alloc)?;
    let mut hub = hub_of(alloc, &store)?;
    let _lacking = told(alloc, &mut hub, &store, b":n!u@h PRIVMSG #a :hi")?;
    let _ponged = hub.step(alloc, &store, BotEvent::Clock(100));
    let _unbound = hub.step(alloc, &store, unbind_of(alloc, b"lack")?);
    let report = told(alloc, &mut hub, &store, b":n!u@h PRIVMSG #a :hi")?;
    Ok(greets(&report, End::Done) && sends(alloc, &mut hub, &store, 101, b"PRIVMSG #a :hello"))
}

#[test]
fn a_proc_that_runs_out_of_memory_changes_nothing(rt: HostRuntime) {
    assert!(rt; is_undone(rt.alloc()) == Ok(true));
    assert!(rt; goes_on(rt.alloc()) == Ok(true));
}
