// The procs that a script's binds may call: `quiet`, `stop`, `adduser`, `echo`, `texts`, `look`, `later`, `never` and
// `mode`.
ghost use Rattle.std.specs.Prelude.{◌≡◌};
ghost use Rattle.botcases.specs.Procs.{code_of};

use bytetext::{NoMemory, Text, TryCopy};
use itoa::Buffer;
use outqueue::Queue;
use procs::{
    Action, Actions, BotWish, Call, CallKind, Code, Proc, ProcReply, ProcStore, Promise, PutWish,
    Run, TimerName, TimerWish, View,
};
use std::alloc::Global;
use std::cell::Cell;
use std::rc::Rc;
use userfile::{Change, Edit};

/// What the procs promise: `stop` answers 1 and the others 0. The promise leaves open what they ask for.
#[derive(Drop)]
pub struct Ours;

impl Promise for Ours {
    ghost use Rattle.procs.specs.Promises.{promised};
    ghost use Rattle.botcases.specs.Procs.{code_of};

    ghost promised = { promised (λ name _ _. code_of name) (λ _ _ _ _. Unit {0}) };
}

/// What a body asks for, given the call's last argument.
#[derive(Clone, Copy)]
enum Wish {
    /// Nothing.
    Nothing,
    /// A user whose handle is that argument.
    User,
    /// A line for the server that says the argument again on the channel, or to the nick, that said it.
    Echo,
    /// Eight texts to leaf 1.
    Texts,
    /// A line for the server that says what the proc sees to whoever spoke on a channel.
    Look,
    /// A utimer that calls `quiet` with the argument in five seconds.
    Later,
    /// The end of such a utimer.
    Never,
    /// That argument as a line for the mode queue.
    Mode,
}

/// How often the bodies of a store have run.
pub type Runs = Rc<Cell<u64>>;

/// A proc's body: its code, what it asks for, and the counter of its runs.
#[derive(Drop)]
pub struct Built {
    alloc: Global,
    code: Code,
    wish: Wish,
    runs: Runs,
}

impl Run for Built {
    ghost use Rattle.std.specs.Prelude.{◌≡◌, IfOk};

    ghost can_run = { λ body. Unit {0} };

    ghost answers = { λ body _ _ answer. IfOk answer (λ reply. reply.code ≡ body.code) };

    fn run(&self, call: &Call, view: &View<'_>) -> Result<ProcReply, NoMemory> {
        self.runs.set(self.runs.get().wrapping_add(1));
        Ok(ProcReply {
            code: self.code,
            actions: self.actions(call, view)?,
        })
    }
}

impl Built {
    // Returns what the body asks for.
    fn actions(&self, call: &Call, view: &View<'_>) -> Result<Actions, NoMemory> {
        let Some(last) = call.args.as_slice().last() else {
            return Ok(Actions::empty(self.alloc));
        };
        match self.wish {
            Wish::Nothing => Ok(Actions::empty(self.alloc)),
            Wish::User => asked(self.alloc, last),
            Wish::Echo => echoed(self.alloc, call, last),
            Wish::Texts => eight_texts(self.alloc),
            Wish::Look => looked(self.alloc, call, view),
            Wish::Later => later(self.alloc, last),
            Wish::Never => never(self.alloc, last),
            Wish::Mode => mode(self.alloc, last),
        }
    }
}

// Asks for the user `handle`.
fn asked(alloc: Global, handle: &Text) -> Result<Actions, NoMemory> {
    let handle = handle.copy(alloc)?;
    let change = Change::by_nobody(Edit::AddUser { handle });
    Actions::one(alloc, Action::Ask(change))
}

// Says `text` again, on the channel or to the nick that said it.
fn echoed(alloc: Global, call: &Call, text: &Text) -> Result<Actions, NoMemory> {
    let Some(target) = target_of(call) else {
        return Ok(Actions::empty(alloc));
    };
    said(alloc, target, text.as_bytes())
}

// PRIVMSG TARGET :TEXT
fn said(alloc: Global, target: &Text, text: &[u8]) -> Result<Actions, NoMemory> {
    let mut line = Vec::new(alloc);
    line.extend_from_slice(b"PRIVMSG ")?;
    line.extend_from_slice(target.as_bytes())?;
    line.extend_from_slice(b" :")?;
    line.extend_from_slice(text)?;
    let wish = PutWish {
        queue: Queue::Help,
        line: Text::new(line),
    };
    Actions::one(alloc, Action::Put(wish))
}

// Sends leaf 1 a text, eight times.
fn eight_texts(alloc: Global) -> Result<Actions, NoMemory> {
    let mut actions = Actions::empty(alloc);
    for _ in 0..8 {
        let text = Text::from_slice(alloc, b"op me")?;
        match actions.push(Action::SendBot(BotWish { to: 1, text })) {
            Ok(()) => {}
            Err(_) => return Err(NoMemory),
        }
    }
    Ok(actions)
}

// Says on the channel the handle of whoever spoke, `op` or `no op`, and the clock's second.
fn looked(alloc: Global, call: &Call, view: &View<'_>) -> Result<Actions, NoMemory> {
    let [nick, at, _, channel, ..] = call.args.as_slice() else {
        return Ok(Actions::empty(alloc));
    };
    let who = person(alloc, nick, at)?;
    let mapping = view.channels().casemapping();
    let mut text = Vec::from_slice(alloc, view.userfile().handle_of(mapping, who.as_slice()))?;
    text.extend_from_slice(op_word(view.channels().is_op(channel.as_bytes(), nick.as_bytes())))?;
    let mut digits = Buffer::new();
    text.extend_from_slice(digits.format(view.second().unwrap_or(0)).as_bytes())?;
    said(alloc, channel, text.as_slice())
}

// NICK!USER@HOST
fn person(alloc: Global, nick: &Text, at: &Text) -> Result<Vec<u8>, NoMemory> {
    let mut who = Vec::from_slice(alloc, nick.as_bytes())?;
    who.extend_from_slice(b"!")?;
    who.extend_from_slice(at.as_bytes())?;
    Ok(who)
}

fn op_word(is_op: bool) -> &'static [u8] {
    match is_op {
        true => b" op ",
        false => b" no op ",
    }
}

// Has `quiet` called with `text` in five seconds, once.
fn later(alloc: Global, text: &Text) -> Result<Actions, NoMemory> {
    let wish = TimerWish {
        interval: 5,
        count: 1,
        proc: Text::from_slice(alloc, b"quiet")?,
        text: text.copy(alloc)?,
    };
    Actions::one(alloc, Action::Utimer(wish))
}

// Ends that utimer.
fn never(alloc: Global, text: &Text) -> Result<Actions, NoMemory> {
    let name = TimerName {
        proc: Text::from_slice(alloc, b"quiet")?,
        text: text.copy(alloc)?,
    };
    Actions::one(alloc, Action::KillTimer(name))
}

// Puts `line` into the mode queue.
fn mode(alloc: Global, line: &Text) -> Result<Actions, NoMemory> {
    let wish = PutWish {
        queue: Queue::Mode,
        line: line.copy(alloc)?,
    };
    Actions::one(alloc, Action::Put(wish))
}

// Returns the channel on which something was said, or the nick that said it privately.
fn target_of(call: &Call) -> Option<&Text> {
    match call.kind {
        CallKind::Pub | CallKind::Pubm => call.args.as_slice().get(3),
        CallKind::Msg | CallKind::Msgm => call.args.as_slice().get(0),
        _ => None,
    }
}

/// Creates a counter that stands at no run.
pub fn no_runs(alloc: Global) -> Result<Runs, NoMemory> {
    Ok(Rc::new(alloc, Cell::new(0))?)
}

/// Creates a store of the procs.
pub fn store_of(alloc: Global) -> Result<ProcStore<Ours, Built>, NoMemory> {
    let runs = no_runs(alloc)?;
    counted_store(alloc, &runs)
}

/// Creates a store of the procs that counts their runs in `runs`.
pub fn counted_store(alloc: Global, runs: &Runs) -> Result<ProcStore<Ours, Built>, NoMemory> {
    let mut store = ProcStore::new(alloc);
    add(alloc, &mut store, b"quiet", Code::Zero, Wish::Nothing, runs)?;
    add(alloc, &mut store, b"stop", Code::One, Wish::Nothing, runs)?;
    add(alloc, &mut store, b"adduser", Code::Zero, Wish::User, runs)?;
    add(alloc, &mut store, b"echo", Code::Zero, Wish::Echo, runs)?;
    add(alloc, &mut store, b"texts", Code::Zero, Wish::Texts, runs)?;
    add(alloc, &mut store, b"look", Code::Zero, Wish::Look, runs)?;
    add(alloc, &mut store, b"later", Code::Zero, Wish::Later, runs)?;
    add(alloc, &mut store, b"never", Code::Zero, Wish::Never, runs)?;
    add(alloc, &mut store, b"mode", Code::Zero, Wish::Mode, runs)?;
    Ok(store)
}

// Adds a proc. All names differ, so the only possible error is `NoMemory`.
fn add(
    alloc: Global,
    store: &mut ProcStore<Ours, Built>,
    name: &[u8],
    code: Code,
    wish: Wish,
    runs: &Runs,
) -> Result<(), NoMemory>
    requires { code ≡ code_of name.now }
{
    let runs = Rc::clone(runs)?;
    let body = Built {
        alloc,
        code,
        wish,
        runs,
    };
    let name = Text::from_slice(alloc, name)?;
    match store.add(alloc, Proc::new(name, body)) {
        Ok(()) => Ok(()),
        Err(_) => Err(NoMemory),
    }
}
