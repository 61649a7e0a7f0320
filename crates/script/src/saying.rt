// What one line says.
ghost use Rattle.std.specs.Prelude.{◌≡◌, ◌∷◌, map, option_and_then, IfOk, IfErr, IsTrue};
ghost use Rattle.bottimers.specs.Zones.{rule_in};
ghost use Rattle.script.specs.Vocabulary.{verb_named};
ghost use Rattle.script.specs.Grammar.{counted, zoned, few_leaves, told, one_step, event_at, told_to, asked, read, clocked, bound, unbound};
ghost use Rattle.script.specs.Grammar.{two_words, more_words, saying_by_words, saying_of, has_text};

use crate::binding::{new_bind, old_bind};
use crate::command::{Command, Steps};
use crate::lines::line_steps;
use crate::verb::Verb;
use botcore::BotEvent;
use bottimers::Zone;
use botworld::Step;
use bytetext::NoMemory;
use procs::BindKind;
use recordtext::{bot_number, change_named, number, pieces_of, rest_of};
use sharelink::MAX_LEAVES;
use std::alloc::Global;

/// What a line says by itself, whatever lines come before it.
#[derive(Drop)]
pub enum Saying {
    /// Nothing: the line is empty or begins with `#`.
    Nothing,
    /// The number of leaves.
    Leaves(u16),
    /// The zone of all bots.
    Zone(Zone),
    /// A command.
    Told(Command),
    /// The line breaks a rule.
    Wrong,
}

/// Returns what `line` says.
///
/// # Errors
/// `NoMemory` if memory cannot be allocated; never if the line says nothing.
pub fn saying_of(alloc: Global, line: &[u8]) -> Result<Saying, NoMemory>
    ensures saying { IfOk result (λ saying. saying ≡ saying_of line.now) }
    ensures memory { IfErr result (λ _. IsTrue (has_text line.now)) }
{
    if line.is_empty() || line[0] == b'#' {
        return Ok(Saying::Nothing);
    }
    let words = pieces_of(alloc, line, b' ')?;
    saying_by_words(alloc, words.as_slice())
}

// Each command has its number of words.
fn saying_by_words(alloc: Global, words: &[&[u8]]) -> Result<Saying, NoMemory>
    ensures { IfOk result (λ saying. saying ≡ saying_by_words (map (λ word. word.now) words.now)) }
{
    match words {
        [verb, a] => two_words(alloc, verb, a),
        [verb, a, first, words @ ..] => more_words(alloc, verb, a, first, words),
        [] | [_] => Ok(Saying::Wrong),
    }
}

// VERB A
fn two_words(alloc: Global, verb: &[u8], a: &[u8]) -> Result<Saying, NoMemory>
    ensures { IfOk result (λ saying. saying ≡ two_words (verb_named verb.now) a.now) }
{
    match Verb::named(verb) {
        Some(Verb::Leaves) => Ok(count_leaves(bot_number(a))),
        Some(Verb::Zone) => Ok(read_zone(a)),
        Some(Verb::Pump) => tell(alloc, bot_number(a), BotEvent::Pump),
        Some(Verb::Compact) => tell(alloc, bot_number(a), BotEvent::Compact),
        Some(Verb::Restart) => tell(alloc, bot_number(a), BotEvent::Restart),
        Some(Verb::Connect) => tell(alloc, bot_number(a), BotEvent::Connect),
        Some(Verb::Deliver) => match number(a) {
            Some(packet) => one_step(alloc, Step::Deliver { packet }),
            None => Ok(Saying::Wrong),
        },
        Some(Verb::Show) => match bot_number(a) {
            Some(bot) => Ok(Saying::Told(Command::Show(bot))),
            None => Ok(Saying::Wrong),
        },
        Some(Verb::Ask | Verb::Line | Verb::Clock | Verb::Bind | Verb::Unbind) | None => Ok(
            Saying::Wrong,
        ),
    }
}

// The number of leaves, unless there are too many.
fn count_leaves(leaves: Option<u16>) -> Saying
    ensures { result ≡ counted (option_and_then few_leaves leaves) }
{
    match leaves {
        Some(leaves) => {
            if leaves <= MAX_LEAVES {
                Saying::Leaves(leaves)
            } else {
                Saying::Wrong
            }
        }
        None => Saying::Wrong,
    }
}

// The zone of a rule.
fn read_zone(rule: &[u8]) -> Saying
    ensures { result ≡ zoned (rule_in rule.now) }
{
    match Zone::posix(rule) {
        Ok(zone) => Saying::Zone(zone),
        Err(_) => Saying::Wrong,
    }
}

// The command that gives this event to the bot; the line is wrong if the bot's number is missing.
fn tell(alloc: Global, bot: Option<u16>, event: BotEvent) -> Result<Saying, NoMemory>
    ensures { IfOk result (λ saying. saying ≡ told_to bot event) }
{
    match bot {
        Some(bot) => event_at(alloc, bot, event),
        None => Ok(Saying::Wrong),
    }
}

// The command that gives this event to the bot of this number.
fn event_at(alloc: Global, bot: u16, event: BotEvent) -> Result<Saying, NoMemory>
    ensures { IfOk result (λ saying. saying ≡ Saying.Told (event_at bot event)) }
{
    one_step(alloc, Step::At { bot, event })
}

// A command of one step.
fn one_step(alloc: Global, step: Step) -> Result<Saying, NoMemory>
    ensures { IfOk result (λ saying. saying ≡ Saying.Told (one_step step)) }
{
    let mut steps = Steps::empty(alloc);
    steps.push(step)?;
    Ok(Saying::Told(Command::Steps(steps)))
}

// VERB A, and the words after it
fn more_words(
    alloc: Global,
    verb: &[u8],
    a: &[u8],
    first: &[u8],
    words: &[&[u8]],
) -> Result<Saying, NoMemory>
    ensures { IfOk result (λ saying. saying ≡ more_words (verb_named verb.now) a.now first.now
        (map (λ word. word.now) words.now)) }
{
    match Verb::named(verb) {
        Some(Verb::Ask) => ask(alloc, bot_number(a), first, words),
        Some(Verb::Line) => read_lines(alloc, bot_number(a), first, words),
        Some(Verb::Clock) => read_clock(alloc, bot_number(a), first, words),
        Some(Verb::Bind) => bind(alloc, bot_number(a), first, words),
        Some(Verb::Unbind) => unbind(alloc, bot_number(a), first, words),
        Some(
            Verb::Leaves
            | Verb::Pump
            | Verb::Compact
            | Verb::Restart
            | Verb::Connect
            | Verb::Deliver
            | Verb::Show
            | Verb::Zone,
        )
        | None => Ok(Saying::Wrong),
    }
}

// NAME, and the words of the change
fn ask(alloc: Global, bot: Option<u16>, name: &[u8], words: &[&[u8]]) -> Result<Saying, NoMemory>
    ensures { IfOk result (λ saying. saying ≡ told (asked bot name.now (map (λ word. word.now) words.now))) }
{
    let Some(bot) = bot else {
        return Ok(Saying::Wrong);
    };
    match change_named(alloc, name, words)? {
        Some(change) => event_at(alloc, bot, BotEvent::Ask(change)),
        None => Ok(Saying::Wrong),
    }
}

// TEXT..
fn read_lines(
    alloc: Global,
    bot: Option<u16>,
    first: &[u8],
    words: &[&[u8]],
) -> Result<Saying, NoMemory>
    ensures { IfOk result (λ saying. saying ≡ told (read bot (first.now ∷ map (λ word. word.now) words.now))) }
{
    let Some(bot) = bot else {
        return Ok(Saying::Wrong);
    };
    match rest_of(alloc, first, words)? {
        Some(text) => {
            let steps = line_steps(alloc, bot, text)?;
            Ok(Saying::Told(Command::Steps(steps)))
        }
        None => Ok(Saying::Wrong),
    }
}

// N
fn read_clock(
    alloc: Global,
    bot: Option<u16>,
    word: &[u8],
    words: &[&[u8]],
) -> Result<Saying, NoMemory>
    ensures { IfOk result (λ saying. saying ≡ told (clocked bot word.now (map (λ word. word.now) words.now))) }
{
    if !words.is_empty() {
        return Ok(Saying::Wrong);
    }
    match (bot, number(word)) {
        (Some(bot), Some(now)) => event_at(alloc, bot, BotEvent::Clock(now)),
        (Some(_), None) | (None, _) => Ok(Saying::Wrong),
    }
}

// TYPE FLAGS PROC MASK..
fn bind(alloc: Global, bot: Option<u16>, kind: &[u8], words: &[&[u8]]) -> Result<Saying, NoMemory>
    ensures { IfOk result (λ saying. saying ≡ told (bound bot kind.now (map (λ word. word.now) words.now))) }
{
    let Some(bot) = bot else {
        return Ok(Saying::Wrong);
    };
    match new_bind(alloc, BindKind::of_word(kind), words)? {
        Some(bind) => event_at(alloc, bot, BotEvent::Bind(bind)),
        None => Ok(Saying::Wrong),
    }
}

// TYPE PROC MASK..
fn unbind(alloc: Global, bot: Option<u16>, kind: &[u8], words: &[&[u8]]) -> Result<Saying, NoMemory>
    ensures { IfOk result (λ saying. saying ≡ told (unbound bot kind.now (map (λ word. word.now) words.now))) }
{
    let Some(bot) = bot else {
        return Ok(Saying::Wrong);
    };
    match old_bind(alloc, BindKind::of_word(kind), words)? {
        Some(bind) => event_at(alloc, bot, BotEvent::Unbind(bind)),
        None => Ok(Saying::Wrong),
    }
}
