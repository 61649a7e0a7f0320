// The lines that a bot reads.
ghost use Rattle.std.specs.Prelude.{◌≡◌, ◌++◌, ◌∷◌, [], map, IfOk};
ghost use Rattle.ircline.specs.Stream.{lines_of};
ghost use Rattle.script.specs.Lines.{line_step, line_steps};

use crate::command::Steps;
use botcore::BotEvent;
use botworld::Step;
use bytetext::{NoMemory, Text};
use ircline::{Line, LineReader};
use std::alloc::Global;

/// Returns a step for each line of `text`, to which it adds a line feed: the bot of number `bot` reads that line.
///
/// # Errors
/// `NoMemory` if memory cannot be allocated.
pub fn line_steps(alloc: Global, bot: u16, text: Text) -> Result<Steps, NoMemory>
    ensures { IfOk result (λ steps. steps ≡ line_steps bot text) }
{
    let lines = lines_of(alloc, text)?;
    let steps = steps_of(alloc, bot, lines)?;
    Ok(Steps::new(steps))
}

// The lines of a text that a line feed follows.
fn lines_of(alloc: Global, text: Text) -> Result<Vec<Line>, NoMemory>
    ensures { IfOk result (λ lines. lines.items ≡ lines_of (text ++ 10 ∷ [])) }
{
    let mut piece = text.into_vec();
    piece.push(b'\n')?;
    let mut reader = LineReader::new(alloc);
    reader.feed(alloc, piece.as_slice())
}

// A step for each line.
fn steps_of(alloc: Global, bot: u16, lines: Vec<Line>) -> Result<Vec<Step>, NoMemory>
    ensures { IfOk result (λ steps. steps.items ≡ map (line_step bot) lines.items) }
{
    let mut steps = Vec::with_capacity(alloc, lines.len())?;
    for line in lines {
        let event = BotEvent::Line(line);
        steps.push(Step::At { bot, event })?;
    }
    Ok(steps)
}
