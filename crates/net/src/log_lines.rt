// The lines of a log.
ghost use Rattle.std.specs.Prelude.{◌≡◌, ◌≤◌, IfOk, List, ℕ, length};
ghost use Rattle.net.specs.Logs.{AreLines, IsLineOf, Says, gap_line, gap_lines};
ghost use Rattle.net.specs.declared.log_lines.TheConstants.{MAX_LOG_LINE};

use crate::log_form::{LogForm, line_in};
use bytetext::NoMemory;
use std::alloc::Global;
use std::fmt::Display;

/// The most bytes of what one line of a [`Log`](crate::Log) says, without its second and LF, before it is escaped.
pub const MAX_LOG_LINE: usize = 4_000;

// How many lines were dropped since the last one that was kept.
#[derive(Clone, Copy)]
pub(crate) struct Gap {
    // So many did not fit.
    pub(crate) dropped: u64,
    // For so many no memory was left.
    pub(crate) unmade: u64,
}

// Returns the line of `entry` in `form`, after the lines that tell of a `gap` before it.
pub(crate) fn lines_of<E: Display>(
    alloc: Global,
    form: LogForm,
    gap: Gap,
    now: u64,
    entry: &E,
) -> Result<Vec<u8>, NoMemory>
    ensures { IfOk result (λ lines. AreLines form gap.dropped gap.unmade now (E.output entry.now) lines.items) }
{
    let mut lines = gaps_of(alloc, form, gap, now)?;
    let line = line_of(alloc, form, now, entry)?;
    lines.extend_from_slice(line.as_slice())?;
    Ok(lines)
}

// Returns the lines that tell of a gap; nothing if no line was dropped.
fn gaps_of(alloc: Global, form: LogForm, gap: Gap, now: u64) -> Result<Vec<u8>, NoMemory>
    ensures { IfOk result (λ lines. lines.items ≡ gap_lines form gap.dropped gap.unmade now) }
{
    let mut lines = gap_of(
        alloc,
        form,
        "too much waited to be written",
        gap.dropped,
        now,
    )?;
    let unmade = gap_of(alloc, form, "memory ran out", gap.unmade, now)?;
    lines.extend_from_slice(unmade.as_slice())?;
    Ok(lines)
}

// Returns the line that tells that `count` lines were dropped, and `why`; nothing if none was.
fn gap_of(
    alloc: Global,
    form: LogForm,
    why: &str,
    count: u64,
    now: u64,
) -> Result<Vec<u8>, NoMemory>
    ensures { IfOk result (λ line. line.items ≡ gap_line form why.now count now) }
{
    if count == 0 {
        return Ok(Vec::new(alloc));
    }
    let happened = format!(in alloc; "log: {why}, so lines were dropped: {count}")?;
    line_in(alloc, form, now, happened.as_bytes())
}

// Returns the line of `entry`.
fn line_of<E: Display>(
    alloc: Global,
    form: LogForm,
    now: u64,
    entry: &E,
) -> Result<Vec<u8>, NoMemory>
    ensures { IfOk result (λ line. (happened : List ℕ) × Says (E.output entry.now) happened × IsLineOf form now happened line.items) }
{
    let happened = format!(in alloc; "{entry}")?;
    let count = line_len(&happened);
    line_in(alloc, form, now, &happened.as_bytes()[..count])
}

// Returns how many bytes of `text` a line shows: at most `MAX_LOG_LINE`, and whole characters.
fn line_len(text: &str) -> usize
    ensures most { result ≤ MAX_LOG_LINE }
    ensures within { result ≤ length text.now }
    ensures all { length text.now ≤ MAX_LOG_LINE → result ≡ length text.now }
{
    if text.len() <= MAX_LOG_LINE {
        return text.len();
    }
    let mut count = MAX_LOG_LINE;
    while count > 0 && !text.is_char_boundary(count) {
        count -= 1;
    }
    count
}
