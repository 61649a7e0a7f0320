// What the bytes of one disk hold.
ghost use Rattle.std.specs.Prelude.{◌≡◌, ◌∷◌, None, Some, IfOk, MatchOption};
ghost use Rattle.bytejournal.specs.Meaning.{numbered, sized, entries_of, from_letters};
ghost use Rattle.bytejournal.specs.Meaning.Held.{Broken};
ghost use Rattle.bytejournal.specs.Reading.{EndAt, HasEntries, HasFront, Reads};

use bytetext::{NoMemory, Text, Texts};
use std::alloc::Global;

/// The letters that a journal's disk begins with, after its first gate.
pub(crate) const LETTERS: [u8; 4] = [b'E', b'G', b'G', b'J'];

/// How many bytes come before a base: the gate, the letters, the layout, a generation and the base's length.
pub(crate) const START: usize = 14;

/// The entries after a base.
#[derive(Drop)]
pub(crate) struct Entries {
    pub(crate) texts: Texts,
    /// The offset of the gate that ends them, or the end of the bytes if the gate is missing.
    pub(crate) gate: usize,
}

/// What stands after an open first gate, before the entries, and what follows it.
#[derive(Clone, Copy)]
pub(crate) struct Front<'a> {
    /// The layout by which the base and entries are spelled.
    pub(crate) layout: u8,
    pub(crate) generation: u32,
    pub(crate) base: &'a [u8],
    /// The entries, and what stands after the gate that ends them.
    pub(crate) rest: &'a [u8],
}

/// What an open disk holds.
#[derive(Drop)]
pub(crate) struct Found {
    /// The layout by which the base and entries are spelled.
    pub(crate) layout: u8,
    pub(crate) generation: u32,
    pub(crate) base: Text,
    pub(crate) entries: Texts,
    /// The offset of the gate that ends the entries, or the disk's end if the gate is missing.
    pub(crate) gate: usize,
}

/// What one disk holds.
#[derive(Drop)]
pub(crate) enum Reading {
    /// The first gate is closed or missing.
    Shut,
    /// What follows the open gate isn't a journal's.
    Broken,
    /// A journal.
    Open(Found),
}

/// Reads the number in the first four bytes, and returns it with what follows it.
fn number_front(bytes: &[u8]) -> Option<(u32, &[u8])>
    ensures { MatchOption result (numbered bytes.now ≡ None) (λ n. numbered bytes.now ≡ Some (n.0, n.1.now)) }
{
    match bytes.split_first_chunk::<4>() {
        Some((four, rest)) => Some((u32::from_be_bytes(*four), rest)),
        None => None,
    }
}

/// Reads the text after its length, and returns it with what follows it.
pub(crate) fn text_front(bytes: &[u8]) -> Option<(&[u8], &[u8])>
    ensures { MatchOption result (sized bytes.now ≡ None) (λ t. sized bytes.now ≡ Some (t.0.now, t.1.now)) }
{
    let (size, rest) = number_front(bytes)?;
    let size = size as usize;
    if size <= rest.len() {
        Some((&rest[..size], &rest[size..]))
    } else {
        None
    }
}

/// Reads what the bytes after an open first gate begin with; returns `None` if they aren't a journal's.
pub(crate) fn front_of(bytes: &[u8]) -> Option<Front<'_>>
    ensures { MatchOption result (from_letters bytes.now ≡ Broken) (HasFront bytes.now) }
{
    let rest = bytes.strip_prefix(&LETTERS)?;
    let (layout, rest) = rest.split_first()?;
    let (generation, rest) = number_front(rest)?;
    let (base, rest) = text_front(rest)?;
    Some(Front {
        layout: *layout,
        generation,
        base,
        rest,
    })
}

/// Returns the offset of the first gate that is closed or missing; `None` if an entry before it is cut short.
pub(crate) fn end_of_entries(bytes: &[u8]) -> Option<usize>
    ensures { MatchOption result (entries_of bytes.now ≡ None) (EndAt bytes.now) }
{
    let mut gate = 0;
    while gate < bytes.len() && bytes[gate] == 1 {
        match text_front(&bytes[gate + 1..]) {
            Some((entry, _)) => gate += 5 + entry.len(),
            None => return None,
        }
    }
    Some(gate)
}

/// Reads the entries up to the first gate that is closed or missing; returns `None` if an entry is cut short.
fn read_entries(alloc: Global, bytes: &[u8]) -> Result<Option<Entries>, NoMemory>
    ensures { IfOk result (λ found. MatchOption found (entries_of bytes.now ≡ None) (HasEntries bytes.now)) }
{
    let mut texts = Texts::empty(alloc);
    let mut gate = 0;
    while gate < bytes.len() && bytes[gate] == 1 {
        match text_front(&bytes[gate + 1..]) {
            Some((entry, _)) => {
                texts.push(Text::from_slice(alloc, entry)?)?;
                gate += 5 + entry.len();
            }
            None => return Ok(None),
        }
    }
    Ok(Some(Entries { texts, gate }))
}

/// Reads what the bytes of a disk hold.
///
/// # Errors
/// `NoMemory` if it cannot allocate room for the base or an entry.
pub(crate) fn read_disk(alloc: Global, bytes: &[u8]) -> Result<Reading, NoMemory>
    ensures { IfOk result (Reads bytes.now) }
{
    match bytes {
        [1, rest @ ..] => read_open(alloc, rest),
        _ => Ok(Reading::Shut),
    }
}

/// Reads what the bytes after an open first gate hold.
fn read_open(alloc: Global, bytes: &[u8]) -> Result<Reading, NoMemory>
    ensures { IfOk result (Reads (1 ∷ bytes.now)) }
{
    let Some(front) = front_of(bytes) else {
        return Ok(Reading::Broken);
    };
    let Some(found) = read_entries(alloc, front.rest)? else {
        return Ok(Reading::Broken);
    };
    let base = Text::from_slice(alloc, front.base)?;
    let gate = START + base.len() + found.gate;
    Ok(Reading::Open(Found {
        layout: front.layout,
        generation: front.generation,
        base,
        entries: found.texts,
        gate,
    }))
}
