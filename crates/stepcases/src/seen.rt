// What was seen of the bots' versions and records, and whether it breaks the promise of the net.
use crate::print::put_number;
use bytetext::NoMemory;
use std::alloc::Global;

/// The records of a version, as they are printed.
#[derive(Drop)]
struct Version {
    number: u32,
    records: Vec<u8>,
}

/// What was seen so far.
#[derive(Drop)]
pub struct Seen {
    versions: Vec<Version>,
    breaches: Vec<u8>,
}

impl Seen {
    /// Starts with nothing seen.
    pub fn nothing(alloc: Global) -> Seen {
        Seen {
            versions: Vec::new(alloc),
            breaches: Vec::new(alloc),
        }
    }

    /// Returns what breaks the promise, a line for each breach.
    pub fn breaches(&self) -> &[u8] {
        &self.breaches
    }

    /// Notes that `bot` has `records` at version `number`, and a breach if another bot had other records there.
    pub fn note(&mut self, bot: u16, number: u32, records: Vec<u8>) -> Result<(), NoMemory> {
        match self
            .versions
            .iter()
            .find(|version| version.number == number)
        {
            Some(version) => {
                if version.records.as_slice() != records.as_slice() {
                    self.note_breach(bot, b" differs at ", number)?;
                }
            }
            None => self.versions.push(Version { number, records })?,
        }
        Ok(())
    }

    /// Notes the breach that `bot` did `what` at version `number`, such as ` went back to `.
    pub fn note_breach(&mut self, bot: u16, what: &[u8], number: u32) -> Result<(), NoMemory> {
        put_number(&mut self.breaches, u64::from(bot))?;
        self.breaches.extend_from_slice(what)?;
        put_number(&mut self.breaches, u64::from(number))?;
        self.breaches.push(b'\n')?;
        Ok(())
    }
}
