// A case of a bot's journal.
ghost use Rattle.std.specs.Prelude.{IfOk};
ghost use Rattle.stepcases.specs.Place.{IsReady};

use crate::journal_disks::{bytes, fail, misread, new_disks};
use crate::journal_steps::{append, create, layout, open, rebase, restart, spent};
use crate::place::{Place, disks_of, journal_of};
use bytejournal::Disks;
use caselines::{CaseError, NO_SUCH_CASE, cut};
use disks::MemDisk;
use std::alloc::Global;
use std::marker::Model;
use std::mem;

/// The journal of a case.
#[derive(Drop)]
pub struct JournalCase {
    place: Place,
}

impl Model for JournalCase {
    ghost use Rattle.stepcases.specs.declared.place.Place.{Place};
    ghost use Rattle.stepcases.specs.Place.{IsReady};

    ghost Value = { Place };

    ghost view = { λ c. c.place };

    ghost invariant = { λ c. IsReady c.place };
}

impl JournalCase {
    /// Starts with two empty disks. Does not allocate.
    pub fn new(alloc: Global) -> JournalCase {
        JournalCase {
            place: no_journal(alloc),
        }
    }

    /// Plays the step `line`, and appends what it answers to `out`. An error leaves two empty disks.
    ///
    /// # Errors
    /// `Refused` if `line` is no step of a journal, and `NoMemory` if an allocation fails.
    pub fn play(&mut self, alloc: Global, line: &[u8], out: &mut Vec<u8>) -> Result<(), CaseError> {
        let place = mem::replace(&mut self.place, no_journal(alloc));
        self.place = play(alloc, place, line, out)?;
        Ok(())
    }
}

// Makes two empty disks.
fn no_journal(alloc: Global) -> Place
    ensures { IsReady result }
{
    Place::OnDisks(Disks {
        first: MemDisk::new(alloc),
        second: MemDisk::new(alloc),
    })
}

// What a step does.
#[derive(Clone, Copy)]
enum Step {
    Append,
    Bytes,
    Create,
    Disks,
    Fail,
    Layout,
    Misread,
    Open,
    Rebase,
    Restart,
    Spent,
}

const STEPS: [(&[u8], Step); 11] = [
    (b"append", Step::Append),
    (b"bytes", Step::Bytes),
    (b"create", Step::Create),
    (b"disks", Step::Disks),
    (b"fail", Step::Fail),
    (b"layout", Step::Layout),
    (b"misread", Step::Misread),
    (b"open", Step::Open),
    (b"rebase", Step::Rebase),
    (b"restart", Step::Restart),
    (b"spent", Step::Spent),
];

fn play(alloc: Global, place: Place, line: &[u8], out: &mut Vec<u8>) -> Result<Place, CaseError>
    requires { IsReady place }
    ensures { IfOk result IsReady }
{
    let (word, rest) = cut(line, b' ');
    let Some((_, step)) = STEPS.iter().find(|(name, _)| *name == word) else {
        return Err(NO_SUCH_CASE);
    };
    match *step {
        Step::Append => append(alloc, journal_of(place)?, rest, out),
        Step::Bytes => bytes(alloc, disks_of(place), out),
        Step::Create => create(alloc, disks_of(place), rest, out),
        Step::Disks => new_disks(alloc, rest),
        Step::Fail => fail(disks_of(place), rest),
        Step::Layout => layout(alloc, journal_of(place)?, out),
        Step::Misread => misread(disks_of(place), rest),
        Step::Open => open(alloc, disks_of(place), out),
        Step::Rebase => rebase(alloc, journal_of(place)?, rest, out),
        Step::Restart => restart(alloc, journal_of(place)?, out),
        Step::Spent => spent(journal_of(place)?, out),
    }
}
