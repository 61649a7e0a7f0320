// How new folders come into the hub's book.
ghost use Rattle.std.specs.Prelude.{◌≡◌, true, IfErr, IfOk, IsTrue};
ghost use Rattle.std.specs.List.{flat_map, list_any};
ghost use Rattle.peers.specs.Entering.{entry_of, is_any_entering, is_entering, lines_to_enter};
ghost use Rattle.peers.specs.Joining.{IsOfBook};

use crate::guest::Guest;
use crate::guest_stage::GuestStage;
use crate::hub_links::HubLinks;
use bytetext::NoMemory;
use handshake::{Book, Place, entry_line};
use net::Log;
use std::alloc::Global;

impl HubLinks {
    /// Returns the lines for the book that have to be on the disk before the leaves that they name are welcomed.
    ///
    /// # Errors
    /// `NoMemory` if an allocation fails: never if there are none.
    pub fn to_enter(&self, alloc: Global) -> Result<Vec<u8>, NoMemory>
        ensures lines { IfOk result (λ lines. lines.items ≡ lines_to_enter self.now) }
        ensures memory { IfErr result (λ _. IsTrue (is_any_entering self.now)) }
    {
        if self.own.is_none() {
            return Ok(Vec::new(alloc));
        }
        entry_lines(alloc, self.door.guests.list.as_slice())
    }

    /// Notes that the lines that [`HubLinks::to_enter`] returned in this turn are on the disk, and welcomes the leaves
    /// that they name, at second `now`.
    ///
    /// # Errors
    /// `NoMemory` if an allocation fails: never if there were none.
    pub fn entered<R: AllocGlobal>(
        &mut self,
        rt: &R,
        log: &mut Log,
        now: u64,
    ) -> Result<(), NoMemory> {
        if self.own.is_none() {
            return Ok(());
        }
        for back in 0..self.door.guests.len() {
            // From the last one on, since a guest that joins leaves those before it in their places.
            let place = self.door.guests.len().saturating_sub(back + 1);
            self.enter(rt, log, place, now)?;
        }
        Ok(())
    }

    // If the guest at `place` waits for its line in the book, the line is on the disk.
    #[tactic(auto, using(crate::proofs::JoiningLemmas::in_book_at))]
    fn enter<R: AllocGlobal>(
        &mut self,
        rt: &R,
        log: &mut Log,
        place: usize,
        now: u64,
    ) -> Result<(), NoMemory> {
        let Some(guest) = self.door.guests.list.get(place) else {
            return Ok(());
        };
        if put_in_book(&mut self.book, guest) {
            return self.join(rt, log, place, now);
        }
        Ok(())
    }
}

// Enters the folder of a guest that waits for it in the book. Returns whether the book has it now.
fn put_in_book(book: &mut Book, guest: &Guest) -> bool
    ensures in_book { result ≡ true → IsOfBook book.new guest.now.stage }
{
    let GuestStage::Enters(asked) = guest.stage else {
        return false;
    };
    let words = asked.ask.words;
    book.put_entry(words.leaf, &words.made);
    match book.place(words.leaf, &words.made) {
        Place::Same => true,
        Place::Free | Place::Taken | Place::Barred => false,
    }
}

// The lines for the book of the guests that wait for them.
fn entry_lines(alloc: Global, guests: &[Guest]) -> Result<Vec<u8>, NoMemory>
    ensures lines { IfOk result (λ lines. lines.items ≡ flat_map entry_of guests.now) }
    ensures memory { IfErr result (λ _. list_any is_entering guests.now ≡ true) }
{
    let mut lines = Vec::new(alloc);
    for guest in guests {
        if let GuestStage::Enters(asked) = guest.stage {
            let words = &asked.ask.words;
            lines.extend_from_slice(entry_line(words.leaf, &words.made).as_bytes())?;
        }
    }
    Ok(lines)
}
