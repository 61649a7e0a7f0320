// The table of a bot's binds.

use crate::bind::{Bind, Binds};
use crate::bind_fault::{BindError, BindFault};
use crate::bind_kind::BindKind;
use crate::called::{Called, has_needed, held_of};
use crate::event::BindEvent;
use crate::hearing::hear_messages;
use crate::held::{Held, binds_of};
use crate::index::KindIndex;
use crate::keep::{copy_of, count_left, has_such, no_indexes, place_of_such, take_such};
use crate::kinds::{KINDS, place_of};
use crate::limits::{MAX_BINDS, MAX_NUMBER};
use crate::shapes::{is_bad_cron, is_bad_mask};
use crate::wish::{Wish, add, renew};
use bytetext::{Failure, NoMemory, Seq, TryCopy};
use flagexpr::FlagExpr;
use std::alloc::Global;
use std::marker::Model;

/// The binds of a bot. Contracts see the list of its binds, oldest first, and the last number given.
///
/// ```text
/// let mut table = BindTable::new(alloc);
/// table.bind(alloc, BindKind::Pub, b"*", b"!x", b"p")?;                // 1
/// table.bind(alloc, BindKind::Pub, b"*", b"!X", b"q")?;                // 2: it replaces the first
/// table.bind(alloc, BindKind::Pub, b"o", b"!x", b"q")?;                // 2 again: only its flags change
/// table.unbind(BindKind::Pub, b"!x", b"p")                             // Err(NoSuchBind)
///
/// let mut called = table.called(&event);
/// while let Some(bind) = called.next() {
///     // bind.proc is the name of the next proc to call
/// }
/// ```
#[derive(Drop)]
pub struct BindTable {
    held: Vec<Held>,
    indexes: [KindIndex; KINDS],
    last: u32,
}

impl Model for BindTable {
    ghost use Rattle.procs.specs.Tables.{Table};
    ghost use Rattle.procs.specs.Sound.{IsSound};
    ghost use Rattle.procs.specs.Index.{AreIndexed};

    ghost Value = { Table };

    ghost view = { λ t. record { binds = t.held.items; last = t.last } };

    ghost invariant = { λ t. IsSound (record { binds = t.held.items; last = t.last })
        × AreIndexed t.held.items t.indexes };
}

impl BindTable {
    ghost use Rattle.std.specs.Prelude.{◌≡◌, ◌↔◌, true, ◌+◌, None, false, true, find, map, ◌<◌, IfOk, IfErr, IsTrue, OnOk, OnErr, length, []};
    ghost use Rattle.std.specs.List.{list_any};
    ghost use Rattle.flagexpr.specs.Expression.{expression_of};
    ghost use Rattle.flagexpr.specs.Faults.{expression_fault};
    ghost use Rattle.procs.specs.Tables.{Asked, no_binds, is_full, later_refusal, bound, number_of, Binds, Unbinds};
    ghost use Rattle.procs.specs.Sound.{IsSound};
    ghost use Rattle.procs.specs.Wishes.{IsWish, asked_of};
    ghost use Rattle.procs.specs.Calls.{Calls, Occurrence, called, is_called, numbers_of, seen};
    ghost use Rattle.procs.specs.Behind.{bind_of};
    ghost use Rattle.procs.specs.Hearing.{hear_messages};
    ghost use Rattle.std.specs.Option.{option_copied};

    /// Creates an empty table. Does not allocate.
    pub fn new(alloc: Global) -> BindTable
        ensures { result ≡ no_binds }
    {
        BindTable {
            held: Vec::new(alloc),
            indexes: no_indexes(alloc),
            last: 0,
        }
    }

    /// States what always holds of a table: its numbers rise from 1 and none is above the last one given; no two binds
    /// have the same kind, mask and proc, and no two of a single kind the same keyword; `bind` could make each of
    /// them; and there are at most 500. The call does nothing: it exists for its clause.
    pub fn are_sound(&self)
        ensures { IsSound self.now }
    {
        let _ = &self.held;
    }

    /// Makes the bind of `kind`, `flags`, `mask` and `proc`, and returns its number.
    ///
    /// If a bind has the same `kind`, an equal `mask` by casemapping and the same `proc` byte for byte, it gets the
    /// new `flags` and keeps its number, its place and the first spelling of its mask. Any other bind is appended
    /// under the next number. A bind of a single kind, msg, pub or bot, replaces the bind of its kind with an equal
    /// keyword. Numbers rise from 1 and are never used again.
    ///
    /// # Errors
    /// In this order: `BadFlags` if `flags` is not a flag expression; `BadMask` if `mask` is empty or has more than
    /// 120 bytes, or has a space though the kind is single; `BadCron` if the kind is cron and `mask` is not cron
    /// fields; `Full`, for a new bind, if 500 others would remain beside it or the last number, 4,294,967,295, is
    /// used; `NoMemory` if an allocation fails. No error changes the table.
    pub fn bind(
        &mut self,
        alloc: Global,
        kind: BindKind,
        flags: &[u8],
        mask: &[u8],
        proc: &[u8],
    ) -> Result<u32, BindError>
        ensures binds { let asked : Asked = record { kind = kind; flags = flags.now; mask = mask.now; proc = proc.now } in
            Binds self.old asked result self.new }
    {
        let expression = match FlagExpr::parse(flags) {
            Ok(expression) => expression,
            Err(_) => return Err(Failure::Refused(BindFault::BadFlags)),
        };
        if let Some(fault) = self.later_refusal(kind, mask, proc) {
            return Err(Failure::Refused(fault));
        }
        let wish = Wish {
            kind,
            flags,
            mask,
            proc,
            expression,
        };
        match self.make(alloc, &wish) {
            Ok(number) => Ok(number),
            Err(NoMemory) => Err(Failure::NoMemory),
        }
    }

    // Makes a bind that isn't refused, and returns its number.
    fn make(&mut self, alloc: Global, wish: &Wish) -> Result<u32, NoMemory>
        requires wish { IsWish wish.now }
        requires allowed { later_refusal self.old wish.now.kind wish.now.mask.now wish.now.proc.now ≡ None }
        ensures number { IfOk result (λ number. number ≡ number_of self.old (asked_of wish.now)) }
        ensures ok { OnOk result (self.new ≡ bound self.old (asked_of wish.now)) }
        ensures err { OnErr result (self.new ≡ self.old) }
    {
        match place_of_such(&self.held, wish.kind, wish.mask, wish.proc) {
            Some(at) => renew(&mut self.held, alloc, at, wish),
            None => {
                let number = self.last + 1;
                add(&mut self.held, &mut self.indexes, alloc, wish, number)?;
                self.last = number;
                Ok(number)
            }
        }
    }

    /// Removes the bind of this `kind`, of this `mask` by casemapping and of this `proc` byte for byte, and returns
    /// its number. Does not allocate.
    ///
    /// # Errors
    /// `NoSuchBind` if there is none; the table is unchanged.
    pub fn unbind(&mut self, kind: BindKind, mask: &[u8], proc: &[u8]) -> Result<u32, BindFault>
        ensures { Unbinds self.old kind mask.now proc.now result self.new }
    {
        take_such(&mut self.held, &mut self.indexes, kind, mask, proc).ok_or(BindFault::NoSuchBind)
    }

    /// Returns an iterator over the binds that `event` calls, oldest first. Does not allocate.
    pub fn called<'t, 'e>(&'t self, event: &BindEvent<'e>) -> Called<'t, 'e>
        ensures binds { result ≡ called (seen event.now) self.now.binds }
        ensures meaning { (b : Bind) → (is_called (seen event.now) b ≡ true) ↔ Calls (seen event.now) b }
    {
        let index = &self.indexes[place_of(event.kind)];
        let entries = index.candidates(event.kind, event.subject);
        Called::of(&self.held, entries, event)
    }

    /// Returns whether a quick look at the keywords of `kind`, and at the pairs of bytes that its masks need, shows that
    /// no event of `kind` with this `subject` calls a bind, whoever it is by. `false` says nothing: [`called`] then
    /// decides. Does not allocate.
    ///
    /// [`called`]: BindTable::called
    pub fn takes_none(&self, kind: BindKind, subject: &[u8]) -> bool
        ensures { IsTrue result → (event : Occurrence) → event.kind ≡ kind → event.subject ≡ subject.now
            → called event self.now.binds ≡ [] }
    {
        let index = &self.indexes[place_of(kind)];
        !has_needed(index.candidates(kind, subject), subject)
    }

    /// Returns whether a bind waits for messages of the server. The other kinds wait for texts of bots and for
    /// minutes. Does not allocate.
    pub fn hears_messages(&self) -> bool
        ensures { result ≡ hear_messages self.now.binds }
    {
        hear_messages(&self.held)
    }

    /// Returns the numbers of the binds that `event` calls, oldest first.
    ///
    /// # Errors
    /// `NoMemory` if the list can't be allocated, never if the event calls no bind.
    pub fn find(&self, alloc: Global, event: &BindEvent) -> Result<Seq<u32>, NoMemory>
        ensures numbers { IfOk result (λ numbers. numbers ≡ numbers_of (called (seen event.now) self.now.binds)) }
        ensures memory { IfErr result (λ _. 0 < length (called (seen event.now) self.now.binds)) }
    {
        let mut numbers = Seq::empty(alloc);
        let mut called = self.called(event);
        while let Some(bind) = called.next() {
            numbers.push(bind.number)?;
        }
        Ok(numbers)
    }

    /// Returns the bind with this `number`, if the table has it.
    pub fn get(&self, number: u32) -> Option<&Bind>
        ensures { option_copied result ≡ bind_of number self.now.binds }
    {
        match held_of(&self.held, number) {
            Some(one) => Some(one.bind()),
            None => None,
        }
    }

    /// Returns a copy of all binds, oldest first.
    ///
    /// # Errors
    /// `NoMemory` if the copies can't be allocated, never if there is no bind.
    pub fn list(&self, alloc: Global) -> Result<Binds, NoMemory>
        ensures binds { IfOk result (λ binds. binds ≡ self.now.binds) }
        ensures memory { IfErr result (λ _. 0 < length self.now.binds) }
    {
        Ok(Seq::new(binds_of(alloc, &self.held)?))
    }

    // Returns why a bind whose flags parse can't be made.
    #[tactic(auto, unfolding(crate::specs::Tables::later_refusal))]
    fn later_refusal(&self, kind: BindKind, mask: &[u8], proc: &[u8]) -> Option<BindFault>
        ensures { result ≡ later_refusal self.now kind mask.now proc.now }
    {
        if is_bad_mask(kind, mask) {
            return Some(BindFault::BadMask);
        }
        if is_bad_cron(kind, mask) {
            return Some(BindFault::BadCron);
        }
        if has_such(&self.held, kind, mask, proc) {
            return None;
        }
        if self.is_full(kind, mask) {
            return Some(BindFault::Full);
        }
        None
    }

    // Whether there is no room or no number for a new bind.
    fn is_full(&self, kind: BindKind, mask: &[u8]) -> bool
        ensures { result ≡ is_full self.now kind mask.now }
    {
        self.last >= MAX_NUMBER || count_left(&self.held, kind, mask) >= MAX_BINDS
    }
}

impl TryCopy for BindTable {
    fn copy(&self, alloc: Global) -> Result<BindTable, NoMemory> {
        let (held, indexes) = copy_of(alloc, &self.held)?;
        Ok(BindTable {
            held,
            indexes,
            last: self.last,
        })
    }
}
