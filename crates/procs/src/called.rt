// The binds that an event calls, one after another.
ghost use Rattle.std.specs.Prelude.{◌≡◌, [], ◌∷◌, slice_get};
ghost use Rattle.std.specs.List.{list_any};
ghost use Rattle.std.specs.Option.{option_copied};
ghost use Rattle.wildmask.specs.WideSignatures.{wide_text_signature, is_wide_within};
ghost use Rattle.procs.specs.Calls.{called, seen};
ghost use Rattle.procs.specs.Behind.{HaveRisen, Tells, behind, bind_of};

use crate::bind::Bind;
use crate::event::BindEvent;
use crate::held::Held;
use crate::index::IndexEntry;
use std::marker::Model;
use wildmask::WideSignature;

/// An iterator over the binds that an event calls, oldest first.
#[derive(Drop)]
pub struct Called<'t, 'e> {
    held: &'t [Held],
    entries: &'t [IndexEntry],
    event: BindEvent<'e>,
    // the pairs of bytes that the subject has
    pairs: WideSignature,
}

impl<'t, 'e> Model for Called<'t, 'e> {
    ghost use Rattle.std.specs.Prelude.{◌≡◌, List};
    ghost use Rattle.wildmask.specs.WideSignatures.{wide_text_signature};
    ghost use Rattle.procs.specs.declared.bind.Bind.{Bind};
    ghost use Rattle.procs.specs.Calls.{called, seen};
    ghost use Rattle.procs.specs.Behind.{AreKnown, HaveRisen, behind};

    ghost Value = { List Bind };

    ghost view = { λ c. called (seen c.event) (behind c.held.now c.entries.now) };

    ghost invariant = { λ c. HaveRisen c.held.now × AreKnown c.held.now c.entries.now
        × (c.pairs ≡ wide_text_signature c.event.subject.now) };
}

impl<'t, 'e> Called<'t, 'e> {
    ghost use Rattle.std.specs.Prelude.{◌≡◌, drop, slice_get};
    ghost use Rattle.std.specs.Option.{option_copied};
    ghost use Rattle.procs.specs.Calls.{called, seen};
    ghost use Rattle.procs.specs.Behind.{AreKnown, HaveRisen, behind};

    // Creates the iterator over the binds behind `entries` that `event` calls.
    pub(crate) fn of(
        held: &'t [Held],
        entries: &'t [IndexEntry],
        event: &BindEvent<'e>,
    ) -> Called<'t, 'e>
        requires risen { HaveRisen held.now }
        requires known { AreKnown held.now entries.now }
        ensures { result ≡ called (seen event.now) (behind held.now entries.now) }
    {
        Called {
            held,
            entries,
            event: BindEvent {
                kind: event.kind,
                subject: event.subject,
                minute: event.minute,
                global: event.global,
                channel: event.channel,
                bot: event.bot,
            },
            pairs: WideSignature::of(event.subject),
        }
    }

    /// Returns the next bind that the event calls, if one is left.
    pub fn next(&mut self) -> Option<&'t Bind>
        ensures first { option_copied result ≡ slice_get self.old 0 }
        ensures rest { self.new ≡ drop 1 self.old }
    {
        while let Some((entry, rest)) = self.entries.split_first() {
            self.entries = rest;
            if let Some(bind) = if_called(self.held, entry, &self.event, self.pairs) {
                return Some(bind);
            }
        }
        None
    }
}

// Returns the bind behind an entry, if the event calls it. If the subject lacks a pair of bytes that the bind needs,
// the bind isn't looked at.
fn if_called<'a>(
    held: &'a [Held],
    entry: &IndexEntry,
    event: &BindEvent,
    pairs: WideSignature,
) -> Option<&'a Bind>
    requires risen { HaveRisen held.now }
    requires told { Tells entry.now.needs (bind_of entry.now.number held.now) }
    requires pairs { pairs ≡ wide_text_signature event.now.subject.now }
    ensures { option_copied result ≡ slice_get (called (seen event.now) (behind held.now (entry.now ∷ []))) 0 }
{
    if !entry.needs.is_within(pairs) {
        return None;
    }
    let one = held_of(held, entry.number)?;
    if one.is_called(event) {
        Some(one.bind())
    } else {
        None
    }
}

// Whether `subject` has each pair of bytes that the bind behind one of the entries needs.
pub(crate) fn has_needed(entries: &[IndexEntry], subject: &[u8]) -> bool
    ensures { result ≡ list_any (λ e. is_wide_within e.needs (wide_text_signature subject.now)) entries.now }
{
    if entries.is_empty() {
        return false;
    }
    let pairs = WideSignature::of(subject);
    entries.iter().any(|entry| entry.needs.is_within(pairs))
}

// Returns the bind with this number.
pub(crate) fn held_of(held: &[Held], number: u32) -> Option<&Held>
    requires { HaveRisen held.now }
    ensures { option_copied result ≡ bind_of number held.now }
{
    match held.binary_search_by_key(&number, |one| one.number()) {
        Ok(at) => Some(&held[at]),
        Err(_) => None,
    }
}
